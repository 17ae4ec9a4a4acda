ghost use Rattle.std.specs.Prelude.{◌≡◌, ◌↔◌, ◌<◌, ◌++◌, ◌∷◌, [], length, IsTrue};
ghost use Rattle.ask_session.specs.Lines.{IsTooMany, chomped};

use std::marker::Model;

/// The most bytes of a line.
pub const MOST_LINE: usize = 1024;

/// The bytes of a line whose end has not come. It holds up to 1,026 of them: the 1,024 of a line, a carriage return
/// that may be before its end, and one more, with which a line is too long whatever follows.
#[derive(Drop)]
pub struct Line {
    bytes: [u8; 1026],
    len: usize,
}

impl Model for Line {
    ghost use Rattle.std.specs.Prelude.{List, ℕ, ◌≤◌, take};

    ghost Value = { List ℕ };

    ghost view = { λ l. take l.len l.bytes };

    ghost invariant = { λ l. l.len ≤ 1026 };
}

impl Line {
    pub fn new() -> Line
        ensures { result ≡ [] }
    {
        Line {
            bytes: [0; 1026],
            len: 0,
        }
    }

    pub fn len(&self) -> usize
        ensures { result ≡ length self.now }
    {
        self.len
    }

    pub fn push(&mut self, byte: u8)
        requires { length self.old < 1026 }
        ensures { self.new ≡ self.old ++ byte ∷ [] }
    {
        self.bytes[self.len] = byte;
        self.len += 1;
    }

    /// Whether they are too many for any line, whatever follows: more than 1,024, where a carriage return at their end
    /// isn't counted.
    pub fn is_too_long(&self) -> bool
        ensures { IsTrue result ↔ IsTooMany self.now }
    {
        chomp(self.as_slice()).len() > MOST_LINE
    }

    pub fn clear(&mut self)
        ensures { self.new ≡ [] }
    {
        self.len = 0;
    }

    pub fn as_slice(&self) -> &[u8]
        ensures { result.now ≡ self.now }
    {
        &self.bytes[..self.len]
    }
}

/// The line without one carriage return at its end.
pub fn chomp(body: &[u8]) -> &[u8]
    ensures { result.now ≡ chomped body.now }
{
    let len = body.len();
    if len == 0 {
        return body;
    }
    if body[len - 1] == 13 {
        return &body[..len - 1];
    }
    body
}
