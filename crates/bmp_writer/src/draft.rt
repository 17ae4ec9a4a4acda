//! A message that isn't whole yet.
ghost use Rattle.std.specs.Prelude.{◌≡◌, [], ◌++◌, OnOk, OnErr};

use std::marker::Model;

/// The room has no place for a piece.
#[derive(Clone, Copy, Debug, PartialEq, Eq)]
pub(crate) struct Full;

/// Bytes that stand in room which is lent, one after another. So small pieces are put together at little cost.
#[derive(Drop)]
pub(crate) struct Draft<'a> {
    room: &'a mut [u8],
    used: usize,
}

impl<'a> Model for Draft<'a> {
    ghost use Rattle.std.specs.Prelude.{ℕ, List, ◌≤◌, length, take};

    ghost Value = { List ℕ };

    ghost view = { λ d. take d.used d.room.now };

    ghost invariant = { λ d. d.used ≤ length d.room.now };
}

impl<'a> Draft<'a> {
    /// No bytes, in this room.
    pub(crate) fn new(room: &'a mut [u8]) -> Draft<'a>
        ensures { result ≡ [] }
    {
        Draft { room, used: 0 }
    }

    /// Appends the piece. Where it has no room the bytes are as before.
    #[inline(always)]
    pub(crate) fn extend(&mut self, piece: &[u8]) -> Result<(), Full>
        ensures ok { OnOk result (self.new ≡ self.old ++ piece.now) }
        ensures err { OnErr result (self.new ≡ self.old) }
    {
        if piece.len() > self.room.len() - self.used {
            return Err(Full);
        }
        let end = self.used + piece.len();
        self.room[self.used..end].copy_from_slice(piece);
        self.used = end;
        Ok(())
    }

    /// Lends the bytes.
    pub(crate) fn as_slice(&self) -> &[u8]
        ensures { result.now ≡ self.now }
    {
        &self.room[..self.used]
    }
}
