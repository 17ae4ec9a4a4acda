ghost use Rattle.std.specs.Prelude.{◌≡◌, ◌+◌, ◌/◌, ◌%◌, ◌<◌, ◌≤◌, [], ◌∷◌, ◌++◌, length};
ghost use Rattle.bmp_specs.specs.NumberText.{number_text};

use std::marker::Model;

// How many bytes a `ShortText` has room for.
const ROOM: usize = 64;

/// A text of at most 64 bytes. It takes no memory.
#[derive(Debug, Drop)]
pub struct ShortText {
    bytes: [u8; ROOM],
    len: usize,
}

impl Model for ShortText {
    ghost use Rattle.std.specs.Prelude.{ℕ, List, take, ◌≤◌};

    ghost Value = { List ℕ };

    ghost view = { λ t. take t.len t.bytes };

    ghost invariant = { λ t. t.len ≤ 64 };
}

impl ShortText {
    /// The empty text.
    pub fn new() -> ShortText
        ensures { result ≡ [] }
    {
        ShortText {
            bytes: [0; ROOM],
            len: 0,
        }
    }

    /// Appends a byte.
    pub fn push(&mut self, byte: u8)
        requires { length self.old < 64 }
        ensures { self.new ≡ self.old ++ byte ∷ [] }
    {
        self.bytes[self.len] = byte;
        self.len += 1;
    }

    /// Appends the bytes of a piece.
    pub fn extend(&mut self, piece: &[u8])
        requires { length self.old + length piece.now ≤ 64 }
        ensures { self.new ≡ self.old ++ piece.now }
    {
        let end = self.len + piece.len();
        self.bytes[self.len..end].copy_from_slice(piece);
        self.len = end;
    }

    /// Appends the decimal digits of a number.
    pub fn put_number(&mut self, number: u64)
        requires { length self.old + length (number_text number) ≤ 64 }
        ensures { self.new ≡ self.old ++ number_text number }
    {
        if number < 10 {
            self.push(b'0' + number as u8);
        } else if number < 100 {
            self.put_pair(number as u8);
        } else if number < 1000 {
            self.put_three(number as u16);
        } else {
            self.put_number(number / 1000);
            self.put_three((number % 1000) as u16);
        }
    }

    // Appends a number below 100 as two digits.
    fn put_pair(&mut self, pair: u8)
        requires room { length self.old + 2 ≤ 64 }
        requires pair { pair < 100 }
        ensures { self.new ≡ self.old ++ (48 + pair / 10) ∷ (48 + pair % 10) ∷ [] }
    {
        self.push(b'0' + pair / 10);
        self.push(b'0' + pair % 10);
    }

    // Appends a number below 1000 as three digits.
    fn put_three(&mut self, three: u16)
        requires room { length self.old + 3 ≤ 64 }
        requires three { three < 1000 }
        ensures { self.new ≡ self.old ++ (48 + three / 100) ∷ (48 + three % 100 / 10) ∷ (48 + three % 100 % 10) ∷ [] }
    {
        self.push(b'0' + (three / 100) as u8);
        self.put_pair((three % 100) as u8);
    }

    /// The bytes.
    pub fn as_slice(&self) -> &[u8]
        ensures { result.now ≡ self.now }
    {
        &self.bytes[..self.len]
    }
}
