//! The first octets of what is no whole message yet, which are told where it turns out to be none.
ghost use Rattle.std.specs.Prelude.{◌≡◌, ◌+◌, ◌≤◌, ◌⊎◌, ◌++◌, ℕ, List, [], length, take};
ghost use Rattle.feed_worker.specs.Front.{IsFront};

use ip_prefix::ShortText;

/// The most octets of a front.
const MOST_OCTETS: usize = 64;

/// The first octets, 64 at most, of what a connection gave beyond its messages.
#[derive(Drop)]
pub(crate) struct Front {
    octets: ShortText,
    ghost short: { length octets ≤ 64 },
}

impl Front {
    /// Of a connection that gave nothing.
    pub(crate) fn new() -> Front
        ensures { IsFront [] 0 result.octets }
    {
        Front {
            octets: ShortText::new(),
        }
    }

    // Appends what there is room for.
    fn extend(&mut self, piece: &[u8])
        ensures { self.new.octets ≡ take 64 (self.old.octets ++ piece.now) }
    {
        let room = MOST_OCTETS - self.octets.as_slice().len();
        if piece.len() <= room {
            self.octets.extend(piece);
        } else {
            self.octets.extend(&piece[..room]);
        }
    }

    /// Follows a connection that had given so many bytes, of which the first `from` were messages, and gives this piece; now
    /// the first `to` are messages. What wasn't whole before the piece came is so still, or ends in the piece.
    pub(crate) fn follow(&mut self, given: u64, from: u64, to: u64, piece: &[u8])
        requires { from ≤ given }
        ensures { (bytes : List ℕ) → length bytes ≡ given → IsFront bytes from self.old.octets → (to ≡ from) ⊎ (given ≤ to) → to ≤ given + length piece.now → IsFront (bytes ++ piece.now) to self.new.octets }
    {
        if to == from {
            self.extend(piece);
            return;
        }
        let skipped = to.saturating_sub(given).min(piece.len() as u64);
        self.octets = ShortText::new();
        self.extend(&piece[skipped as usize..]);
    }

    /// The octets.
    pub(crate) fn as_slice(&self) -> &[u8]
        ensures { result.now ≡ self.now.octets }
    {
        self.octets.as_slice()
    }
}
