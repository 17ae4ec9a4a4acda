//! Events of the machine.

use query_lang::Ask;
use wire_io::ByteList;

/// One event of the machine of lanes and askers.
#[derive(Drop)]
pub enum Event {
    /// The lane, if none of its connections is live, has a new one, of which no byte was taken.
    Begin { lane: u32 },

    /// The live connection of the lane gave this piece. It is taken as far as to 2^46 bytes of the connection in all.
    Take { lane: u32, piece: ByteList },

    /// The last read of the lane's live connection gave no byte, or failed.
    End { lane: u32, failed: bool },

    /// The lane's pending entries before the next closing join the history in one step, or a closing alone where it is
    /// the next one.
    Publish { lane: u32 },

    /// The asker is told that the history has come so far.
    Tell { asker: u32, rev: u64 },

    /// The asker asks this, which is answered on the whole history.
    Ask { asker: u32, ask: Ask },

    /// The history ends.
    Finish,
}
