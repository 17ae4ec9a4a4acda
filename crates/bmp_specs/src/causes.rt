/// Why a stream is broken: another version than 3, a length out of range, or a body outside the grammar.
#[derive(Clone, Copy, Debug, PartialEq, Eq)]
pub enum Why {
    Version,
    Length,
    Body,
}

/// How a connection ended. An offset counts bytes from the connection's start.
#[derive(Clone, Copy, Debug, PartialEq, Eq)]
pub enum Cause {
    Ended,
    Terminated,
    CutShort { offset: u64 },
    Broken { offset: u64, why: Why },
    ReadFault { offset: u64 },
    Full,
}

/// The most bytes that are taken of one connection: 2^46. One that gives as many ends with `Cause::Full`.
pub const MOST_TAKEN: u64 = 0x4000_0000_0000;

/// The most bytes that one read of a router's connection gives.
pub const MOST_READ: u64 = 65536;
