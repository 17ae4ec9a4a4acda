/// How a call of `serve` ended.
#[derive(Clone, Copy, Debug, PartialEq, Eq)]
pub enum Outcome {
    /// All connections were served, as many as were to be.
    Done,

    /// The call, or a lane, ran out of memory.
    NoMemory,

    /// The yard failed.
    YardFault,

    /// A write failed.
    WriteFault,
}
