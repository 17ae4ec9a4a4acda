use thiserror::Error;

/// Why a connection of an asker ended.
#[derive(Clone, Copy, Debug, PartialEq, Eq, Error)]
pub enum Close {
    /// The input ended.
    #[error("the input ended")]
    Ended,

    /// As many bytes were taken as are taken of one connection.
    #[error("no more bytes are taken of one connection")]
    Full,

    /// `quit`, or a line that is too long.
    #[error("quit, or a line that is too long")]
    Over,

    /// A read failed.
    #[error("a read failed")]
    ReadFault,

    /// A write failed.
    #[error("a write failed")]
    WriteFault,
}
