ghost use Rattle.std.specs.Prelude.{◌≡◌};

/// How a call of the station ended.
#[derive(Clone, Copy, Debug, PartialEq, Eq)]
pub enum Status {
    /// Done.
    Done,
    /// The stream is broken, cut short, or too long for one connection.
    Stopped,
    /// The words are no command.
    Usage,
    /// A read failed, or no connection could be opened.
    ReadFault,
    /// A write failed, and nothing was written after it. It takes the place of every other status.
    WriteFault,
    /// The call ran out of memory.
    NoMemory,
    /// The yard failed.
    YardFault,
    /// What the stream left can't be relayed. Nothing was written.
    Unwritable,
    /// The file of validated ROA payloads (VRPs) has a record of another form, or is too long. The line that says so is all that was
    /// written, and no byte of the stream was read.
    BadFile,
    /// The file is no archive, or it isn't empty where one is to be made. The line that says so is all that was written.
    BadArchive,
    /// The disk failed.
    DiskFault,
    /// The archive has no room for what the input gave next.
    ArchiveFull,
}

impl Status {
    ghost use Rattle.station_top.specs.Status.{code_of};

    /// The exit status of the program.
    pub fn code(&self) -> u8
        ensures { result ≡ code_of self.now }
    {
        match self {
            Status::Done => 0,
            Status::Stopped => 1,
            Status::Usage => 2,
            Status::ReadFault => 3,
            Status::WriteFault => 4,
            Status::NoMemory => 5,
            Status::YardFault => 6,
            Status::Unwritable => 8,
            Status::BadFile => 9,
            Status::BadArchive => 10,
            Status::DiskFault => 11,
            Status::ArchiveFull => 12,
        }
    }
}
