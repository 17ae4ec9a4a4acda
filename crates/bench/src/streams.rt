use drill_streams::drill_stream;
use std::io;
use wire_io::{StdSink, write_all};

/// Writes the stream of a lane of a drill to standard output: of this seed, with so many messages after its opening.
pub fn run(rt: &HostRuntime, seed: u32, lane: u32, messages: u32) -> io::Result<()> {
    let Ok(stream) = drill_stream(rt.alloc(), seed, lane, messages) else {
        return Err(io::Error::from(io::ErrorKind::OutOfMemory));
    };
    let mut out = StdSink::new(rt.stdout());
    match write_all(&mut out, stream.as_slice()) {
        Ok(()) => Ok(()),
        Err(_) => Err(io::Error::from(io::ErrorKind::Other)),
    }
}
