ghost use Rattle.std.specs.Prelude.{◌<◌};

use bmp_frames::{Cutter, Next};
use std::alloc::Global;
use std::io;
use std::io::Read;

/// The bytes of one read, and of a piece where no other number is given.
const PIECE: usize = 65_536;

/// The most bytes of a stream.
const LIMIT: u64 = 1 << 46;

/// How many messages there were of each type, and their lengths.
#[derive(Clone, Copy)]
struct Counts {
    kinds: [u64; 8],
    messages: u64,
    bytes: u64,
}

impl Counts {
    fn new() -> Counts {
        Counts {
            kinds: [0; 8],
            messages: 0,
            bytes: 0,
        }
    }

    // Adds a message. Types above 6 count together.
    fn add(&mut self, kind: u8, length: u32) {
        let place = kind.min(7) as usize;
        self.kinds[place] = self.kinds[place].saturating_add(1);
        self.messages = self.messages.saturating_add(1);
        self.bytes = self.bytes.saturating_add(length as u64);
    }

    fn print(&self, rt: &impl Print) -> io::Result<()> {
        println!(rt; "messages {}", self.messages)?;
        println!(rt; "bytes {}", self.bytes)?;
        self.print_kinds(rt)
    }

    fn print_kinds(&self, rt: &impl Print) -> io::Result<()> {
        println!(rt; "route-monitoring {}", self.kinds[0])?;
        println!(rt; "statistics-report {}", self.kinds[1])?;
        println!(rt; "peer-down {}", self.kinds[2])?;
        println!(rt; "peer-up {}", self.kinds[3])?;
        println!(rt; "initiation {}", self.kinds[4])?;
        println!(rt; "termination {}", self.kinds[5])?;
        println!(rt; "route-mirroring {}", self.kinds[6])?;
        println!(rt; "other {}", self.kinds[7])
    }
}

// Takes all whole messages of the bytes fed.
fn drain(cutter: &mut Cutter, counts: &mut Counts) {
    while let Next::Frame { kind, length } = cutter.next() {
        counts.add(kind, length);
    }
}

// Feeds a piece, and takes all whole messages. False where no memory is left, or past the most bytes
// of a stream.
fn take(cutter: &mut Cutter, piece: &[u8], counts: &mut Counts) -> bool {
    if LIMIT - (cutter.offset() + cutter.rest()) < piece.len() as u64
        || cutter.feed(piece).is_err()
    {
        return false;
    }
    drain(cutter, counts);
    true
}

// Walks a stream, read by read, each read in pieces of this size.
fn walk<R: Read + Drop>(alloc: Global, mut input: R, size: usize) -> io::Result<Counts>
    requires { 0 < size }
{
    let mut cutter = Cutter::new(alloc);
    let mut counts = Counts::new();
    let mut buffer = vec![in alloc; 0u8; PIECE]?;
    for _ in 0..u64::MAX {
        let count = input.read(&mut buffer)?;
        if count == 0 {
            break;
        }
        for piece in buffer[..count].chunks(size) {
            if !take(&mut cutter, piece, &mut counts) {
                return Err(io::Error::from(io::ErrorKind::OutOfMemory));
            }
        }
    }
    Ok(counts)
}

/// Walks a stream by its message headers, fed in pieces of so many bytes, and prints how many messages there were
/// of each type.
pub fn run<R: Print + AllocGlobal, I: Read + Drop>(
    rt: &R,
    input: I,
    size: Option<usize>,
) -> io::Result<()> {
    let size = size.unwrap_or(PIECE).max(1);
    let counts = walk(rt.alloc(), input, size)?;
    counts.print(rt)
}
