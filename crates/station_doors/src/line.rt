ghost use Rattle.std.specs.Prelude.{◌≡◌, ◌≤◌, ◌<◌, length};

use std::fmt;

/// The most bytes of a line, its end among them.
const MOST_BYTES: usize = 640;

// The byte that ends a line.
const END: u8 = b'\n';

/// One line of the log: at most 640 bytes, of which the last ends it. What doesn't fit is cut off.
#[derive(Drop)]
pub(crate) struct Line {
    bytes: [u8; MOST_BYTES],
    length: usize,
    ghost fits: { length < 640 },
}

impl Line {
    // A line with nothing in it.
    pub(crate) fn new() -> Line {
        Line {
            bytes: [END; MOST_BYTES],
            length: 0,
        }
    }

    // Its bytes, of which there is one at least.
    pub(crate) fn as_bytes(&self) -> &[u8]
        ensures { (0 < length result.now) × (length result.now ≤ 640) }
    {
        &self.bytes[..=self.length]
    }
}

impl fmt::Write for Line {
    fn write_str(&mut self, text: &str) -> fmt::Result {
        let room = MOST_BYTES - 1 - self.length;
        let count = text.len().min(room);
        let (at, end) = (self.length, self.length + count);
        self.bytes[at..end].copy_from_slice(&text.as_bytes()[..count]);
        self.length = end;
        Ok(())
    }
}
