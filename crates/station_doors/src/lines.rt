use crate::line::Line;
use crossbeam_queue::ArrayQueue;
use std::alloc::Global;
use std::fmt::Write as _;
use std::io::Write;
use std::sync::Wait;
use std::sync::atomic::{AtomicBool, AtomicU64, Ordering};
use std::thread::Parker;
use std::time::Clock;
use wire_io::NoMemory;

/// The most lines that wait to be written.
const MOST_LINES: usize = 1024;

/// How many seconds the places of a station have to begin, before those that didn't are said.
const SETTLED: u64 = 5;

/// The lines of a log that wait to be written: at most 1,024, of at most 640 bytes each, whose memory is taken at once.
///
/// Who says something doesn't wait for whoever reads the log. Where there is no room a line is dropped, and how many were
/// is said as soon as there is some. One thread writes the lines, and sleeps while there are none.
///
/// They also count the places of a station that began to be served, since each wants a thread and the system may give fewer.
#[derive(Drop)]
pub struct Lines {
    waiting: ArrayQueue<Line>,
    dropped: AtomicU64,
    is_over: AtomicBool,
    bell: Parker,
    // How many places there are, from which second of the clock on, how many of them began, and whether it was said that
    // some didn't.
    places: AtomicU64,
    since: AtomicU64,
    begun: AtomicU64,
    is_lack_said: AtomicBool,
}

// The second of the clock. 0 where it can't be read.
fn second_of<N: Clock>(clock: &N) -> u64 {
    match clock.monotonic() {
        Ok(time) => time.as_secs(),
        Err(_) => 0,
    }
}

impl Lines {
    /// No line waits.
    pub fn new(alloc: Global) -> Result<Lines, NoMemory> {
        Ok(Lines {
            waiting: ArrayQueue::new(alloc, MOST_LINES)?,
            dropped: AtomicU64::new(0),
            is_over: AtomicBool::new(false),
            bell: Parker::new(),
            places: AtomicU64::new(0),
            since: AtomicU64::new(0),
            begun: AtomicU64::new(0),
            is_lack_said: AtomicBool::new(false),
        })
    }

    // From now on there are so many places.
    pub(crate) fn expect<N: Clock>(&self, clock: &N, places: u64) {
        self.since.store(second_of(clock), Ordering::SeqCst);
        self.places.store(places, Ordering::SeqCst);
    }

    // One of them began to be served.
    pub(crate) fn begin(&self) {
        self.begun.fetch_add(1, Ordering::SeqCst);
    }

    // How many places there are and how many of them began, where some didn't in five seconds. It is told once.
    pub(crate) fn lacking<N: Clock>(&self, clock: &N) -> Option<(u64, u64)> {
        let places = self.places.load(Ordering::SeqCst);
        let begun = self.begun.load(Ordering::SeqCst);
        let settled = self.since.load(Ordering::SeqCst).saturating_add(SETTLED);
        if begun >= places || second_of(clock) < settled {
            return None;
        }
        if self.is_lack_said.swap(true, Ordering::SeqCst) {
            return None;
        }
        Some((places, begun))
    }

    // Says this line, or drops it.
    pub(crate) fn say<R: Wait>(&self, rt: &R, line: Line) {
        if !(self.says_dropped(rt) && self.has_put(rt, line)) {
            self.dropped.fetch_add(1, Ordering::SeqCst);
        }
        self.bell.unpark();
    }

    /// Nothing more is said.
    pub fn end(&self) {
        self.is_over.store(true, Ordering::SeqCst);
        self.bell.unpark();
    }

    /// Writes the lines, each in one write, until all are written and nothing more is said. What fails to be written is
    /// lost. One thread may do so at a time.
    pub fn write_to<R: Wait, W: Write>(&self, rt: &R, out: &mut W) {
        for _ in rt.forever() {
            // This is asked first, so that what was said before the end is written before it.
            let is_over = self.is_over.load(Ordering::SeqCst);
            self.write_waiting(rt, out);
            if is_over {
                return;
            }
            self.bell.park(rt);
        }
    }

    // Writes the lines that wait, and then how many were dropped.
    fn write_waiting<R: Wait, W: Write>(&self, rt: &R, out: &mut W) {
        for _ in rt.forever() {
            match self.waiting.pop(rt) {
                Some(line) => write_line(out, &line),
                None => break,
            }
        }
        let count = self.dropped.swap(0, Ordering::SeqCst);
        if count > 0 {
            write_line(out, &dropped_line(count));
        }
    }

    // Whether there was room for the line.
    fn has_put<R: Wait>(&self, rt: &R, line: Line) -> bool {
        self.waiting.push(rt, line).is_ok()
    }

    // Says how many lines were dropped, if any. False where there is no room for that.
    fn says_dropped<R: Wait>(&self, rt: &R) -> bool {
        let count = self.dropped.swap(0, Ordering::SeqCst);
        if count == 0 || self.has_put(rt, dropped_line(count)) {
            return true;
        }
        self.dropped.fetch_add(count, Ordering::SeqCst);
        false
    }
}

fn dropped_line(count: u64) -> Line {
    let mut line = Line::new();
    let _ = write!(line, "level=warning event=dropped lines={count}");
    line
}

fn write_line<W: Write>(out: &mut W, line: &Line) {
    let _ = out.write_all(line.as_bytes());
}
