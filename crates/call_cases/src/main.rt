//! Runs calls of the libraries on the cases of standard input, and prints what each answers.
//!
//! A case is a line: a word that names the call, and after it what the call is given, with a space before each. A case
//! prints a line. A line that begins with `#` tells of the cases after it, and prints nothing. The files `stdin` and
//! `stdout` are the cases and their answers. These are values that RFCs, captures, and bytes and rows made by hand have,
//! and none was taken from this program. `draw.py` draws the last cases, and has a model that answers them. A new case
//! is a line in each file, and nothing is proved anew.
//!
//! `messages/calls.rt` has the words for what reads and writes messages, `tables/calls.rt` those for tables, queries,
//! replies and VRPs.
#![tactic(auto)]

mod line;
mod messages;
mod tables;

use bgp_update::UpdateReader;
use cut_publisher::Cut;
use line::Line;
use router_tables::RouterTables;
use std::alloc::Global;
use std::io;

// Writes what the call of a case answers; `?` where there is no such call.
fn answer(
    line: &mut Line,
    reader: &mut UpdateReader,
    cut: &mut Option<Cut<RouterTables>>,
    case: &str,
    words: &[&str],
) {
    if !messages::answer(line, reader, words) {
        tables::answer(line, cut, case, words);
    }
}

// The line that a case prints.
fn line_of(
    alloc: Global,
    reader: &mut UpdateReader,
    cut: &mut Option<Cut<RouterTables>>,
    case: &str,
) -> Line {
    let mut line = Line::new(alloc);
    match case.split(' ').collect::<Vec<&str>>(alloc) {
        Ok(words) => answer(&mut line, reader, cut, case, words.as_slice()),
        Err(_) => line.fail(),
    }
    line
}

fn print(rt: &HostRuntime, line: &Line) -> io::Result<()> {
    match line.text() {
        Some(text) => println!(rt; "{text}"),
        None => Err(io::Error::from(io::ErrorKind::OutOfMemory)),
    }
}

// Prints what a case answers; of a comment, nothing.
fn run(
    rt: &HostRuntime,
    reader: &mut UpdateReader,
    cut: &mut Option<Cut<RouterTables>>,
    case: &str,
) -> io::Result<()> {
    if case.starts_with('#') {
        Ok(())
    } else {
        print(rt, &line_of(rt.alloc(), reader, cut, case))
    }
}

// Runs each case. The reader and the cut are those that cases leave to the next.
fn run_all(
    rt: &HostRuntime,
    reader: &mut UpdateReader,
    cut: &mut Option<Cut<RouterTables>>,
) -> io::Result<()> {
    for case in rt.lines(rt.alloc()) {
        run(rt, reader, cut, case?.as_str())?;
    }
    Ok(())
}

fn main(rt: HostRuntime) -> io::Result<()> {
    let mut reader = UpdateReader::new(rt.alloc());
    let mut cut = None;
    run_all(&rt, &mut reader, &mut cut)
}
