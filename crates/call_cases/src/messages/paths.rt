//! AS paths.
use super::words::{bytes_at, width_at};
use crate::line::{Line, number_at};
use as_path::{AsPath, Numbers, Segment, SegmentKind, Width};
use std::alloc::Global;
use wire_io::{BodyFault, NoMemory};

fn put_segment(out: &mut Line, segment: &Segment) {
    out.show(" ", &segment.kind);
    for number in segment.numbers.as_slice() {
        out.show(" ", &number);
    }
}

// The origin and the segments of a path.
fn put_path(out: &mut Line, path: &AsPath) {
    out.show("", &path.origin());
    for segment in path.as_slice() {
        put_segment(out, segment);
    }
}

fn put_read(out: &mut Line, read: &Result<AsPath, BodyFault>) {
    match read {
        Ok(path) => put_path(out, path),
        Err(fault) => out.show("", fault),
    }
}

// Whether the bytes are a path, whether none of its AS numbers is 0, and the path.
fn put_bytes(out: &mut Line, bytes: &[u8], width: Width) {
    let is_path = AsPath::is_path(bytes, width);
    out.show("", &is_path);
    out.put(" ");
    if is_path {
        let has_no_zero = AsPath::has_no_zero(bytes, width);
        out.show("", &has_no_zero);
        out.put(" ");
    }
    let read = AsPath::read(out.alloc, bytes, width);
    put_read(out, &read);
}

pub(crate) fn path(out: &mut Line, words: &[&str]) {
    let bytes = bytes_at(out.alloc, words, 2);
    put_bytes(out, bytes.as_slice(), width_at(words, 1));
}

fn path_at(alloc: Global, words: &[&str], place: usize, width: Width) -> Result<AsPath, BodyFault> {
    let bytes = bytes_at(alloc, words, place);
    AsPath::read(alloc, bytes.as_slice(), width)
}

fn put_merged(out: &mut Line, merged: &Result<AsPath, NoMemory>) {
    match merged {
        Ok(path) => put_path(out, path),
        Err(_) => out.fail(),
    }
}

fn put_both(out: &mut Line, short: &AsPath, long: &mut AsPath) {
    long.drop_confederation();
    let merged = AsPath::merge(out.alloc, short, long);
    put_merged(out, &merged);
}

fn merge_with(out: &mut Line, short: &AsPath, words: &[&str]) {
    match path_at(out.alloc, words, 2, Width::Four) {
        Ok(mut long) => put_both(out, short, &mut long),
        Err(fault) => out.show("", &fault),
    }
}

// The path of an AS_PATH and an AS4_PATH.
pub(crate) fn merge(out: &mut Line, words: &[&str]) {
    match path_at(out.alloc, words, 1, Width::Two) {
        Ok(short) => merge_with(out, &short, words),
        Err(fault) => out.show("", &fault),
    }
}

// A copy of the path, and whether it has a segment, and one more, to give back.
fn put_segments(out: &mut Line, path: &mut AsPath) {
    let copy = path.copy();
    put_merged(out, &copy);
    out.show(" ", &path.pop().is_some());
    out.show(" ", &path.pop().is_some());
}

// Of a path with one AS_SET of these numbers.
fn put_set(out: &mut Line, numbers: Numbers) {
    let mut path = AsPath::new(out.alloc);
    let kind = SegmentKind::Set;
    if path.push(Segment { kind, numbers }).is_err() {
        out.fail();
    }
    put_segments(out, &mut path);
}

// The last of two numbers, which their list gives back.
fn put_last(out: &mut Line, numbers: &mut Numbers, words: &[&str]) {
    if numbers.push(number_at(words, 1)).is_err() || numbers.push(number_at(words, 2)).is_err() {
        out.fail();
    }
    out.show("", &numbers.pop());
    out.put(" ");
}

// The number that a list gives back, and the path that the other makes.
pub(crate) fn set_of(out: &mut Line, words: &[&str]) {
    let mut numbers = Numbers::new(out.alloc);
    put_last(out, &mut numbers, words);
    put_set(out, numbers);
}
