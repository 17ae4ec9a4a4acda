//! Lines of the query language.
use super::routes::bytes_at;
use super::words::rest_of;
use crate::line::{Line, number_at};
use query_lang::{Query, parse, parse_ask};
use wire_io::MemSink;

// Writes the line of a query, or as much of it as there is room for, and what the call answers.
fn put_text(out: &mut Line, query: &Query, sink: &mut MemSink) {
    let answered = query.put_text(sink);
    out.put_text(sink.taken());
    let is_same = parse(sink.taken()) == Some(*query);
    out.show(" ", &answered);
    out.show(" ", &is_same);
}

// The same where there is room for so many bytes.
fn put_in(out: &mut Line, query: &Query, room: u32) {
    match MemSink::new(out.alloc, room, &[]) {
        Ok(mut sink) => put_text(out, query, &mut sink),
        Err(_) => out.fail(),
    }
}

// What a line asks for, its canonical line, and whether that asks for the same.
pub(crate) fn query(out: &mut Line, line: &[u8]) {
    match parse(line) {
        Some(query) => {
            out.show("", &query);
            out.put(" ");
            put_in(out, &query, 256);
        }
        None => out.put("none"),
    }
}

pub(crate) fn query_hex(out: &mut Line, words: &[&str]) {
    let line = bytes_at(out.alloc, words, 1);
    query(out, line.as_slice());
}

pub(crate) fn query_room(out: &mut Line, case: &str, words: &[&str]) {
    match parse(rest_of(rest_of(case)).as_bytes()) {
        Some(query) => put_in(out, &query, number_at(words, 1)),
        None => out.put("none"),
    }
}

// What a line asks for, with the further words.
pub(crate) fn asked(out: &mut Line, line: &[u8]) {
    match parse_ask(line) {
        Some(ask) => out.show("", &ask),
        None => out.put("none"),
    }
}
