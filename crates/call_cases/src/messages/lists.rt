//! Sinks, and lists of bytes.
use crate::line::{Line, at, number_at};
use wire_io::{ByteList, MemSink, StdSink, SureSink, write_all, write_pieces};

// Whether all pieces were written, and what was.
fn put_written(out: &mut Line, sink: &mut MemSink, pieces: &[&[u8]]) {
    let written = write_pieces(sink, pieces);
    out.show("", &written);
    out.put(" ");
    out.put_text(sink.taken());
}

// Writes three pieces to a sink with room for so many bytes, where the writes with these numbers fail.
fn write_in(out: &mut Line, words: &[&str], fails: &[u64]) {
    let pieces = [
        at(words, 3).as_bytes(),
        at(words, 4).as_bytes(),
        at(words, 5).as_bytes(),
    ];
    match MemSink::new(out.alloc, number_at(words, 1), fails) {
        Ok(mut sink) => put_written(out, &mut sink, &pieces),
        Err(_) => out.fail(),
    }
}

pub(crate) fn write(out: &mut Line, words: &[&str]) {
    if at(words, 2) == "-" {
        write_in(out, words, &[]);
    } else {
        write_in(out, words, &[number_at(words, 2) as u64]);
    }
}

// Writes to the sink that takes everything.
pub(crate) fn write_sure(out: &mut Line, words: &[&str]) {
    let written = write_all(&mut SureSink::new(), at(words, 1).as_bytes());
    out.show("", &written);
}

// Writes to a slice with room for four bytes.
pub(crate) fn write_to_slice(out: &mut Line, words: &[&str]) {
    let mut room = [0u8; 4];
    let written = write_all(&mut StdSink::new(&mut room[..]), at(words, 1).as_bytes());
    out.show("", &written);
    out.put(" ");
    out.put_text(&room);
}

fn put_copy(out: &mut Line, list: &ByteList) {
    match list.copy() {
        Ok(copy) => out.put_text(copy.as_slice()),
        Err(_) => out.fail(),
    }
}

fn put_cut(out: &mut Line, list: &mut ByteList, words: &[&str]) {
    if list.extend(at(words, 2).as_bytes()).is_err() {
        out.fail();
    }
    list.truncate(number_at(words, 1) as usize);
    put_copy(out, list);
}

// A copy of a list that has the text, and is cut back to this length.
pub(crate) fn cut_back(out: &mut Line, words: &[&str]) {
    let mut list = ByteList::new(out.alloc);
    put_cut(out, &mut list, words);
}
