//! Streams of the lanes of a drill.
use crate::line::{Line, number_at};
use drill_streams::drill_stream;

// The number of bytes of the stream, and those from a place on.
fn put_stream(out: &mut Line, stream: &[u8], at: usize, count: usize) {
    let length = stream.len();
    out.show("", &length);
    out.put(" ");
    let (_, rest) = stream.split_at(at.min(length));
    let (piece, _) = rest.split_at(count.min(rest.len()));
    out.put_hex(piece);
}

pub(crate) fn drill(out: &mut Line, words: &[&str]) {
    let (seed, lane, messages) = (
        number_at(words, 1),
        number_at(words, 2),
        number_at(words, 3),
    );
    let (at, count) = (number_at(words, 4) as usize, number_at(words, 5) as usize);
    match drill_stream(out.alloc, seed, lane, messages) {
        Ok(stream) => put_stream(out, stream.as_slice(), at, count),
        Err(_) => out.fail(),
    }
}
