//! What a cutter answers, Per-Peer Headers, and the texts of peers and views.
use super::words::bytes_at;
use crate::line::{Line, at};
use bmp_frames::{Cutter, PeerHeader, PeerKey, ViewText, parse_key, parse_view};

// The most bytes of a stream that a case has.
const MOST: usize = 1000;

// Whether a piece was fed: it isn't where the stream is too long, or there is no memory.
fn feed(cutter: &mut Cutter, piece: &[u8]) -> bool {
    piece.len() <= MOST
        && cutter.offset() <= 1000
        && cutter.rest() <= 1000
        && cutter.feed(piece).is_ok()
}

// What a cutter answers after a piece.
fn put_next(out: &mut Line, cutter: &mut Cutter, piece: &[u8]) {
    if !feed(cutter, piece) {
        out.fail();
    }
    out.show("", &cutter.next());
}

// The same of these bytes, and of one more.
fn put_both(out: &mut Line, bytes: &[u8]) {
    let mut cutter = Cutter::new(out.alloc);
    put_next(out, &mut cutter, bytes);
    out.put(" ");
    put_next(out, &mut cutter, &[3]);
}

pub(crate) fn next(out: &mut Line, words: &[&str]) {
    let bytes = bytes_at(out.alloc, words, 1);
    put_both(out, bytes.as_slice());
}

fn put_key(out: &mut Line, key: &Option<PeerKey>) {
    match key {
        Some(key) => out.put_short(&key.text()),
        None => out.put("-"),
    }
}

// The peer of a Per-Peer Header, its view, whether AS numbers have two bytes, its address, and its fields.
fn put_header(out: &mut Line, head: &PeerHeader) {
    put_key(out, &head.key());
    out.show(" ", &head.view());
    out.show(" two_byte=", &head.two_byte());
    out.put(" ");
    out.put_short(&head.place(&head.address).text());
    out.show(" ", &head);
}

pub(crate) fn header(out: &mut Line, words: &[&str]) {
    let mut bytes = [0u8; 42];
    match hex::decode_to_slice(at(words, 1), &mut bytes) {
        Ok(()) => put_header(out, &PeerHeader::read(&bytes)),
        Err(_) => out.put("no header"),
    }
}

pub(crate) fn key(out: &mut Line, words: &[&str]) {
    put_key(out, &parse_key(at(words, 1).as_bytes()));
}

pub(crate) fn view(out: &mut Line, words: &[&str]) {
    match parse_view(at(words, 1).as_bytes()) {
        Some(view) => out.put_short(&view.text()),
        None => out.put("-"),
    }
}
