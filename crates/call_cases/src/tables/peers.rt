//! The peers of a session, and which of their tables are complete.
use super::states::{REMOTE_SILENT, info_of};
use super::words::{peer_at, view_at};
use crate::line::{Line, at, behind, family_at};
use bmp_frames::{PeerKey, View};
use bmp_specs::Family;
use peer_book::{PeerBook, PeerState};
use std::alloc::Global;

fn up(alloc: Global, book: &mut PeerBook, words: &[&str]) -> bool {
    match info_of(alloc, false, None) {
        Some(info) => book.up(peer_at(words, 1), info).is_ok(),
        None => false,
    }
}

// Does an act, and answers what it answers.
fn act(alloc: Global, book: &mut PeerBook, words: &[&str]) -> bool {
    match at(words, 0) {
        "up" => up(alloc, book, words),
        "down" => book.down(peer_at(words, 1), REMOTE_SILENT).is_ok(),
        _ => book.mark(&peer_at(words, 1), view_at(words, 2), family_at(words, 3)),
    }
}

// Does the act of a text, and answers what it answers.
fn take(alloc: Global, book: &mut PeerBook, text: &str) -> bool {
    match text.split(',').collect::<Vec<&str>>(alloc) {
        Ok(words) => act(alloc, book, words.as_slice()),
        Err(_) => false,
    }
}

fn put_if_complete(out: &mut Line, book: &PeerBook, key: &PeerKey, view: View, family: Family) {
    if book.is_complete(key, view, family) {
        out.show(" ", &view);
        out.show("/", &family);
    }
}

// The tables of a peer that are complete.
fn put_complete(out: &mut Line, book: &PeerBook, key: &PeerKey) {
    for view in [
        View::InPre,
        View::InPost,
        View::OutPre,
        View::OutPost,
        View::Loc,
    ] {
        put_if_complete(out, book, key, view, Family::V4);
        put_if_complete(out, book, key, view, Family::V6);
    }
}

// The AS of a peer that is up, or the reason of one that is down.
fn number(state: &PeerState) -> u32 {
    match state {
        PeerState::Up(info) => info.asn,
        PeerState::Down(info) => info.reason as u32,
    }
}

fn put_peer(out: &mut Line, book: &PeerBook, key: &PeerKey, state: &PeerState) {
    out.show("; ", &key.kind);
    out.show(" ", &number(state));
    out.show(" ", &book.is_up(key));
    put_complete(out, book, key);
}

// The peers, one after another, up to four.
fn put_peers(out: &mut Line, book: &PeerBook) {
    let mut place: Option<PeerKey> = None;
    for _ in 0..4 {
        if let Some(line) = book.after(place.as_ref()) {
            put_peer(out, book, &line.key, line.state);
            place = Some(line.key);
        } else {
            break;
        }
    }
}

fn put_copy(out: &mut Line, book: &PeerBook) {
    match book.copy() {
        Ok(copy) => put_peers(out, &copy),
        Err(_) => out.fail(),
    }
}

fn take_all(out: &mut Line, book: &mut PeerBook, texts: &[&str]) {
    for text in texts {
        out.show("", &take(out.alloc, book, text));
        out.put(" ");
    }
}

// What each act answers, and the peers of the book and of its copy.
pub(crate) fn peers(out: &mut Line, words: &[&str]) {
    let mut book = PeerBook::new(out.alloc);
    take_all(out, &mut book, behind(words, 1));
    put_peers(out, &book);
    out.put(" copy");
    put_copy(out, &book);
}
