//! The statistics of peers, and what a session counts.
use super::entries::stat_of;
use super::words::{long_at, peer_at};
use crate::line::{Line, at, behind};
use bmp_frames::PeerKey;
use stats_book::{Counts, StatsBook};
use std::alloc::Global;
use wire_tables::Stat;

fn act(book: &mut StatsBook, words: &[&str]) -> bool {
    if at(words, 0) == "set" {
        book.set(peer_at(words, 1), stat_of(behind(words, 2)))
            .is_ok()
    } else {
        book.forget(&peer_at(words, 1));
        true
    }
}

// Does the act of a text: `set` a statistic, or `forget` a peer.
fn take(alloc: Global, book: &mut StatsBook, text: &str) -> bool {
    match text.split(',').collect::<Vec<&str>>(alloc) {
        Ok(words) => act(book, words.as_slice()),
        Err(_) => false,
    }
}

fn take_all(alloc: Global, book: &mut StatsBook, texts: &[&str]) -> bool {
    let mut is_well = true;
    for text in texts {
        is_well = take(alloc, book, text) && is_well;
    }
    is_well
}

fn put_stat(out: &mut Line, stat: &Stat) {
    out.show(" ", &stat.code);
    out.show(",", &stat.afi);
    out.show(",", &stat.safi);
    out.show(",", &stat.value);
}

// The statistics of a peer after a place, up to eight.
fn put_stats(out: &mut Line, book: &StatsBook, key: &PeerKey, first: Option<Stat>) {
    let mut place = first;
    for _ in 0..8 {
        if let Some(stat) = book.after(key, place.as_ref()) {
            put_stat(out, &stat);
            place = Some(stat);
        } else {
            break;
        }
    }
}

fn put_copy(out: &mut Line, book: &StatsBook, key: &PeerKey) {
    match book.copy() {
        Ok(copy) => put_stats(out, &copy, key, None),
        Err(_) => out.fail(),
    }
}

// The place of a statistic: its code, its family and a value, or none.
fn place_of(alloc: Global, text: &str) -> Option<Stat> {
    match text.split(',').collect::<Vec<&str>>(alloc) {
        Ok(words) => {
            if words.len() == 4 {
                Some(stat_of(words.as_slice()))
            } else {
                None
            }
        }
        Err(_) => None,
    }
}

// The statistics of a peer after a place, and all of them in a copy.
pub(crate) fn statistics(out: &mut Line, words: &[&str]) {
    let (key, place) = (peer_at(words, 1), place_of(out.alloc, at(words, 2)));
    let mut book = StatsBook::new(out.alloc);
    let is_well = take_all(out.alloc, &mut book, behind(words, 3));
    out.show("", &is_well);
    put_stats(out, &book, &key, place);
    out.put(" copy");
    put_copy(out, &book, &key);
}

// The counts of six numbers.
pub(crate) fn counts_of(words: &[&str]) -> Counts {
    let mut counts = Counts::none();
    counts.messages = long_at(words, 0);
    counts.bytes = long_at(words, 1);
    counts.orphans = long_at(words, 2);
    counts.unread = long_at(words, 3);
    counts.mirrored = long_at(words, 4);
    counts.passed = long_at(words, 5);
    counts
}

// Adds counts of six numbers with commas between them.
fn add(alloc: Global, sum: &mut Counts, text: &str) -> bool {
    match text.split(',').collect::<Vec<&str>>(alloc) {
        Ok(words) => {
            sum.add(&counts_of(words.as_slice()));
            true
        }
        Err(_) => false,
    }
}

pub(crate) fn counts(out: &mut Line, words: &[&str]) {
    let mut sum = Counts::none();
    for text in behind(words, 1) {
        if !add(out.alloc, &mut sum, text) {
            out.fail();
        }
    }
    out.show("", &sum);
}
