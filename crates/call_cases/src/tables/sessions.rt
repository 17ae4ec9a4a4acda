//! The tables of a router.
use super::entries::entry_of;
use super::route_tables::put_rows;
use super::words::peer_of;
use crate::line::{Line, behind};
use bmp_frames::{PeerKey, View};
use rib_model::Entry;
use route_runs::Place;
use router_tables::RouterTables;
use std::alloc::Global;
use wire_io::NoMemory;

// How many routes a peer has in a view.
fn count(tables: &RouterTables, key: &PeerKey, view: View) -> u64 {
    match tables.table(key, view) {
        Some(table) => table.count(),
        None => 0,
    }
}

// How many routes peer 0 has in Adj-RIB-In before and after policy, and peer 1 before policy, a digit each.
fn put_counts(out: &mut Line, tables: &RouterTables) {
    let (first, second) = (peer_of(0), peer_of(1));
    out.show("", &count(tables, &first, View::InPre));
    out.show("", &count(tables, &first, View::InPost));
    out.show("", &count(tables, &second, View::InPre));
}

fn put_taken(out: &mut Line, taken: &Result<RouterTables, NoMemory>) {
    match taken {
        Ok(tables) => put_counts(out, tables),
        Err(_) => out.fail(),
    }
}

fn put_counts_with(out: &mut Line, tables: &RouterTables, entries: &[Entry]) {
    let taken = tables.with(entries);
    put_taken(out, &taken);
}

// The counts of tables that take all entries at once.
fn put_at_once(out: &mut Line, entries: &[Entry]) {
    match RouterTables::new(out.alloc) {
        Ok(tables) => put_counts_with(out, &tables, entries),
        Err(_) => out.fail(),
    }
}

// Takes the entry of a text.
fn take(alloc: Global, tables: &mut RouterTables, entries: &mut Vec<Entry>, text: &str) -> bool {
    match entry_of(alloc, text) {
        Some(entry) => tables.apply(&entry).is_ok() && entries.push(entry).is_ok(),
        None => false,
    }
}

// Takes entries one by one, and writes the counts after each, and those of tables that take all up to there at once.
fn put_session(
    out: &mut Line,
    tables: &mut RouterTables,
    entries: &mut Vec<Entry>,
    texts: &[&str],
) {
    let mut is_well = true;
    for text in texts {
        is_well = is_well && take(out.alloc, tables, entries, text);
        out.put(" ");
        put_counts(out, tables);
        out.put("/");
        put_at_once(out, entries.as_slice());
    }
    out.show(" ", &is_well);
}

fn put_history(out: &mut Line, entries: &mut Vec<Entry>, texts: &[&str]) {
    match RouterTables::new(out.alloc) {
        Ok(mut tables) => put_session(out, &mut tables, entries, texts),
        Err(_) => out.fail(),
    }
}

pub(crate) fn session(out: &mut Line, words: &[&str]) {
    let mut entries = Vec::new(out.alloc);
    put_history(out, &mut entries, behind(words, 1));
}

// Puts the entry of a text.
fn put_entry(alloc: Global, entries: &mut Vec<Entry>, text: &str) -> bool {
    match entry_of(alloc, text) {
        Some(entry) => entries.push(entry).is_ok(),
        None => false,
    }
}

// Puts the entries of a text, with spaces between them.
fn put_entries(alloc: Global, entries: &mut Vec<Entry>, texts: &str) -> bool {
    let mut is_well = true;
    for text in texts.split(' ') {
        is_well = is_well && put_entry(alloc, entries, text);
    }
    is_well
}

// Takes the entries of a text, all at once.
pub(crate) fn take_all(alloc: Global, tables: &mut RouterTables, texts: &str) -> bool {
    let mut entries = Vec::new(alloc);
    put_entries(alloc, &mut entries, texts) && tables.extend(entries.as_slice()).is_ok()
}

fn put_view(out: &mut Line, tables: &RouterTables, key: &PeerKey, view: View) {
    if let Some(table) = tables.table(key, view) {
        out.show(" ", &view);
        out.put(":");
        put_rows(out, table, Place::First, 100);
    }
}

fn first_stat(tables: &RouterTables, key: &PeerKey) -> Option<u64> {
    match tables.stats().after(key, None) {
        Some(stat) => Some(stat.value),
        None => None,
    }
}

// Whether a peer is up, its first statistic, and its routes.
fn put_peer(out: &mut Line, tables: &RouterTables, key: &PeerKey) {
    out.show("; ", &key.kind);
    out.show(" ", &tables.peers().is_up(key));
    out.show(" ", &first_stat(tables, key));
    put_view(out, tables, key, View::InPre);
    put_view(out, tables, key, View::OutPost);
    put_view(out, tables, key, View::Loc);
}

// What the tables tell of the router and of the peers 0 and 1.
fn put_told(out: &mut Line, tables: &RouterTables) {
    out.show("", &tables.state());
    out.show(" ", &tables.recent().total());
    out.show(" ", &tables.counts());
    out.put(" ");
    out.put_text(tables.name());
    out.put(" ");
    out.put_text(tables.descr());
    put_peer(out, tables, &peer_of(0));
    put_peer(out, tables, &peer_of(1));
}

// Tables after more entries.
fn put_after(out: &mut Line, tables: &mut RouterTables, texts: &str) {
    let is_well = take_all(out.alloc, tables, texts);
    out.show("", &is_well);
    out.put(" ");
    put_told(out, tables);
}

fn put_later(out: &mut Line, later: &mut Result<RouterTables, NoMemory>, texts: &str) {
    match later {
        Ok(tables) => put_after(out, tables, texts),
        Err(_) => out.fail(),
    }
}

// Tables after the first entries and the second, and then those that they were made of, after the first alone.
fn put_versions(out: &mut Line, tables: &mut RouterTables, first: &str, second: &str) {
    let is_well = take_all(out.alloc, tables, first);
    out.show("", &is_well);
    out.put(" ");
    let mut later = tables.share();
    put_later(out, &mut later, second);
    out.put(" | ");
    put_told(out, tables);
}

fn versions_of(out: &mut Line, first: &str, second: &str) {
    match RouterTables::new(out.alloc) {
        Ok(mut tables) => put_versions(out, &mut tables, first, second),
        Err(_) => out.fail(),
    }
}

pub(crate) fn versions(out: &mut Line, texts: &str) {
    match texts.split_once(" / ") {
        Some((first, second)) => versions_of(out, first, second),
        None => out.put("?"),
    }
}
