//! Bodies of UPDATE messages. Prefixes with `-` are withdrawn, those with `+` stand in the NLRI and those with `*` in
//! MP_REACH_NLRI.
use super::words::{bytes_at, prefix_at, width_at};
use crate::line::{Line, at};
use bgp_update::{
    FramedUpdate, IdUse, NlriList, Update, UpdateReader, contained_routes, fits_family,
    frame_update, unicast_family,
};
use ip_prefix::{Family, Nlri, Prefix};
use path_attrs::{Attrs, Width};
use std::alloc::Global;
use std::sync::Arc;
use wire_io::BodyFault;

// Where path identifiers are used: `ids` names both families, any other word none.
fn ids_of(word: &str) -> IdUse {
    let both = word == "ids";
    IdUse { v4: both, v6: both }
}

fn put_list(out: &mut Line, sign: &str, list: &NlriList) {
    for nlri in list.as_slice() {
        out.put(sign);
        out.put_nlri(nlri);
    }
}

fn mark_of(update: &Update) -> &'static str {
    match update.mark {
        Some(Family::V4) => "end of IPv4",
        Some(Family::V6) => "end of IPv6",
        None => "",
    }
}

fn hop_size(attrs: &Attrs) -> Option<usize> {
    match &attrs.hop {
        Some(hop) => Some(hop.as_slice().len()),
        None => None,
    }
}

// The sizes of the next hops of both kinds of routes.
fn put_hops(out: &mut Line, update: &Update) {
    out.show("hops=", &hop_size(&update.plain_attrs));
    out.show(",", &hop_size(&update.multi_attrs));
}

// What an UPDATE says, and the sizes of its two next hops.
fn put_update(out: &mut Line, update: &Update) {
    put_list(out, "-", &update.withdrawn);
    put_list(out, "+", &update.plain);
    put_list(out, "*", &update.multi);
    out.put(mark_of(update));
    out.show(" unread=", &update.unread);
    out.put(" ");
    put_hops(out, update);
}

fn put_read(out: &mut Line, read: &Result<Update, BodyFault>) {
    match read {
        Ok(update) => put_update(out, update),
        Err(fault) => out.show("", fault),
    }
}

fn put_after(out: &mut Line, reader: &mut UpdateReader, words: &[&str], body: &[u8]) {
    let read = reader.read(body, width_at(words, 1), ids_of(at(words, 2)));
    put_read(out, &read);
}

// What the reader of all cases answers, after those that it has read.
pub(crate) fn after(out: &mut Line, reader: &mut UpdateReader, words: &[&str]) {
    let body = bytes_at(out.alloc, words, 3);
    put_after(out, reader, words, body.as_slice());
}

// The sizes of both next hops, and how many shares the attributes have.
fn put_shares(out: &mut Line, read: &Result<Update, BodyFault>) {
    match read {
        Ok(update) => {
            put_hops(out, update);
            out.show(" ", &Arc::strong_count(&update.plain_attrs));
        }
        Err(fault) => out.show("", fault),
    }
}

// Reads an UPDATE with a reader that reads no other.
fn read_alone(alloc: Global, body: &[u8]) -> Result<Update, BodyFault> {
    let mut reader = UpdateReader::new(alloc);
    reader.read(body, Width::Four, ids_of(""))
}

fn put_shares_once(out: &mut Line, body: &[u8]) {
    let read = read_alone(out.alloc, body);
    put_shares(out, &read);
}

pub(crate) fn shares(out: &mut Line, words: &[&str]) {
    let body = bytes_at(out.alloc, words, 1);
    put_shares_once(out, body.as_slice());
}

fn put_shares_by(out: &mut Line, reader: &mut UpdateReader, body: &[u8]) {
    let read = reader.read(body, Width::Four, ids_of(""));
    put_shares(out, &read);
}

// The same of what a reader has read, and of what it reads again while that stands.
fn put_twice(out: &mut Line, reader: &mut UpdateReader, body: &[u8]) {
    let first = reader.read(body, Width::Four, ids_of(""));
    put_shares(out, &first);
    out.put(" ");
    put_shares_by(out, reader, body);
}

pub(crate) fn shares_read_twice(out: &mut Line, words: &[&str]) {
    let body = bytes_at(out.alloc, words, 1);
    let mut reader = UpdateReader::new(out.alloc);
    put_twice(out, &mut reader, body.as_slice());
}

fn put_fit(out: &mut Line, framed: &FramedUpdate<'_>, has_ids: bool, text: &str) {
    if fits_family(framed, Family::V4, has_ids) {
        out.put(text);
    }
}

// Which lists of IPv4 fit, without path identifiers and with them, and what the frame contains.
fn put_framed(out: &mut Line, framed: &FramedUpdate<'_>, ids: IdUse) {
    put_fit(out, framed, false, "bare ");
    put_fit(out, framed, true, "identified ");
    match contained_routes(out.alloc, framed, ids) {
        Ok(routes) => put_list(out, "-", &routes),
        Err(_) => out.fail(),
    }
}

fn put_frame(out: &mut Line, body: &[u8], ids: IdUse) {
    match frame_update(body) {
        Some(framed) => put_framed(out, &framed, ids),
        None => out.put("none"),
    }
}

pub(crate) fn framed(out: &mut Line, words: &[&str]) {
    let body = bytes_at(out.alloc, words, 2);
    put_frame(out, body.as_slice(), ids_of(at(words, 1)));
}

// The family of an AFI and a SAFI, in hexadecimal.
pub(crate) fn family(out: &mut Line, words: &[&str]) {
    let codes = bytes_at(out.alloc, words, 1);
    if codes.len() != 3 {
        return out.put("no family");
    }
    let afi = u16::from_be_bytes([codes[0], codes[1]]);
    match unicast_family(afi, codes[2]) {
        Some(Family::V4) => out.put("4"),
        Some(Family::V6) => out.put("6"),
        None => out.put("none"),
    }
}

// The last item of a list, and how many are left without it.
fn put_last(out: &mut Line, list: &mut NlriList) {
    if let Some(nlri) = list.pop() {
        out.put_nlri(&nlri);
    }
    let left = list.as_slice().len();
    out.show(" ", &left);
}

// Of the prefix without a path identifier, and with the identifier 7.
fn put_last_of_two(out: &mut Line, prefix: Prefix) {
    let nlris = [
        Nlri { prefix, id: None },
        Nlri {
            prefix,
            id: Some(7),
        },
    ];
    match NlriList::from_slice(out.alloc, &nlris) {
        Ok(mut list) => put_last(out, &mut list),
        Err(_) => out.fail(),
    }
}

pub(crate) fn last(out: &mut Line, words: &[&str]) {
    match prefix_at(words, 1) {
        Some(prefix) => put_last_of_two(out, prefix),
        None => out.put("no prefix"),
    }
}
