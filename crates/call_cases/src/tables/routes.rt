//! Prefixes and routes by their texts.

use crate::line::at;
use ip_prefix::{Nlri, parse_number, parse_prefix};
use path_attrs::{Attrs, AttrsRead, Width, read_attrs};
use rib_model::Route;
use std::alloc::Global;
use std::sync::Arc;
use wire_io::List;

// The bytes of a word in hexadecimal; of any other word there are none.
pub(crate) fn bytes_at(alloc: Global, words: &[&str], place: usize) -> Vec<u8> {
    match hex::decode(alloc, at(words, place)) {
        Ok(bytes) => bytes,
        Err(_) => Vec::new(alloc),
    }
}

// The attributes, with the next hop of MP_REACH_NLRI where they have one.
fn with_reach(read: AttrsRead) -> Attrs {
    let AttrsRead {
        mut attrs,
        reach,
        ..
    } = read;
    if let Some(reach) = reach {
        attrs.hop = Some(reach.hop);
    }
    attrs
}

// The route with the attributes of this field of an UPDATE message, with AS numbers of four octets.
pub(crate) fn route_of(alloc: Global, field: &[u8]) -> Option<Route> {
    match read_attrs(alloc, field, Width::Four) {
        Ok(read) => Arc::new(alloc, with_reach(read)).ok(),
        Err(_) => None,
    }
}

// The route with the attributes of a word, which are hexadecimal.
pub(crate) fn route_at(alloc: Global, words: &[&str], place: usize) -> Option<Route> {
    let field = bytes_at(alloc, words, place);
    route_of(alloc, field.as_slice())
}

// A prefix, and its path identifier or `-`.
pub(crate) fn nlri_of(prefix: &str, id: &str) -> Option<Nlri> {
    match parse_prefix(prefix.as_bytes()) {
        Some(prefix) => Some(Nlri {
            prefix,
            id: parse_number(id.as_bytes()),
        }),
        None => None,
    }
}

// A prefix, and its path identifier in another word.
pub(crate) fn nlri_at(words: &[&str], place: usize, id: usize) -> Option<Nlri> {
    nlri_of(at(words, place), at(words, id))
}

// A prefix, and its path identifier where one stands after a `#`.
fn tagged(text: &str) -> Option<Nlri> {
    match text.split_once('#') {
        Some((prefix, id)) => nlri_of(prefix, id),
        None => nlri_of(text, "-"),
    }
}

// Puts the prefix of a text, so many times.
fn put_nlri(list: &mut List<Nlri>, text: &str, times: u32) -> bool {
    match tagged(text) {
        Some(nlri) => push(list, nlri, times),
        None => false,
    }
}

fn push(list: &mut List<Nlri>, nlri: Nlri, times: u32) -> bool {
    let mut is_well = true;
    for _ in 0..times {
        is_well = is_well && list.push(nlri).is_ok();
    }
    is_well
}

fn put_nlris(list: &mut List<Nlri>, text: &str, times: u32) -> bool {
    let mut is_well = true;
    for prefix in text.split('+') {
        is_well = is_well && put_nlri(list, prefix, times);
    }
    is_well
}

// The prefixes between the `+` of a text, each so many times.
pub(crate) fn nlris_of(alloc: Global, text: &str, times: u32) -> Option<List<Nlri>> {
    let mut list = List::new(alloc);
    if put_nlris(&mut list, text, times) {
        Some(list)
    } else {
        None
    }
}
