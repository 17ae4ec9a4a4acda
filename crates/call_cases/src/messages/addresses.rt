//! Addresses, prefixes and numbers, as texts and on the wire. `-` is what isn't one.
use super::words::{addr_at, bytes_at, prefix_at};
use crate::line::{Line, at, family_at, octet_at};
use ip_prefix::{Prefix, parse_number};

pub(crate) fn address(out: &mut Line, words: &[&str]) {
    match addr_at(words, 1) {
        Some(addr) => out.put_short(&addr.text()),
        None => out.put("-"),
    }
}

// The prefix, where there is one.
fn put_prefix(out: &mut Line, prefix: &Option<Prefix>) {
    match prefix {
        Some(prefix) => out.put_short(&prefix.text()),
        None => out.put("-"),
    }
}

pub(crate) fn prefix(out: &mut Line, words: &[&str]) {
    put_prefix(out, &prefix_at(words, 1));
}

pub(crate) fn number(out: &mut Line, words: &[&str]) {
    out.show("", &parse_number(at(words, 1).as_bytes()));
}

// So many bits of an address.
pub(crate) fn prefix_of(out: &mut Line, words: &[&str]) {
    let prefix = match addr_at(words, 1) {
        Some(addr) => Prefix::new(addr, octet_at(words, 2)),
        None => None,
    };
    put_prefix(out, &prefix);
}

fn put_read(out: &mut Line, read: &Option<(Prefix, usize)>) {
    match read {
        Some((prefix, size)) => {
            out.put_short(&prefix.text());
            out.show(" ", size);
        }
        None => out.put("-"),
    }
}

// The prefix at the front, and how many bytes it takes.
pub(crate) fn from_wire(out: &mut Line, words: &[&str]) {
    let bytes = bytes_at(out.alloc, words, 2);
    put_read(
        out,
        &Prefix::from_wire(family_at(words, 1), bytes.as_slice()),
    );
}

pub(crate) fn holds(out: &mut Line, words: &[&str]) {
    let holds = match (prefix_at(words, 1), addr_at(words, 2)) {
        (Some(prefix), Some(addr)) => Some(prefix.holds(&addr)),
        _ => None,
    };
    out.put_truth(holds);
}

pub(crate) fn contains(out: &mut Line, words: &[&str]) {
    let contains = match (prefix_at(words, 1), prefix_at(words, 2)) {
        (Some(one), Some(other)) => Some(one.contains(&other)),
        _ => None,
    };
    out.put_truth(contains);
}
