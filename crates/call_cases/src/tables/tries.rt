//! The longest prefix of a trie that holds an address (RFC 1812, section 5.2.4.3).

ghost use Rattle.std.specs.Prelude.{◌≡◌, ◌<◌};

use crate::line::{Line, at, behind, family_at};
use ip_prefix::{Addr, Prefix, parse_addr, parse_prefix};
use prefix_trie::{Steps, Trie};
use std::marker::Brand;
use std::sync::ledger::{Blank, Ledger};

// Sets the value of a prefix of the family.
fn insert(trie: &mut Trie<u8>, text: &str, value: u8) -> bool {
    match parse_prefix(text.as_bytes()) {
        Some(prefix) => {
            prefix.addr().family() == trie.family() && trie.insert(prefix, value).is_ok()
        }
        None => false,
    }
}

// Sets the values 1, 2, 3 and so on of prefixes.
fn insert_all(trie: &mut Trie<u8>, prefixes: &[&str]) {
    let mut value = 0u8;
    for text in prefixes {
        value = value.saturating_add(1);
        let _is_set = insert(trie, text, value);
    }
}

fn taken_out(trie: &mut Trie<u8>, prefix: &Prefix) -> Option<(Option<u8>, bool)> {
    if prefix.addr().family() == trie.family() {
        let removed = trie.remove(prefix);
        Some((removed, trie.get(prefix).is_some()))
    } else {
        None
    }
}

// Takes out a prefix of the family, and tells its value and whether it is still there.
fn remove(trie: &mut Trie<u8>, text: &str) -> Option<(Option<u8>, bool)> {
    match parse_prefix(text.as_bytes()) {
        Some(prefix) => taken_out(trie, &prefix),
        None => None,
    }
}

fn put_longest<L: Ledger>(out: &mut Line, trie: &Trie<u8>, addr: &Addr, steps: &mut Steps<L>)
    requires { addr.now.family ≡ trie.now.family }
{
    match trie.longest(addr, steps) {
        Some((prefix, value)) => {
            out.put_short(&prefix.text());
            out.show(" ", value);
        }
        None => out.put("-"),
    }
}

// The pair that an address of the family finds.
fn put_found<L: Ledger>(out: &mut Line, trie: &Trie<u8>, text: &str, steps: &mut Steps<L>) {
    match parse_addr(text.as_bytes()) {
        Some(addr) => {
            if addr.family() == trie.family() {
                put_longest(out, trie, &addr, steps);
            } else {
                out.put("-");
            }
        }
        None => out.put("-"),
    }
}

// The value of a prefix that is taken out and whether it is still there, how many there are then, and what an address
// finds.
fn put_trie<L: Ledger>(out: &mut Line, trie: &mut Trie<u8>, words: &[&str], steps: &mut Steps<L>) {
    insert_all(trie, behind(words, 4));
    out.show("", &remove(trie, at(words, 3)));
    out.show(" ", &trie.len());
    out.put(" ");
    put_found(out, trie, at(words, 2), steps);
}

fn longest<L: Ledger>(out: &mut Line, words: &[&str], blank: Blank)
    requires name { blank.name ≡ L.name }
    requires parts { blank.parts ≡ L.parts }
    requires some { 0 < blank.parts }
{
    let mut steps = Steps::<L>::new(blank);
    let mut trie = Trie::new(out.alloc, family_at(words, 1));
    put_trie(out, &mut trie, words, &mut steps);
}

pub(crate) fn trie(out: &mut Line, words: &[&str]) {
    longest::<Brand>(out, words, Blank::new(1));
}
