//! What the calls on messages read of a case's words.
ghost use Rattle.std.specs.Prelude.{◌≤◌, length};

use crate::line::at;
use bmp_specs::Width;
use ip_prefix::{Addr, Nlri, Prefix, parse_addr, parse_number, parse_prefix};
use std::alloc::Global;

// The bytes of a word in hexadecimal, up to 1000 of them; of any other word there are none.
pub(crate) fn bytes_at(alloc: Global, words: &[&str], place: usize) -> Vec<u8>
    ensures { length result.items ≤ 1000 }
{
    match hex::decode(alloc, at(words, place)) {
        Ok(bytes) => {
            if bytes.len() <= 1000 {
                bytes
            } else {
                Vec::new(alloc)
            }
        }
        Err(_) => Vec::new(alloc),
    }
}

// The width of AS numbers that a word names: `4`, or two octets.
pub(crate) fn width_at(words: &[&str], place: usize) -> Width {
    if at(words, place) == "4" {
        Width::Four
    } else {
        Width::Two
    }
}

pub(crate) fn addr_at(words: &[&str], place: usize) -> Option<Addr> {
    parse_addr(at(words, place).as_bytes())
}

pub(crate) fn prefix_at(words: &[&str], place: usize) -> Option<Prefix> {
    parse_prefix(at(words, place).as_bytes())
}

// A prefix, and its path identifier in another word; by any other word than a number there is no identifier.
pub(crate) fn nlri_at(words: &[&str], place: usize, id: usize) -> Option<Nlri> {
    match prefix_at(words, place) {
        Some(prefix) => Some(Nlri {
            prefix,
            id: parse_number(at(words, id).as_bytes()),
        }),
        None => None,
    }
}
