//! The line of a router with all that its last connection told, of lane 0.
use super::routes::bytes_at;
use super::statistics::counts_of;
use super::words::{long_at, short_at};
use crate::line::{at, behind, number_at, octet_at};
use bmp_specs::Cause;
use ip_prefix::{Endpoint, parse_addr};
use reply_text::{ConnectionState, Failed, put_full_router};
use rib_model::{Effect, EffectList, FamilyCode, Head, Opening};
use stats_book::{Connection, Passed};
use std::alloc::Global;
use wire_io::MemSink;

// The time that a word is; of any other word none.
fn time_at(words: &[&str], place: usize) -> Option<u64> {
    at(words, place).parse::<u64>().ok()
}

// The address and the port of two words; where the first is no address, none.
fn endpoint_of(words: &[&str]) -> Option<Endpoint> {
    match parse_addr(at(words, 0).as_bytes()) {
        Some(address) => Some(Endpoint {
            address,
            port: short_at(words, 1),
        }),
        None => None,
    }
}

// The family of an AFI and a SAFI, where there are these words.
fn family_of(words: &[&str]) -> Option<FamilyCode> {
    if at(words, 0) == "" {
        return None;
    }
    Some(FamilyCode {
        afi: short_at(words, 0),
        safi: octet_at(words, 1),
    })
}

// Passes over so many parts of a message of a type, of which the MP_REACH_NLRI is of a family.
fn pass_parts(alloc: Global, passed: &mut Passed, words: &[&str]) -> bool {
    let head = Head {
        kind: octet_at(words, 0),
        length: 0,
        peer: None,
        reach: family_of(behind(words, 2)),
        unreach: None,
    };
    let mut effects = EffectList::new(alloc);
    effects.push(Effect::Unread(number_at(words, 1))).is_ok()
        && passed.take(&head, effects.as_slice()).is_ok()
}

// The same of a text.
fn pass(alloc: Global, passed: &mut Passed, text: &str) -> bool {
    match text.split(',').collect::<Vec<&str>>(alloc) {
        Ok(words) => pass_parts(alloc, passed, words.as_slice()),
        Err(_) => false,
    }
}

fn pass_all(alloc: Global, passed: &mut Passed, texts: &[&str]) -> bool {
    let mut is_well = true;
    for text in texts {
        is_well = is_well && pass(alloc, passed, text);
    }
    is_well
}

fn state_of(word: &str) -> ConnectionState {
    match word {
        "live" => ConnectionState::Live,
        "idle" => ConnectionState::Idle,
        _ => ConnectionState::Closed(Cause::Ended),
    }
}

fn put_told(
    sink: &mut MemSink,
    name: &[u8],
    descr: &[u8],
    passed: &Passed,
    words: &[&str],
) -> Result<(), Failed> {
    let connection = Connection {
        came: Opening {
            from: endpoint_of(behind(words, 3)),
            since: time_at(words, 5),
        },
        until: time_at(words, 6),
        peers: long_at(words, 7),
        counts: counts_of(behind(words, 8)),
        name,
        descr,
        passed,
    };
    put_full_router(sink, 0, state_of(at(words, 2)), &connection)
}

// The words are the state, the address and the port, the times of the opening and of the closing, the number of peers that
// are up, the six counts, the name and the description in hexadecimal, and what was passed over, message by message.
pub(crate) fn put_connection(
    alloc: Global,
    sink: &mut MemSink,
    words: &[&str],
) -> Result<(), Failed> {
    let name = bytes_at(alloc, words, 14);
    let descr = bytes_at(alloc, words, 15);
    let mut passed = Passed::none(alloc);
    if !pass_all(alloc, &mut passed, behind(words, 16)) {
        return Err(Failed);
    }
    put_told(sink, name.as_slice(), descr.as_slice(), &passed, words)
}
