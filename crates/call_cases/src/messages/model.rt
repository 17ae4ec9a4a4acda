//! The plain model. An effect is words with commas between them; `-` is no path identifier.
ghost use Rattle.std.specs.Prelude.{◌≡◌, ◌≢◌, ◌==◌, length, if◌then◌else◌};

use super::words::{addr_at, bytes_at, prefix_at};
use crate::line::{Line, at, behind, number_at, octet_at};
use bmp_frames::parse_view;
use ip_prefix::{Addr, parse_number};
use plain_model::{Address, Effect, Meaning, Peer, Route, Row, RowKey, rows, walk};
use std::alloc::Global;

/// A meaning in which each message means its type, but a Route Monitoring Message means nothing after a
/// Peer Up Notification of 160 bytes, as one whose OPENs agree on path identifiers.
struct Types;

impl Meaning for Types {
    type State = usize;

    type Message = u8;

    ghost means = { λ _ state kind body m t. (kind ≡ 0 → state ≢ 160) × (m ≡ kind) × (t ≡ (if kind == 3 then length body else state)) };

    fn judge(&self, state: &usize, kind: u8, body: &[u8]) -> Option<(u8, usize)> {
        if kind == 0 {
            if *state == 160 {
                return None;
            }
        }
        let next = if kind == 3 { body.len() } else { *state };
        Some((kind, next))
    }
}

// The types of the messages of a stream, the offset and the end.
fn put_walk(out: &mut Line, stream: &[u8]) {
    match walk(out.alloc, &Types, 0, stream) {
        Ok(walked) => {
            out.show("", &walked.messages.as_slice());
            out.show(" ", &walked.offset);
            out.show(" ", &walked.end);
        }
        Err(_) => out.fail(),
    }
}

pub(crate) fn model_walk(out: &mut Line, words: &[&str]) {
    let stream = bytes_at(out.alloc, words, 1);
    put_walk(out, stream.as_slice());
}

fn address_of(addr: Addr) -> Address {
    Address {
        family: addr.family(),
        octets: addr.octets(),
    }
}

// The peer of the first three words: type, distinguisher and address.
fn peer_of(words: &[&str]) -> Option<Peer> {
    match addr_at(words, 2) {
        Some(addr) => Some(Peer {
            kind: octet_at(words, 0),
            distinguisher: number_at(words, 1) as u64,
            address: address_of(addr),
        }),
        None => None,
    }
}

// The place of a route of the peer: view, prefix and path identifier.
fn place_of(peer: Peer, words: &[&str]) -> Option<RowKey> {
    match (parse_view(at(words, 4).as_bytes()), prefix_at(words, 5)) {
        (Some(view), Some(prefix)) => Some(RowKey {
            peer,
            view,
            address: address_of(prefix.addr()),
            bits: prefix.bits(),
            id: parse_number(at(words, 6).as_bytes()),
        }),
        _ => None,
    }
}

fn of_route(peer: Peer, words: &[&str]) -> Effect {
    match place_of(peer, words) {
        Some(row_key) => {
            if at(words, 3) == "announce" {
                let origin = number_at(words, 7);
                Effect::Announce(Row {
                    row_key,
                    route: Route { origin },
                })
            } else {
                Effect::Withdraw(row_key)
            }
        }
        None => Effect::Passed,
    }
}

// What the words do to a peer.
fn of_peer(peer: Peer, words: &[&str]) -> Effect {
    match at(words, 3) {
        "up" => Effect::Up {
            peer,
            asn: number_at(words, 4),
        },
        "down" => Effect::Down {
            peer,
            reason: octet_at(words, 4),
        },
        _ => of_route(peer, words),
    }
}

fn effect_of(words: &[&str]) -> Effect {
    match peer_of(words) {
        Some(peer) => of_peer(peer, words),
        None => Effect::Passed,
    }
}

// Puts the effect of a text.
fn put_effect(alloc: Global, effects: &mut Vec<Effect>, text: &str) -> bool {
    match text.split(',').collect::<Vec<&str>>(alloc) {
        Ok(words) => effects.push(effect_of(words.as_slice())).is_ok(),
        Err(_) => false,
    }
}

fn put_key(out: &mut Line, key: &RowKey) {
    out.show("", &key.peer.kind);
    out.show(" ", &key.peer.distinguisher);
    out.show(" ", &key.peer.address.octets);
    out.show(" ", &key.view);
    out.show(" ", &key.address.octets);
    out.show(" ", &key.bits);
    out.show(" ", &key.id);
}

fn put_row(out: &mut Line, row: &Row) {
    put_key(out, &row.row_key);
    out.show(" ", &row.route.origin);
    out.put(";");
}

// The rows that the effects leave, in the order of a reply.
fn put_rows(out: &mut Line, effects: &[Effect]) {
    match rows(out.alloc, effects) {
        Ok(rows) => {
            for row in rows.as_slice() {
                put_row(out, row);
            }
        }
        Err(_) => out.fail(),
    }
}

// Puts the effects of these texts; false where there is no memory.
fn put_effects(alloc: Global, effects: &mut Vec<Effect>, texts: &[&str]) -> bool {
    let mut is_put = true;
    for text in texts {
        is_put = put_effect(alloc, effects, text) && is_put;
    }
    is_put
}

pub(crate) fn model_rows(out: &mut Line, words: &[&str]) {
    let mut effects = Vec::new(out.alloc);
    if !put_effects(out.alloc, &mut effects, behind(words, 1)) {
        out.fail();
    }
    put_rows(out, effects.as_slice());
}
