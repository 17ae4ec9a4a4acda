//! Messages that are written: Initiations, End-of-RIB markers, Peer Downs, and Peer Ups as they were read.
use super::routes::put_written;
use super::words::bytes_at;
use crate::line::{Line, at, octet_at};
use bmp_frames::{LOC_RIB, PeerKey, View, parse_key};
use bmp_message::Reading;
use bmp_writer::{can_peer_up, put_initiation, put_mark, put_peer_down, put_peer_up};
use ip_prefix::{Addr, Family};
use rib_model::{Effect, Entry};
use wire_io::{ByteList, NoMemory};

// Writes the Initiation of a name and a description.
fn put_told(message: &mut ByteList, name: &[u8], descr: &[u8]) -> Result<(), NoMemory> {
    if name.len() > 1000 || descr.len() > 1000 {
        return Err(NoMemory);
    }
    put_initiation(message, name, descr)
}

pub(crate) fn initiation(out: &mut Line, words: &[&str]) {
    let mut message = ByteList::new(out.alloc);
    let written = put_told(
        &mut message,
        at(words, 1).as_bytes(),
        at(words, 2).as_bytes(),
    );
    put_written(out, &message, written);
}

// Writes the End-of-RIB marker of IPv4 in the Adj-RIB-Out after policy of the peer 192.0.2.1, or that of IPv6 in its
// Adj-RIB-In after policy.
fn put_mark_of(message: &mut ByteList, is_out: bool) -> Result<(), NoMemory> {
    let peer = PeerKey {
        kind: 0,
        distinguisher: 0,
        address: Addr::v4([192, 0, 2, 1]),
    };
    if is_out {
        put_mark(message, &peer, View::OutPost, Family::V4)
    } else {
        put_mark(message, &peer, View::InPost, Family::V6)
    }
}

pub(crate) fn mark(out: &mut Line, words: &[&str]) {
    let mut message = ByteList::new(out.alloc);
    let written = put_mark_of(&mut message, at(words, 1) == "adj-out-post");
    put_written(out, &message, written);
}

fn put_down(out: &mut Line, key: &PeerKey, reason: u8) {
    if key.kind > LOC_RIB || key.kind == LOC_RIB && key.address.family() != Family::V4 {
        return out.put("no such peer");
    }
    let mut message = ByteList::new(out.alloc);
    let written = put_peer_down(&mut message, key, reason);
    put_written(out, &message, written);
}

pub(crate) fn down(out: &mut Line, words: &[&str]) {
    match parse_key(at(words, 1).as_bytes()) {
        Some(key) => put_down(out, &key, octet_at(words, 2)),
        None => out.put("no peer"),
    }
}

// Writes what a Peer Up told, as a message.
fn put_up(out: &mut Line, effect: &Effect) {
    let Effect::Up { key, info } = effect else {
        return out.put("no Peer Up");
    };
    if !can_peer_up(key, info) {
        return out.put("can't be written");
    }
    let mut message = ByteList::new(out.alloc);
    let written = put_peer_up(&mut message, key, info);
    put_written(out, &message, written);
}

fn put_ups(out: &mut Line, entry: &Entry) {
    let Entry::Message { effects, .. } = entry else {
        return out.put("no message");
    };
    for effect in effects.as_slice() {
        put_up(out, effect);
    }
}

// Reads a Peer Up Notification, and writes what it told.
fn put_read(out: &mut Line, message: &[u8]) {
    if message.len() < 6 || message.len() > 1000 {
        return out.put("no message");
    }
    let mut reading = Reading::new(out.alloc);
    match reading.entry(3, &message[6..]) {
        Ok(entry) => put_ups(out, &entry),
        Err(fault) => out.show("", &fault),
    }
}

pub(crate) fn up(out: &mut Line, words: &[&str]) {
    let message = bytes_at(out.alloc, words, 1);
    put_read(out, message.as_slice());
}
