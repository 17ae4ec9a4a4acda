//! Messages with routes, written as they were read.
use super::words::bytes_at;
use crate::line::Line;
use bgp_update::NlriList;
use bmp_frames::{PeerKey, View};
use bmp_message::Reading;
use bmp_writer::{can_routes, put_routes};
use path_attrs::Attrs;
use rib_model::{Effect, Entry};
use wire_io::{ByteList, NoMemory};

// Writes the bytes of a message that was written.
pub(crate) fn put_written(out: &mut Line, message: &ByteList, written: Result<(), NoMemory>) {
    match written {
        Ok(()) => out.put_hex(message.as_slice()),
        Err(_) => out.fail(),
    }
}

// Writes the message, where it can carry the routes.
fn put(
    out: &mut Line,
    (key, view): (&PeerKey, View),
    withdrawn: &NlriList,
    announced: &NlriList,
    attrs: &Attrs,
) {
    let mut message = ByteList::new(out.alloc);
    if can_routes(key, view, withdrawn, announced, attrs) {
        let written = put_routes(&mut message, key, view, withdrawn, announced, attrs);
        put_written(out, &message, written);
    } else {
        out.put("can't be written");
    }
}

// Writes the routes of one effect, after these withdrawals.
fn put_behind(out: &mut Line, withdrawn: &NlriList, effect: &Effect) {
    match effect {
        Effect::Announce {
            key,
            view,
            nlris,
            route,
        } => put(out, (key, *view), withdrawn, nlris, &**route),
        _ => out.put("no routes"),
    }
}

fn put_withdrawn(out: &mut Line, key: &PeerKey, view: View, withdrawn: &NlriList) {
    let none = NlriList::new(out.alloc);
    let attrs = Attrs::none(out.alloc);
    put(out, (key, view), withdrawn, &none, &attrs);
}

fn put_announced(out: &mut Line, effect: &Effect) {
    let none = NlriList::new(out.alloc);
    put_behind(out, &none, effect);
}

fn put_one(out: &mut Line, effect: &Effect) {
    match effect {
        Effect::Withdraw { key, view, nlris } => put_withdrawn(out, key, *view, nlris),
        _ => put_announced(out, effect),
    }
}

fn put_two(out: &mut Line, first: &Effect, second: &Effect) {
    match first {
        Effect::Withdraw { nlris, .. } => put_behind(out, nlris, second),
        _ => out.put("no routes"),
    }
}

fn put_effects(out: &mut Line, effects: &[Effect]) {
    match effects.len() {
        1 => put_one(out, &effects[0]),
        2 => put_two(out, &effects[0], &effects[1]),
        _ => out.put("no routes"),
    }
}

fn put_entry(out: &mut Line, entry: &Entry) {
    match entry {
        Entry::Message { effects, .. } => put_effects(out, effects.as_slice()),
        _ => out.put("no message"),
    }
}

// Reads a message with routes, and writes what it told.
fn put_read(out: &mut Line, reading: &mut Reading, message: &[u8]) {
    if message.len() < 6 || message.len() > 1000 {
        return out.put("no message");
    }
    match reading.entry(0, &message[6..]) {
        Ok(entry) => put_entry(out, &entry),
        Err(fault) => out.show("", &fault),
    }
}

// Whether a message is a Peer Up that can be read.
fn is_up(reading: &mut Reading, message: &[u8]) -> bool {
    message.len() >= 6 && message.len() <= 1000 && reading.entry(3, &message[6..]).is_ok()
}

// The same of a message of a peer that is up.
fn put_both(out: &mut Line, up: &[u8], message: &[u8]) {
    let mut reading = Reading::new(out.alloc);
    if is_up(&mut reading, up) {
        put_read(out, &mut reading, message);
    } else {
        out.put("no Peer Up");
    }
}

pub(crate) fn routes(out: &mut Line, words: &[&str]) {
    let up = bytes_at(out.alloc, words, 1);
    let message = bytes_at(out.alloc, words, 2);
    put_both(out, up.as_slice(), message.as_slice());
}
