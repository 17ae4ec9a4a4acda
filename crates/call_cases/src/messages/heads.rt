//! The heads of messages.
use super::words::bytes_at;
use crate::line::Line;
use bmp_message::Reading;
use ip_prefix::Addr;
use rib_model::{Entry, FamilyCode, Head, PeerHead};

// What a Per-Peer Header tells: the AS, the BGP ID and the time; `-` where there is none.
fn put_peer(out: &mut Line, peer: &Option<PeerHead>) {
    match peer {
        Some(peer) => {
            out.show(" ", &peer.asn);
            out.put(" ");
            out.put_short(&Addr::v4(peer.identifier).text());
            out.show(" ", &peer.seconds);
            out.show(" ", &peer.micros);
        }
        None => out.put(" -"),
    }
}

// The AFI and the SAFI; `-` where there are none.
fn put_family(out: &mut Line, family: &Option<FamilyCode>) {
    match family {
        Some(family) => {
            out.show(" ", &family.afi);
            out.show("/", &family.safi);
        }
        None => out.put(" -"),
    }
}

fn put_head(out: &mut Line, head: &Head) {
    out.show("", &head.kind);
    out.show(" ", &head.length);
    put_peer(out, &head.peer);
    put_family(out, &head.reach);
    put_family(out, &head.unreach);
    out.put(";");
}

fn put_entry(out: &mut Line, entry: &Entry) {
    match entry {
        Entry::Message { head, .. } => put_head(out, head),
        _ => out.put("no message"),
    }
}

// Reads a message, and writes its head.
fn put_read(out: &mut Line, reading: &mut Reading, message: &[u8]) {
    if message.len() < 6 || message.len() > 1000 {
        return out.put("no message");
    }
    match reading.entry(message[5], &message[6..]) {
        Ok(entry) => put_entry(out, &entry),
        Err(fault) => out.show("", &fault),
    }
}

pub(crate) fn head(out: &mut Line, words: &[&str]) {
    let mut reading = Reading::new(out.alloc);
    for place in 1..words.len() {
        let message = bytes_at(out.alloc, words, place);
        put_read(out, &mut reading, message.as_slice());
    }
}
