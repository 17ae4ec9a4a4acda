//! OPEN messages.
use super::words::bytes_at;
use crate::line::Line;
use bgp_open::{Open, Side, bgp_frame, path_ids, read_open};
use ip_prefix::Family;
use std::alloc::Global;
use wire_io::BodyFault;

// The OPEN of a whole BGP message.
fn read(alloc: Global, message: &[u8]) -> Result<Open, BodyFault> {
    match bgp_frame(message) {
        Some(frame) => read_open(alloc, &message[19..frame.length as usize]),
        None => Err(BodyFault::Broken),
    }
}

fn open_at(alloc: Global, words: &[&str], place: usize) -> Result<Open, BodyFault> {
    let message = bytes_at(alloc, words, place);
    read(alloc, message.as_slice())
}

// Version, AS number in two octets, hold time and identifier.
fn put_fields(out: &mut Line, open: &Open) {
    out.show("version=", &open.version);
    out.show(" as=", &open.my_as);
    out.show(" hold=", &open.hold);
    out.show(" id=", &open.identifier);
}

fn put_capabilities(out: &mut Line, open: &Open) {
    out.show(" four=", &open.four);
    out.show(" asn=", &open.asn());
    out.show(" extended=", &open.extended);
    out.show(" families=", &open.families.as_slice());
    out.show(" paths=", &open.paths.as_slice());
}

fn put_copy(out: &mut Line, open: &Open) {
    match open.copy() {
        Ok(copy) => {
            put_fields(out, &copy);
            put_capabilities(out, &copy);
        }
        Err(_) => out.fail(),
    }
}

fn put_read(out: &mut Line, read: &Result<Open, BodyFault>) {
    match read {
        Ok(open) => put_copy(out, open),
        Err(fault) => out.show("", fault),
    }
}

pub(crate) fn open(out: &mut Line, words: &[&str]) {
    let read = open_at(out.alloc, words, 1);
    put_read(out, &read);
}

fn put_use(out: &mut Line, sent: &Open, received: &Open, family: Family, side: Side) {
    let uses = path_ids(sent, received, family, side);
    out.show("", &family);
    out.show(" ", &side);
    out.show(" ", &uses);
    out.put(";");
}

fn put_ids(out: &mut Line, sent: &Open, received: &Open) {
    for family in [Family::V4, Family::V6] {
        for side in [Side::Inward, Side::Outward, Side::Local] {
            put_use(out, sent, received, family, side);
        }
    }
}

fn put_ids_with(out: &mut Line, sent: &Open, words: &[&str]) {
    match open_at(out.alloc, words, 2) {
        Ok(received) => put_ids(out, sent, &received),
        Err(fault) => out.show("", &fault),
    }
}

// In which families and on which sides the OPENs agree on path identifiers.
pub(crate) fn ids(out: &mut Line, words: &[&str]) {
    match open_at(out.alloc, words, 1) {
        Ok(sent) => put_ids_with(out, &sent, words),
        Err(fault) => out.show("", &fault),
    }
}
