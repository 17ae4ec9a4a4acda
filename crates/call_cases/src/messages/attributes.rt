//! Path attributes.
use super::words::{bytes_at, width_at};
use crate::line::Line;
use path_attrs::{
    AttrsRead, FramedAttrs, Judged, MpPart, MpSlice, Width, fits_width, frame_attrs, judge_attrs,
    read_attrs,
};
use wire_io::BodyFault;

// Whether what is lent of a multiprotocol attribute is what is read of it.
fn is_part(lent: &MpSlice<'_>, read: &MpPart) -> bool {
    lent.afi == read.afi
        && lent.safi == read.safi
        && lent.hop == read.hop.as_slice()
        && lent.prefixes == read.prefixes.as_slice()
}

fn is_read(lent: &Option<MpSlice<'_>>, read: &Option<MpPart>) -> bool {
    match (lent, read) {
        (None, None) => true,
        (Some(lent), Some(read)) => is_part(lent, read),
        _ => false,
    }
}

// What is lent of a field that is judged attributes, and whether that is what is read of it.
fn put_lent(out: &mut Line, lent: &Judged<'_>, read: &AttrsRead) {
    let same = is_read(&lent.reach, &read.reach) && is_read(&lent.unreach, &read.unreach);
    out.show("reach=", &lent.reach.is_some());
    out.show(" unreach=", &lent.unreach.is_some());
    out.show(" same=", &same);
}

fn put_both(out: &mut Line, judged: &Option<Judged<'_>>, read: &Result<AttrsRead, BodyFault>) {
    match (judged, read) {
        (Some(lent), Ok(read)) => put_lent(out, lent, read),
        (None, Err(BodyFault::Broken)) => out.put("broken"),
        _ => out.put("judged and read differ"),
    }
}

fn put_beside(out: &mut Line, judged: &Option<Judged<'_>>, width: Width, field: &[u8]) {
    let read = read_attrs(out.alloc, field, width);
    put_both(out, judged, &read);
}

// Whether the field has MP_REACH_NLRI and MP_UNREACH_NLRI, and whether they are read as they are judged.
fn judge_field(out: &mut Line, width: Width, field: &[u8]) {
    put_beside(out, &judge_attrs(field, width), width, field);
}

pub(crate) fn judge(out: &mut Line, words: &[&str]) {
    let field = bytes_at(out.alloc, words, 2);
    judge_field(out, width_at(words, 1), field.as_slice());
}

// Whether there are MP_REACH_NLRI and AS_PATH, and the prefixes of MP_UNREACH_NLRI.
fn put_framed(out: &mut Line, framed: &FramedAttrs<'_>) {
    out.show("reach=", &framed.reach.is_some());
    out.show(" path=", &framed.as_path.is_some());
    out.put(" unreach=");
    match &framed.unreach {
        Some(part) => out.put_hex(part.prefixes),
        None => out.put("-"),
    }
}

fn put_frame(out: &mut Line, field: &[u8]) {
    match frame_attrs(field) {
        Some(framed) => put_framed(out, &framed),
        None => out.put("none"),
    }
}

pub(crate) fn framed(out: &mut Line, words: &[&str]) {
    let field = bytes_at(out.alloc, words, 1);
    put_frame(out, field.as_slice());
}

pub(crate) fn fits(out: &mut Line, words: &[&str], nonzero: bool) {
    let field = bytes_at(out.alloc, words, 2);
    out.put_truth(Some(fits_width(field.as_slice(), width_at(words, 1), nonzero)));
}
