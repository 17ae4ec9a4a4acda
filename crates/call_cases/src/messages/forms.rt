//! Which routes a message can carry. A prefix has its path identifier after it; `-` is no prefix, and no identifier.
use super::words::nlri_at;
use crate::line::{Line, at, number_at, octet_at};
use as_path::Segment;
use bgp_update::NlriList;
use bmp_frames::{parse_key, parse_view};
use bmp_specs::SegmentKind;
use bmp_writer::can_routes;
use ip_prefix::Nlri;
use path_attrs::{AsPath, Attrs, Numbers, Other, OtherList};
use std::alloc::Global;
use wire_io::ByteList;

// Each of these functions that put something tells whether there was memory for it.

// Puts the prefix, if there is one.
fn put_nlri(list: &mut NlriList, nlri: &Option<Nlri>) -> bool {
    match nlri {
        Some(nlri) => list.push(*nlri).is_ok(),
        None => true,
    }
}

// Puts an attribute of this type that is kept as it came, so many times.
fn put_others(alloc: Global, others: &mut OtherList, code: u8, flags: u8, times: u32) -> bool {
    let mut is_put = true;
    for _ in 0..times {
        let value = ByteList::new(alloc);
        is_put = others.push(Other { flags, code, value }).is_ok() && is_put;
    }
    is_put
}

// Puts so many numbers.
fn put_numbers(numbers: &mut Numbers, count: u32) -> bool {
    let mut is_put = true;
    for number in 0..count {
        is_put = numbers.push(number).is_ok() && is_put;
    }
    is_put
}

// Puts a path of one segment of so many numbers.
fn put_path(alloc: Global, attrs: &mut Attrs, count: u32) -> bool {
    let kind = SegmentKind::Sequence;
    let mut numbers = Numbers::new(alloc);
    let is_filled = put_numbers(&mut numbers, count);
    let mut path = AsPath::new(alloc);
    let is_put = path.push(Segment { kind, numbers }).is_ok();
    attrs.path = Some(path);
    is_filled && is_put
}

// Puts so many bytes.
fn put_bytes(bytes: &mut ByteList, count: u32) -> bool {
    let mut is_put = true;
    for _ in 0..count {
        is_put = bytes.extend(&[1]).is_ok() && is_put;
    }
    is_put
}

// Puts a next hop of so many bytes.
fn put_hop(alloc: Global, attrs: &mut Attrs, count: u32) -> bool {
    let mut hop = ByteList::new(alloc);
    let is_put = put_bytes(&mut hop, count);
    attrs.hop = Some(hop);
    is_put
}

// Puts the attributes that the words name; by any other words none.
fn put_attrs(alloc: Global, attrs: &mut Attrs, words: &[&str]) -> bool {
    match at(words, 7) {
        "path" => put_path(alloc, attrs, number_at(words, 8)),
        "hop" => put_hop(alloc, attrs, number_at(words, 8)),
        "others" => {
            let (code, flags, times) = (
                octet_at(words, 8),
                octet_at(words, 9),
                number_at(words, 10),
            );
            put_others(alloc, &mut attrs.others, code, flags, times)
        }
        _ => true,
    }
}

// Whether a message of this peer and view can tell of these prefixes, withdrawn and announced, with the attributes.
fn put_can(
    out: &mut Line,
    words: &[&str],
    withdrawn: &NlriList,
    announced: &NlriList,
    attrs: &Attrs,
) {
    let can = match (
        parse_key(at(words, 1).as_bytes()),
        parse_view(at(words, 2).as_bytes()),
    ) {
        (Some(key), Some(view)) => Some(can_routes(&key, view, withdrawn, announced, attrs)),
        _ => None,
    };
    out.put_truth(can);
}

fn put_all(
    alloc: Global,
    words: &[&str],
    withdrawn: &mut NlriList,
    announced: &mut NlriList,
    attrs: &mut Attrs,
) -> bool {
    put_nlri(withdrawn, &nlri_at(words, 3, 4))
        && put_nlri(announced, &nlri_at(words, 5, 6))
        && put_attrs(alloc, attrs, words)
}

pub(crate) fn can(out: &mut Line, words: &[&str]) {
    let mut withdrawn = NlriList::new(out.alloc);
    let mut announced = NlriList::new(out.alloc);
    let mut attrs = Attrs::none(out.alloc);
    if !put_all(out.alloc, words, &mut withdrawn, &mut announced, &mut attrs) {
        out.fail();
    }
    put_can(out, words, &withdrawn, &announced, &attrs);
}
