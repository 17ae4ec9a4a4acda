ghost use Rattle.std.specs.Prelude.{◌≡◌, ◌↔◌, ◌<◌, ◌^◌, List, length, IsTrue, IfSome, IfNone};
ghost use Rattle.std.specs.Option.{option_map};
ghost use Rattle.bmp_specs.specs.Update.{AreMpNlri, IsUpdate};
ghost use Rattle.bmp_specs.specs.Values.{NlriValue, UpdateValue};
ghost use Rattle.bgp_update.specs.Found.{HasFound};
ghost use Rattle.path_attrs.specs.Judged.{mp_value};

use crate::body::{Fields, split_body};
use crate::items::uses_ids;
use crate::multi::unicast_family;
use crate::sizes::item_count;
use bmp_specs::{IdUse, Width};
use ip_prefix::Family;
use path_attrs::{Judged, MpSlice, judge_attrs};

// What judging the body of an UPDATE finds: its fields, its attributes where they stand, and how many prefixes each
// list of the UPDATE has.
#[derive(Clone, Copy)]
pub(crate) struct Found<'a> {
    pub(crate) fields: Fields<'a>,
    pub(crate) judged: Judged<'a>,
    pub(crate) withdrawn: usize,
    pub(crate) plain: usize,
    pub(crate) multi: usize,
}

// How many prefixes the attribute has. One that isn't there, or is of a family that isn't read, has none; `None`
// exactly where those of one that is read aren't prefixes.
fn multi_count(ids: IdUse, part: Option<MpSlice<'_>>) -> Option<usize>
    ensures some { IfSome result (λ count. (ns : List NlriValue) × AreMpNlri ids (option_map mp_value part.entry) ns × (count ≡ length ns)) }
    ensures room { IfSome result (λ count. count < 2 ^ 63) }
    ensures none { IfNone result ((ns : List NlriValue) → AreMpNlri ids (option_map mp_value part.entry) ns → ⊥) }
{
    match part {
        None => Some(0),
        Some(part) => match unicast_family(part.afi, part.safi) {
            None => Some(0),
            Some(family) => item_count(family, uses_ids(ids, family), part.prefixes),
        },
    }
}

// Judges the body (RFC 4271, section 4.3), and finds what `make_update` makes an UPDATE of. `None` only where the
// body isn't that of an UPDATE message.
#[inline(always)]
pub(crate) fn find_update(body: &[u8], width: Width, ids: IdUse) -> Option<Found<'_>>
    ensures some { IfSome result (HasFound width ids body.now) }
    ensures none { IfNone result ((u : UpdateValue) → IsUpdate width ids body.now u → ⊥) }
{
    let Some(fields) = split_body(body) else {
        return None;
    };
    let Some(judged) = judge_attrs(fields.attributes, width) else {
        return None;
    };
    let Some(gone) = item_count(Family::V4, ids.v4, fields.withdrawn) else {
        return None;
    };
    let Some(plain) = item_count(Family::V4, ids.v4, fields.nlri) else {
        return None;
    };
    let Some(lost) = multi_count(ids, judged.unreach) else {
        return None;
    };
    let Some(multi) = multi_count(ids, judged.reach) else {
        return None;
    };
    Some(Found {
        fields,
        judged,
        withdrawn: gone + lost,
        plain,
        multi,
    })
}

/// Whether the bytes, all of them, are the body of an UPDATE message (RFC 4271, section 4.3), with AS
/// numbers of the width and path identifiers where `ids` says so (RFC 7911, section 3).
///
/// Takes no memory. The header of each attribute, that of each segment of the AS path and the length octet
/// of each prefix are read once; nothing is copied.
pub fn judge_update(body: &[u8], width: Width, ids: IdUse) -> bool
    ensures { IsTrue result ↔ ((u : UpdateValue) × IsUpdate width ids body.now u) }
{
    match find_update(body, width, ids) {
        Some(_) => true,
        None => false,
    }
}
