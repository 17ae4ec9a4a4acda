ghost use Rattle.std.specs.Prelude.{◌≡◌, ℕ, List, IfSome, IfNone};
ghost use Rattle.bmp_specs.specs.Values.{OtherValue};
ghost use Rattle.path_attrs.specs.Framed.{AreAt, Doubles, HasNoFrame, HasParts, HasPut, IsFrame};

use crate::codes::{AS_PATH, MP_REACH_NLRI, MP_UNREACH_NLRI};
use crate::mp::{MpSlice, slice_reach, slice_unreach};
use crate::part::{Part, read_part};

/// The frame of the attributes of an UPDATE: of its multiprotocol ones what they say, and where its AS_PATH stands. No
/// other value is judged.
#[derive(Clone, Copy)]
pub struct FramedAttrs<'a> {
    /// MP_REACH_NLRI (RFC 4760, section 3).
    pub reach: Option<MpSlice<'a>>,

    /// MP_UNREACH_NLRI (RFC 4760, section 4).
    pub unreach: Option<MpSlice<'a>>,

    /// The value of the first AS_PATH (RFC 4271, section 5.1.2).
    pub as_path: Option<&'a [u8]>,
}

// The values of three types, where the attributes so far have them.
#[derive(Clone, Copy)]
pub(crate) struct Places<'a> {
    pub(crate) reach: Option<&'a [u8]>,
    pub(crate) unreach: Option<&'a [u8]>,
    pub(crate) as_path: Option<&'a [u8]>,
}

// The places with one attribute more. `None` exactly where it is a second multiprotocol one of its type.
fn with_part<'a>(places: Places<'a>, part: Part<'a>) -> Option<Places<'a>>
    ensures some { IfSome result (HasPut places.entry part.entry) }
    ensures none { IfNone result (Doubles places.entry part.entry) }
{
    match part.code {
        MP_REACH_NLRI => match places.reach {
            Some(_) => None,
            None => Some(Places {
                reach: Some(part.value),
                unreach: places.unreach,
                as_path: places.as_path,
            }),
        },
        MP_UNREACH_NLRI => match places.unreach {
            Some(_) => None,
            None => Some(Places {
                reach: places.reach,
                unreach: Some(part.value),
                as_path: places.as_path,
            }),
        },
        AS_PATH => match places.as_path {
            Some(_) => Some(places),
            None => Some(Places {
                reach: places.reach,
                unreach: places.unreach,
                as_path: Some(part.value),
            }),
        },
        _ => Some(places),
    }
}

// Reads the header of each attribute of the field, once (RFC 4271, section 4.3).
fn find_places(field: &[u8]) -> Option<Places<'_>>
    ensures some { IfSome result (λ places. (parts : List OtherValue) × HasParts field.now parts × AreAt parts places) }
    ensures none { IfNone result ((parts : List OtherValue) → HasParts field.now parts → ⊥) }
{
    let mut places = Places {
        reach: None,
        unreach: None,
        as_path: None,
    };
    let mut rest = field;
    while !rest.is_empty() {
        let Some(part) = read_part(rest) else {
            return None;
        };
        let Some(next) = with_part(places, part) else {
            return None;
        };
        places = next;
        rest = part.rest;
    }
    Some(places)
}

/// Finds the frame of the "Path Attributes" of an UPDATE message (RFC 4271, section 4.3), by which its routes can be
/// withdrawn whatever the attributes say (RFC 7606, section 3). `None` exactly where the field is no attributes, or a
/// multiprotocol one stands there twice or isn't of its form.
///
/// Takes no memory. The header of each attribute is read once.
pub fn frame_attrs(field: &[u8]) -> Option<FramedAttrs<'_>>
    ensures some { IfSome result (IsFrame field.now) }
    ensures none { IfNone result (HasNoFrame field.now) }
{
    let Some(places) = find_places(field) else {
        return None;
    };
    let Ok(reach) = slice_reach(places.reach) else {
        return None;
    };
    let Ok(unreach) = slice_unreach(places.unreach) else {
        return None;
    };
    Some(FramedAttrs {
        reach,
        unreach,
        as_path: places.as_path,
    })
}
