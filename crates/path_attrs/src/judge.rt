ghost use Rattle.std.specs.Prelude.{IfSome, IfNone};
ghost use Rattle.bmp_specs.specs.Attributes.{AreAttributes};
ghost use Rattle.bmp_specs.specs.Values.{AttrsReadValue};
ghost use Rattle.path_attrs.specs.Judged.{IsJudged};

use crate::found::judge_forms;
use crate::mp::{MpSlice, slice_reach, slice_unreach};
use as_path::Width;

/// The attributes of an UPDATE, judged where they stand: the multiprotocol ones in the bytes of their
/// field, and how many there are.
#[derive(Clone, Copy)]
pub struct Judged<'a> {
    /// MP_REACH_NLRI (RFC 4760, section 3).
    pub reach: Option<MpSlice<'a>>,

    /// MP_UNREACH_NLRI (RFC 4760, section 4).
    pub unreach: Option<MpSlice<'a>>,

    /// How many attributes the field has.
    pub count: u32,
}

/// Judges the "Path Attributes" of an UPDATE message (RFC 4271, section 4.3), with AS numbers of the width,
/// and lends its multiprotocol attributes. `None` exactly where the field is no attributes, two of them are
/// of one type, or a value isn't of the form of its type.
///
/// Takes no memory. The header of each attribute and of each segment of the AS path is read once.
#[inline(always)]
pub fn judge_attrs(field: &[u8], width: Width) -> Option<Judged<'_>>
    ensures some { IfSome result (IsJudged width field.now) }
    ensures none { IfNone result ((read : AttrsReadValue) → AreAttributes width field.now read → ⊥) }
{
    let Some(found) = judge_forms(field, width) else {
        return None;
    };
    let Ok(reach) = slice_reach(found.reach) else {
        return None;
    };
    let Ok(unreach) = slice_unreach(found.unreach) else {
        return None;
    };
    Some(Judged {
        reach,
        unreach,
        count: found.count,
    })
}
