ghost use Rattle.std.specs.Prelude.{◌↔◌, IsTrue, IfSome, IfNone, option_copied};
ghost use Rattle.bmp_specs.specs.Attributes.{AreAttributes};
ghost use Rattle.bmp_specs.specs.Values.{AttrsReadValue};
ghost use Rattle.path_attrs.specs.Judged.{FitsType, IsFound};

use crate::as_info::width_bytes;
use crate::codes::{AGGREGATOR, AS_PATH, MP_REACH_NLRI, MP_UNREACH_NLRI};
use crate::part::read_part;
use crate::registry::has_shape;
use as_path::{AsPath, Width};

// What judging the attributes of a field finds: how many they are, and the values of MP_REACH_NLRI and
// MP_UNREACH_NLRI, where it has them.
#[derive(Clone, Copy)]
pub(crate) struct Found<'a> {
    pub(crate) count: u32,
    pub(crate) reach: Option<&'a [u8]>,
    pub(crate) unreach: Option<&'a [u8]>,
}

// Whether the value has the form of its type: AS_PATH and AGGREGATOR in the width, and any other the shape of its row.
// Any value has that of MP_REACH_NLRI and MP_UNREACH_NLRI here, whose families and prefixes are found afterwards, and of
// AS4_PATH and AS4_AGGREGATOR, which break no field (RFC 6793, section 6).
fn has_form(code: u8, value: &[u8], width: Width) -> bool
    ensures { IsTrue result ↔ FitsType width code value.now }
{
    match code {
        AS_PATH => AsPath::is_path(value, width),
        AGGREGATOR => value.len() == width_bytes(width) + 4,
        _ => has_shape(code, value.len()),
    }
}

// Judges each attribute of the field by the form of its type (RFC 4271, section 4.3), and lends the values of
// MP_REACH_NLRI and MP_UNREACH_NLRI. The header of each is read once. `None` only where the field has no value in the
// grammar.
pub(crate) fn judge_forms(field: &[u8], width: Width) -> Option<Found<'_>>
    ensures some { IfSome result (λ f. IsFound width field.now f.count (option_copied f.reach) (option_copied f.unreach)) }
    ensures none { IfNone result ((read : AttrsReadValue) → AreAttributes width field.now read → ⊥) }
{
    let mut seen = [false; 256];
    let mut count = 0u32;
    let mut reach = None;
    let mut unreach = None;
    let mut rest = field;
    while !rest.is_empty() {
        let Some(part) = read_part(rest) else {
            return None;
        };
        let code = part.code as usize;
        if seen[code] {
            return None;
        }
        if !has_form(part.code, part.value, width) {
            return None;
        }
        seen[code] = true;
        if part.code == MP_REACH_NLRI {
            reach = Some(part.value);
        } else if part.code == MP_UNREACH_NLRI {
            unreach = Some(part.value);
        }
        count += 1;
        rest = part.rest;
    }
    Some(Found {
        count,
        reach,
        unreach,
    })
}
