ghost use Rattle.std.specs.Prelude.{◌≡◌, ◌≤◌, ◌++◌, ◌==◌, ℕ, List, None, map, replicate, [], ◌∷◌, OnOk};
ghost use Rattle.std.specs.List.{IsDistinct};
ghost use Rattle.bmp_specs.specs.Attribute.{IsAttribute};
ghost use Rattle.bmp_specs.specs.Attributes.{as4_aggregator, value_of};
ghost use Rattle.bmp_specs.specs.Parts.{AreParts};
ghost use Rattle.bmp_specs.specs.Values.{OtherValue};
ghost use Rattle.path_attrs.specs.Field.{value_at};
ghost use Rattle.path_attrs.specs.declared.codes.TheConstants.{PLACES};
ghost use Rattle.path_attrs.specs.Kept.{kept_of};

use crate::bytes::bytes_of;
use crate::codes::{EXTENDED_LENGTH, PLACES};
use crate::others::{Other, OtherList};
use crate::part::{Part, read_part};
use crate::registry::is_read_type;
use std::alloc::Global;
use wire_io::NoMemory;

// Keeps the attribute, where attributes of its type aren't read.
fn keep(alloc: Global, others: &mut OtherList, part: &Part<'_>) -> Result<(), NoMemory>
    ensures { OnOk result (others.new ≡ others.old ++ kept_of (record { flags = part.now.flags; code = part.now.code; value = part.now.value.now } ∷ [])) }
{
    if is_read_type(part.code) {
        return Ok(());
    }
    let flags = if part.flags & EXTENDED_LENGTH == EXTENDED_LENGTH {
        part.flags - EXTENDED_LENGTH
    } else {
        part.flags
    };
    let value = bytes_of(alloc, part.value)?;
    others.push(Other {
        flags,
        code: part.code,
        value,
    })?;
    Ok(())
}

// Gathers what attributes are made of: the value of each type below `PLACES`, put at its type where the field has an
// attribute of it, and the field's attributes of all types that aren't read, in order. The header of each attribute is
// read once.
pub(crate) fn gather<'a>(
    alloc: Global,
    field: &'a [u8],
    values: &mut [Option<&'a [u8]>; PLACES],
    others: &mut OtherList,
) -> Result<(), NoMemory>
    requires no_values { values.old ≡ replicate PLACES None }
    requires no_others { others.old ≡ [] }
    ensures values { OnOk result ((parts : List OtherValue) → AreParts IsAttribute field.now parts
        → IsDistinct (λ j k. j == k) (map (λ a. a.code) parts) → (code : ℕ) → code ≤ as4_aggregator
        → value_at values.new code ≡ value_of code parts) }
    ensures others { OnOk result ((parts : List OtherValue) → AreParts IsAttribute field.now parts → others.new ≡ kept_of parts) }
{
    let mut rest = field;
    while let Some(part) = read_part(rest) {
        let code = part.code as usize;
        if code < PLACES {
            values[code] = Some(part.value);
        }
        keep(alloc, others, &part)?;
        rest = part.rest;
    }
    Ok(())
}
