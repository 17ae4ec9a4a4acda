//! Path attributes that are kept as they came (RFC 4271, section 4.3).
ghost use Rattle.std.specs.Prelude.{◌≡◌, ◌≤◌, ◌<◌, ◌+◌, length, IfSome, IfNone, OnOk, OnErr};
ghost use Rattle.bmp_specs.specs.Attribute.{IsAttribute};
ghost use Rattle.bmp_writer.specs.Written.{Appends, Keeps};
ghost use Rattle.bmp_writer.specs.WrittenAttributes.{AreOthers, attribute_size, others_size, written_other};

use crate::attributes::{left_by_attribute, put_attribute};
use crate::draft::{Draft, Full};
use path_attrs::Other;

// One of them.
fn put_other(out: &mut Draft<'_>, other: &Other) -> Result<(), Full>
    requires { length other.now.value ≤ 65535 }
    ensures ok { OnOk result (Appends (λ bytes. IsAttribute bytes (written_other other.now)) out.old out.new) }
    ensures err { OnErr result (Keeps out.old out.new) }
{
    put_attribute(out, other.flags, other.code, other.value.as_slice())
}

/// Appends them, in their order. Where there is no room fewer bytes stand after those of before.
pub(crate) fn put_others(out: &mut Draft<'_>, others: &[Other]) -> Result<(), Full>
    requires { others_size others.now ≤ 65535 }
    ensures ok { OnOk result (Appends (AreOthers others.now) out.old out.new) }
    ensures err { OnErr result (Keeps out.old out.new) }
{
    for other in others {
        put_other(out, other)?;
    }
    Ok(())
}

// What is left of so many octets after one of them. None exactly where it takes more.
fn left_by_other(room: usize, other: &Other) -> Option<usize>
    ensures some { IfSome result (λ left. left + attribute_size (length other.now.value) ≡ room) }
    ensures none { IfNone result (room < attribute_size (length other.now.value)) }
{
    left_by_attribute(room, other.value.as_slice().len())
}

/// What is left of so many octets after them. None exactly where they take more.
pub(crate) fn left_by_others(room: usize, others: &[Other]) -> Option<usize>
    ensures some { IfSome result (λ left. left + others_size others.now ≡ room) }
    ensures none { IfNone result (room < others_size others.now) }
{
    let mut left = room;
    for other in others {
        left = left_by_other(left, other)?;
    }
    Some(left)
}
