ghost use Rattle.std.specs.Prelude.{◌≡◌, ◌<◌, ◌≤◌, ℕ, List, IfSome, IfNone, length};
ghost use Rattle.bmp_specs.specs.Attribute.{IsAttribute, attribute_header, value_length};
ghost use Rattle.bmp_specs.specs.Sequence.{HasFront};
ghost use Rattle.bmp_specs.specs.Values.{OtherValue};

use crate::codes::EXTENDED_LENGTH;
use byteorder::{BigEndian, ByteOrder};

// A path attribute as it stands in the field, and what follows it.
#[derive(Clone, Copy)]
pub(crate) struct Part<'a> {
    pub(crate) flags: u8,
    pub(crate) code: u8,
    pub(crate) value: &'a [u8],
    pub(crate) rest: &'a [u8],
}

// How many bytes stand before the value of the attribute at the front.
fn header_size(input: &[u8]) -> usize
    requires { 3 ≤ length input.now }
    ensures { result ≡ attribute_header input.now }
{
    if input[0] & EXTENDED_LENGTH == EXTENDED_LENGTH {
        4
    } else {
        3
    }
}

// How many bytes the value of the attribute at the front has.
fn value_size(input: &[u8]) -> usize
    requires some { 3 ≤ length input.now }
    requires header { attribute_header input.now ≤ length input.now }
    ensures { result ≡ value_length input.now }
{
    if input[0] & EXTENDED_LENGTH == EXTENDED_LENGTH {
        BigEndian::read_u16(&input[2..]) as usize
    } else {
        input[2] as usize
    }
}

// Reads one path attribute from the front (RFC 4271, section 4.3).
pub(crate) fn read_part(input: &[u8]) -> Option<Part<'_>>
    ensures found { IfSome result (λ p. HasFront IsAttribute input.now (record { flags = p.flags; code = p.code; value = p.value.now }) p.rest.now) }
    ensures octet { IfSome result (λ p. p.code < 256) }
    ensures shorter { IfSome result (λ p. length p.rest.now < length input.now) }
    ensures none { IfNone result ((a : OtherValue) (rest : List ℕ) → HasFront IsAttribute input.now a rest → ⊥) }
{
    if input.len() < 3 {
        return None;
    }
    let header = header_size(input);
    if input.len() < header {
        return None;
    }
    let room = input.len() - header;
    let length = value_size(input);
    if room < length {
        return None;
    }
    let (front, rest) = input.split_at(header + length);
    Some(Part {
        flags: input[0],
        code: input[1],
        value: &front[header..],
        rest,
    })
}
