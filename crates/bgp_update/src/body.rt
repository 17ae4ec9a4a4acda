ghost use Rattle.std.specs.Prelude.{List, ℕ, IfSome, IfNone};
ghost use Rattle.bmp_specs.specs.Counted.{IsCounted, IsRest};
ghost use Rattle.bmp_specs.specs.Sequence.{HasFront, Then};

use byteorder::{BigEndian, ByteOrder};

// "Withdrawn Routes", "Path Attributes" and "Network Layer Reachability Information".
#[derive(Clone, Copy)]
pub(crate) struct Fields<'a> {
    pub(crate) withdrawn: &'a [u8],
    pub(crate) attributes: &'a [u8],
    pub(crate) nlri: &'a [u8],
}

// The field after its length in two octets at the front, and what follows it.
fn split_counted(input: &[u8]) -> Option<(&[u8], &[u8])>
    ensures found { IfSome result (λ f. HasFront IsCounted input.now f.0.now f.1.now) }
    ensures none { IfNone result ((value rest : List ℕ) → HasFront IsCounted input.now value rest → ⊥) }
{
    if input.len() < 2 {
        return None;
    }
    let size = BigEndian::read_u16(input) as usize + 2;
    if input.len() < size {
        return None;
    }
    let (field, rest) = input.split_at(size);
    let (_, value) = field.split_at(2);
    Some((value, rest))
}

// The three fields of the body (RFC 4271, section 4.3).
pub(crate) fn split_body(body: &[u8]) -> Option<Fields<'_>>
    ensures found { IfSome result (λ f. Then IsCounted (Then IsCounted IsRest) body.now (f.withdrawn.now, (f.attributes.now, f.nlri.now))) }
    ensures none { IfNone result ((v : List ℕ × (List ℕ × List ℕ)) → Then IsCounted (Then IsCounted IsRest) body.now v → ⊥) }
{
    let Some((withdrawn, after)) = split_counted(body) else {
        return None;
    };
    let Some((attributes, nlri)) = split_counted(after) else {
        return None;
    };
    Some(Fields {
        withdrawn,
        attributes,
        nlri,
    })
}
