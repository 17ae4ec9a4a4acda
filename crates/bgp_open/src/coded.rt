ghost use Rattle.std.specs.Prelude.{◌≡◌, ◌<◌, ℕ, List, IfSome, IfNone, length};
ghost use Rattle.bmp_specs.specs.Coded.{IsCoded};
ghost use Rattle.bmp_specs.specs.Sequence.{HasFront};
ghost use Rattle.bmp_specs.specs.Values.{CodedValue};

// A code with its value, and what follows it.
#[derive(Clone, Copy)]
pub(crate) struct Coded<'a> {
    pub(crate) code: u8,
    pub(crate) value: &'a [u8],
    pub(crate) rest: &'a [u8],
}

// Reads a code, a length and a value from the front: an optional parameter (RFC 4271, section 4.2), or
// a capability (RFC 5492, section 4).
pub(crate) fn read_coded(input: &[u8]) -> Option<Coded<'_>>
    ensures found { IfSome result (λ c. HasFront IsCoded input.now (record { code = c.code; value = c.value.now }) c.rest.now) }
    ensures shorter { IfSome result (λ c. length c.rest.now < length input.now) }
    ensures none { IfNone result ((v : CodedValue) (rest : List ℕ) → HasFront IsCoded input.now v rest → ⊥) }
{
    if input.len() < 2 {
        return None;
    }
    let size = input[1] as usize + 2;
    if input.len() < size {
        return None;
    }
    let (front, rest) = input.split_at(size);
    Some(Coded {
        code: input[0],
        value: &front[2..],
        rest,
    })
}
