ghost use Rattle.std.specs.Prelude.{◌≡◌, ◌≤◌, ◌<◌, ℕ, List, true, length, drop, IfSome, IfNone};
ghost use Rattle.bmp_specs.specs.Nlri.{AreNlri, IsNlri};
ghost use Rattle.bmp_specs.specs.Sequence.{HasFront};
ghost use Rattle.bmp_specs.specs.Values.{NlriValue};

use crate::items::PATH_IDENTIFIER;
use ip_prefix::{Family, Prefix};

// How many bytes the path identifier and the prefix at the front take (RFC 7911, section 3).
fn identified_size(family: Family, input: &[u8]) -> Option<usize>
    ensures found { IfSome result (λ size. (n : NlriValue) × HasFront (IsNlri family true) input.now n (drop size input.now)) }
    ensures some { IfSome result (λ size. 0 < size) }
    ensures within { IfSome result (λ size. size ≤ length input.now) }
    ensures none { IfNone result ((n : NlriValue) (rest : List ℕ) → HasFront (IsNlri family true) input.now n rest → ⊥) }
{
    if input.len() < PATH_IDENTIFIER {
        return None;
    }
    let (_, after) = input.split_at(PATH_IDENTIFIER);
    match Prefix::wire_size(family, after) {
        Some(size) => Some(size + PATH_IDENTIFIER),
        None => None,
    }
}

// How many bytes the item at the front takes.
fn item_size(family: Family, identified: bool, input: &[u8]) -> Option<usize>
    ensures found { IfSome result (λ size. (n : NlriValue) × HasFront (IsNlri family identified) input.now n (drop size input.now)) }
    ensures some { IfSome result (λ size. 0 < size) }
    ensures within { IfSome result (λ size. size ≤ length input.now) }
    ensures none { IfNone result ((n : NlriValue) (rest : List ℕ) → HasFront (IsNlri family identified) input.now n rest → ⊥) }
{
    match identified {
        false => Prefix::wire_size(family, input),
        true => identified_size(family, input),
    }
}

// How many items fill the bytes. `None` exactly where the bytes aren't items of the family.
pub(crate) fn item_count(family: Family, identified: bool, bytes: &[u8]) -> Option<usize>
    ensures some { IfSome result (λ count. (ns : List NlriValue) × AreNlri family identified bytes.now ns × (count ≡ length ns)) }
    ensures within { IfSome result (λ count. count ≤ length bytes.now) }
    ensures none { IfNone result ((ns : List NlriValue) → AreNlri family identified bytes.now ns → ⊥) }
{
    let mut count = 0;
    let mut rest = bytes;
    while !rest.is_empty() {
        let Some(size) = item_size(family, identified, rest) else {
            return None;
        };
        let (_, after) = rest.split_at(size);
        count += 1;
        rest = after;
    }
    Some(count)
}
