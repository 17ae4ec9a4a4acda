ghost use Rattle.std.specs.Prelude.{◌≡◌, ℕ, ◌<◌, ◌≤◌, length, take, drop, ◌++◌, replicate, IfSome, IfNone};
ghost use Rattle.bmp_specs.specs.Prefix.{StandsAtFront};
ghost use Rattle.bmp_specs.specs.Values.{PrefixValue};

use crate::address::{Addr, width};
use crate::prefixes::Prefix;
use bmp_specs::Family;

// The four bytes after the first one; zeros where the bytes end. Taken as they stand they cost less than a copy of a
// length that varies: the last ones may belong to whatever follows an IPv4 prefix, and are cleared.
#[inline(always)]
fn four_after(input: &[u8]) -> [u8; 4]
    ensures { result ≡ take 4 (drop 1 input.now ++ replicate 4 0) }
{
    match input {
        [_, a, b, c, d, ..] => [*a, *b, *c, *d],
        [_, a, b, c] => [*a, *b, *c, 0],
        [_, a, b] => [*a, *b, 0, 0],
        [_, a] => [*a, 0, 0, 0],
        _ => [0, 0, 0, 0],
    }
}

impl Prefix {
    /// How many bytes the prefix at the front takes, by its length octet (RFC 4271, section 4.3): that octet,
    /// and as many bytes as hold its bits. None exactly where no prefix of the family stands at the front.
    #[inline(always)]
    pub fn wire_size(family: Family, input: &[u8]) -> Option<usize>
        ensures found { IfSome result (λ size. (p : PrefixValue) × StandsAtFront family input.now p size) }
        ensures some { IfSome result (λ size. 0 < size) }
        ensures within { IfSome result (λ size. size ≤ length input.now) }
        ensures none { IfNone result ((size : ℕ) (p : PrefixValue) → StandsAtFront family input.now p size → ⊥) }
    {
        if input.is_empty() {
            return None;
        }
        let bits = input[0];
        let size = (bits as usize + 7) / 8 + 1;
        if width(family) < bits {
            return None;
        }
        if input.len() < size {
            return None;
        }
        Some(size)
    }

    /// Reads one prefix from the front, and how many bytes it takes (RFC 4271, section 4.3): a number of
    /// bits, and as many bytes as hold them. Bits past that number are cleared. None exactly where no
    /// prefix of the family stands at the front.
    pub fn from_wire(family: Family, input: &[u8]) -> Option<(Prefix, usize)>
        ensures found { IfSome result (λ found. StandsAtFront family input.now found.0 found.1) }
        ensures some { IfSome result (λ found. 0 < found.1) }
        ensures none { IfNone result ((size : ℕ) (p : PrefixValue) → StandsAtFront family input.now p size → ⊥) }
    {
        if family == Family::V4 {
            return Prefix::v4_from_wire(input);
        }
        let Some(size) = Prefix::wire_size(family, input) else {
            return None;
        };
        let mut octets = [0u8; 16];
        octets[..size - 1].copy_from_slice(&input[1..size]);
        let Some(prefix) = Prefix::new(Addr::with_octets(family, octets), input[0]) else {
            return None;
        };
        Some((prefix, size))
    }

    /// Reads one IPv4 prefix from the front, exactly as `from_wire` does, for a loop over many.
    #[inline(always)]
    pub fn v4_from_wire(input: &[u8]) -> Option<(Prefix, usize)>
        ensures found { IfSome result (λ found. StandsAtFront Family.V4 input.now found.0 found.1) }
        ensures some { IfSome result (λ found. 0 < found.1) }
        ensures none { IfNone result ((size : ℕ) (p : PrefixValue) → StandsAtFront Family.V4 input.now p size → ⊥) }
    {
        let Some(size) = Prefix::wire_size(Family::V4, input) else {
            return None;
        };
        Some((Prefix::v4(four_after(input), input[0]), size))
    }
}
