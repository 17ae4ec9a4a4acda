ghost use Rattle.std.specs.Prelude.{◌≡◌, ◌↔◌, ◌≤◌, IsSome, IfSome};
ghost use Rattle.std.proofs.Common.{rules};
ghost use Rattle.std.specs.Cmp.{partial_order_from_own_ties};
ghost use Rattle.std.specs.Cmp.Rules.{comparing};
ghost use Rattle.std.specs.Ordering.{as_partial_cmp};
ghost use Rattle.bmp_specs.specs.Address.{IsAddressPrefix, prefix_at};
ghost use Rattle.bmp_specs.specs.Orders.{prefix_cmp, nlri_cmp};
ghost use Rattle.bmp_specs.specs.Prefix.{width_of, high_bits, first_bits, prefix_of};

use crate::address::{Addr, width};
use bmp_specs::Family;
use std::cmp::Ordering;
use std::marker::Model;

// The first bits of a byte, the others zero.
fn high(byte: u8, bits: u8) -> u8
    ensures { result ≡ high_bits bits byte }
{
    if bits < 8 {
        byte - (byte as u16 % (1u16 << (8 - bits))) as u8
    } else {
        byte
    }
}

// Clears all bits past the first ones.
fn clear(octets: &mut [u8; 16], bits: u8)
    ensures { octets.new ≡ first_bits bits octets.old }
{
    let mut left = bits;
    for octet in octets.iter_mut() {
        *octet = high(*octet, left);
        left = left.saturating_sub(8);
    }
}

// The first bits of four bytes, the others zero. They are cleared in the number that the bytes spell.
fn first_of_four(bytes: [u8; 4], bits: u8) -> [u8; 4]
    requires { bits ≤ 32 }
    ensures { result ≡ first_bits bits bytes }
{
    let word = u32::from_be_bytes(bytes) as u64;
    let first = word - word % (1u64 << (32 - bits));
    (first as u32).to_be_bytes()
}

/// A prefix: an address and how many of its bits count. All bits past that number are zero.
#[derive(Clone, Copy, Debug, PartialEq, Eq)]
pub struct Prefix {
    addr: Addr,
    bits: u8,
}

impl Model for Prefix {
    ghost use Rattle.bmp_specs.specs.Values.{PrefixValue};
    ghost use Rattle.bmp_specs.specs.Address.{IsAddressPrefix};

    ghost Value = { PrefixValue };

    ghost view = { λ p. record { address = p.addr; bits = p.bits } };

    ghost invariant = { λ p. IsAddressPrefix (record { address = p.addr; bits = p.bits }) };

    ghost inverse = { λ v. record { addr = v.address; bits = v.bits } };
}

impl Prefix {
    /// The first `bits` bits of the address; the others are cleared. None where the family has fewer bits.
    pub fn new(addr: Addr, bits: u8) -> Option<Prefix>
        ensures some { IsSome result ↔ (bits ≤ width_of addr.family) }
        ensures value { IfSome result (λ p. p ≡ prefix_at addr bits) }
    {
        let family = addr.family();
        if width(family) < bits {
            return None;
        }
        let mut octets = addr.octets();
        if family == Family::V4 {
            let four = [octets[0], octets[1], octets[2], octets[3]];
            return Some(Prefix::v4(four, bits));
        }
        clear(&mut octets, bits);
        Some(Prefix {
            addr: Addr::with_octets(family, octets),
            bits,
        })
    }

    // The IPv4 prefix of this many bits, which are the first of these four bytes; the others are cleared.
    #[inline(always)]
    pub(crate) fn v4(bytes: [u8; 4], bits: u8) -> Prefix
        requires { bits ≤ 32 }
        ensures { result ≡ prefix_of Family.V4 bits bytes }
    {
        Prefix {
            addr: Addr::v4(first_of_four(bytes, bits)),
            bits,
        }
    }

    /// The address, with no bit set past the number of bits.
    pub fn addr(&self) -> Addr
        ensures { result ≡ self.now.address }
    {
        self.addr
    }

    /// The number of bits.
    pub fn bits(&self) -> u8
        ensures same { result ≡ self.now.bits }
        ensures valid { IsAddressPrefix self.now }
    {
        self.bits
    }
}

impl Ord for Prefix {
    ghost cmp = { prefix_cmp };

    ghost total = { Prim.search (comparing, rules) depth 9 };

    ghost matches_partial_cmp = { Prim.search (comparing, rules) depth 9 };

    ghost matches_eq = { Prim.search (comparing, rules) depth 9 };

    // The address decides; then a shorter prefix comes before a longer one.
    fn cmp(&self, other: &Prefix) -> Ordering {
        self.addr.cmp(&other.addr).then(self.bits.cmp(&other.bits))
    }
}

impl PartialOrd for Prefix {
    ghost partial_cmp = { as_partial_cmp prefix_cmp };

    ghost laws = { partial_order_from_own_ties (Prim.search (comparing, rules) depth 9) (Prim.search (comparing, rules) depth 9) };

    fn partial_cmp(&self, other: &Prefix) -> Option<Ordering> {
        Some(self.cmp(other))
    }
}

/// A prefix of a route, and its path identifier where it has one (RFC 7911, section 3).
#[derive(Clone, Copy, Debug, PartialEq, Eq)]
pub struct Nlri {
    pub prefix: Prefix,
    pub id: Option<u32>,
}

impl Model for Nlri {
    ghost use Rattle.bmp_specs.specs.Values.{NlriValue};

    ghost Value = { NlriValue };

    ghost view = { λ n. record { prefix = n.prefix; id = n.id } };

    ghost inverse = { λ v. record { prefix = v.prefix; id = v.id } };
}

impl Ord for Nlri {
    ghost cmp = { nlri_cmp };

    ghost total = { Prim.search (comparing, rules) depth 9 };

    ghost matches_partial_cmp = { Prim.search (comparing, rules) depth 9 };

    ghost matches_eq = { Prim.search (comparing, rules) depth 9 };

    // The prefix decides; then an identifier that isn't there comes before every one that is.
    fn cmp(&self, other: &Nlri) -> Ordering {
        self.prefix.cmp(&other.prefix).then(self.id.cmp(&other.id))
    }
}

impl PartialOrd for Nlri {
    ghost partial_cmp = { as_partial_cmp nlri_cmp };

    ghost laws = { partial_order_from_own_ties (Prim.search (comparing, rules) depth 9) (Prim.search (comparing, rules) depth 9) };

    fn partial_cmp(&self, other: &Nlri) -> Option<Ordering> {
        Some(self.cmp(other))
    }
}
