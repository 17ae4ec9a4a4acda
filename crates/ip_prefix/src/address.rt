ghost use Rattle.std.specs.Prelude.{◌≡◌, ◌≤◌, take, drop};
ghost use Rattle.std.proofs.Common.{rules};
ghost use Rattle.std.specs.Cmp.{partial_order_from_own_ties};
ghost use Rattle.std.specs.Cmp.Rules.{comparing};
ghost use Rattle.std.specs.Cmp.Lexicographic.{slice_cmp};
ghost use Rattle.std.specs.Ordering.{as_partial_cmp, nat_cmp};
ghost use Rattle.std.specs.Slice.Scan.{big_endian};
ghost use Rattle.bmp_specs.specs.Address.{IsAddress, FitsFamily};
ghost use Rattle.bmp_specs.specs.Orders.{address_cmp};
ghost use Rattle.bmp_specs.specs.Prefix.{width_of, padded};

use bmp_specs::Family;
use std::cmp::Ordering;
use std::marker::Model;

/// An address: a family and 16 bytes, of which IPv4 uses the first four and the rest are zero.
#[derive(Clone, Copy, Debug, PartialEq, Eq)]
pub struct Addr {
    family: Family,
    octets: [u8; 16],
}

impl Model for Addr {
    ghost use Rattle.bmp_specs.specs.Values.{AddressValue};
    ghost use Rattle.bmp_specs.specs.Address.{IsAddress};

    ghost Value = { AddressValue };

    ghost view = { λ a. record { family = a.family; octets = a.octets } };

    ghost invariant = { λ a. IsAddress (record { family = a.family; octets = a.octets }) };

    ghost inverse = { λ v. record { family = v.family; octets = v.octets } };
}

impl Addr {
    /// The IPv4 address of these four bytes.
    pub fn v4(bytes: [u8; 4]) -> Addr
        ensures family { result.family ≡ Family.V4 }
        ensures octets { result.octets ≡ padded bytes }
    {
        let [a, b, c, d] = bytes;
        Addr {
            family: Family::V4,
            octets: [a, b, c, d, 0, 0, 0, 0, 0, 0, 0, 0, 0, 0, 0, 0],
        }
    }

    /// The IPv6 address of these sixteen bytes.
    pub fn v6(bytes: [u8; 16]) -> Addr
        ensures family { result.family ≡ Family.V6 }
        ensures octets { result.octets ≡ bytes }
    {
        Addr {
            family: Family::V6,
            octets: bytes,
        }
    }

    // The address of these bytes, which fit the family.
    pub(crate) fn with_octets(family: Family, octets: [u8; 16]) -> Addr
        requires { FitsFamily family octets }
        ensures { result ≡ record { family = family; octets = octets } }
    {
        Addr { family, octets }
    }

    /// The family.
    pub fn family(&self) -> Family
        ensures { result ≡ self.now.family }
    {
        self.family
    }

    /// The sixteen bytes; of IPv4 the first four are used.
    pub fn octets(&self) -> [u8; 16]
        ensures same { result ≡ self.now.octets }
        ensures valid { IsAddress self.now }
    {
        self.octets
    }
}

impl Ord for Addr {
    ghost cmp = { address_cmp };

    ghost total = { Prim.search (comparing, rules) depth 9 };

    ghost matches_partial_cmp = { Prim.search (comparing, rules) depth 9 };

    ghost matches_eq = { Prim.search (comparing, rules) depth 9 };

    // IPv4 comes before IPv6; then the bytes decide.
    fn cmp(&self, other: &Addr) -> Ordering {
        let families = self.family.cmp(&other.family);
        if families.is_ne() {
            return families;
        }
        octets_cmp(&self.octets, &other.octets)
    }
}

impl PartialOrd for Addr {
    ghost partial_cmp = { as_partial_cmp address_cmp };

    ghost laws = { partial_order_from_own_ties (Prim.search (comparing, rules) depth 9) (Prim.search (comparing, rules) depth 9) };

    fn partial_cmp(&self, other: &Addr) -> Option<Ordering> {
        Some(self.cmp(other))
    }
}

// The eight bytes from a place on, as one number.
fn word_at(octets: &[u8; 16], at: usize) -> u64
    requires { at ≤ 8 }
    ensures { result ≡ big_endian 0 (take 8 (drop at octets.now)) }
{
    u64::from_be_bytes([
        octets[at],
        octets[at + 1],
        octets[at + 2],
        octets[at + 3],
        octets[at + 4],
        octets[at + 5],
        octets[at + 6],
        octets[at + 7],
    ])
}

// The order of the bytes. It is that of two numbers, which is found at once.
fn octets_cmp(a: &[u8; 16], b: &[u8; 16]) -> Ordering
    ensures { result ≡ slice_cmp nat_cmp a.now b.now }
{
    let (x, y) = (word_at(a, 0), word_at(b, 0));
    if x != y {
        return x.cmp(&y);
    }
    word_at(a, 8).cmp(&word_at(b, 8))
}

/// How many bits an address of the family has.
pub fn width(family: Family) -> u8
    ensures { result ≡ width_of family }
{
    match family {
        Family::V4 => 32,
        Family::V6 => 128,
    }
}
