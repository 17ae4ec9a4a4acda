ghost use Rattle.std.specs.Prelude.{◌≡◌, ◌↔◌, ◌<◌, [], ◌∷◌, ◌++◌, IsTrue, length};
ghost use Rattle.bmp_specs.specs.Values.{AddressValue};
ghost use Rattle.station_doors.specs.Allowed.{ComesFrom, MayConnect, unused as no_prefix};

use ip_prefix::{Addr, Prefix};
use std::marker::Model;
use std::net::IpAddr;

/// The most prefixes of one `Allowed`.
pub const MOST_ALLOWED: usize = 32;

/// Where connections may come from: addresses within one of at most 32 prefixes, or any address where there is none.
#[derive(Clone, Copy, Debug)]
pub struct Allowed {
    prefixes: [Prefix; MOST_ALLOWED],
    count: usize,
}

impl Model for Allowed {
    ghost use Rattle.std.specs.Prelude.{◌≡◌, ◌≤◌, ◌-◌, ◌++◌, ℕ, List, length, replicate, take};
    ghost use Rattle.std.proofs.Common.{arith, ap, sym, ◌∙◌, length-take-le};
    ghost use Rattle.bmp_specs.specs.Values.{PrefixValue};
    ghost use Rattle.station_doors.specs.Allowed.{unused};

    ghost Value = { List PrefixValue };

    ghost view = { λ a. take a.count a.prefixes };

    ghost invariant = { λ a. (a.count ≤ 32) × (length a.prefixes ≡ 32) × (a.prefixes ≡ take a.count a.prefixes ++ replicate (32 - a.count) unused) };

    ghost inverse = { λ v. record { prefixes = v ++ replicate (32 - length v) unused; count = length v } };

    ghost inverse_ok = { λ a h i. record {
      prefixes = (ap (λ (n : ℕ). take a.count a.prefixes ++ replicate (32 - n) unused) (length-take-le a.count a.prefixes (omega (arith, h.0, h.1))) ∙ sym h.2) i;
      count = length-take-le a.count a.prefixes (omega (arith, h.0, h.1)) i;
    } };
}

// What fills the places behind the prefixes.
fn unused() -> Prefix
    ensures { result ≡ no_prefix }
{
    Prefix::new(Addr::v4([0, 0, 0, 0]), 0).unwrap()
}

impl Allowed {
    /// No prefix: a connection may come from anywhere.
    pub fn anywhere() -> Allowed
        ensures { result ≡ [] }
    {
        Allowed {
            prefixes: [unused(); MOST_ALLOWED],
            count: 0,
        }
    }

    /// Adds a prefix behind the others, where there are fewer than 32.
    pub fn add(&mut self, prefix: Prefix)
        requires { length self.old < 32 }
        ensures { self.new ≡ self.old ++ prefix ∷ [] }
    {
        self.prefixes[self.count] = prefix;
        self.count += 1;
    }

    /// Whether there is no prefix.
    pub fn is_anywhere(&self) -> bool
        ensures { IsTrue result ↔ (self.now ≡ []) }
    {
        self.count == 0
    }

    /// Whether a connection from this address may come.
    pub fn contains(&self, address: &Addr) -> bool
        ensures { IsTrue result ↔ MayConnect self.now address.now }
    {
        self.count == 0
            || self.prefixes[..self.count]
                .iter()
                .any(|prefix| prefix.holds(address))
    }

    /// The same of an address as the network has it. An IPv4-mapped IPv6 address counts as the IPv4 address in it (RFC 4291,
    /// section 2.5.5.2).
    pub fn allows(&self, from: &IpAddr) -> bool
        ensures { (address : AddressValue) × ComesFrom from.now address × (IsTrue result ↔ MayConnect self.now address) }
    {
        self.contains(&address_of(from))
    }
}

// The address of the network's address.
pub(crate) fn address_of(ip: &IpAddr) -> Addr
    ensures { ComesFrom ip.now result }
{
    match ip.to_canonical() {
        IpAddr::V4(v4) => Addr::v4(v4.octets()),
        IpAddr::V6(v6) => Addr::v6(v6.octets()),
    }
}
