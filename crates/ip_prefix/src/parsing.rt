ghost use Rattle.std.specs.Prelude.{◌≡◌, ◌↔◌, ◌==◌, position, Contains, IsTrue, IfSome, IfNone};
ghost use Rattle.bmp_specs.specs.AddressText.{IsAddressText};
ghost use Rattle.bmp_specs.specs.PrefixText.{IsPrefixText};
ghost use Rattle.bmp_specs.specs.Values.{AddressValue, PrefixValue};

use crate::address::Addr;
use crate::numbers::parse_number;
use crate::prefixes::Prefix;
use std::net::{Ipv4Addr, Ipv6Addr};

// Whether the text has a dot.
fn has_dot(text: &[u8]) -> bool
    ensures { IsTrue result ↔ Contains text.now 46 }
{
    text.iter().any(|byte| *byte == b'.')
}

// Reads four numbers from 0 to 255 joined by dots.
fn parse_v4(text: &[u8]) -> Option<Addr>
    requires { Contains text.now 46 }
    ensures some { IfSome result (λ a. IsAddressText text.now a) }
    ensures none { IfNone result ((a : AddressValue) → IsAddressText text.now a → ⊥) }
{
    match Ipv4Addr::parse_ascii(text) {
        Ok(address) => Some(Addr::v4(address.octets())),
        Err(_) => None,
    }
}

// Reads the groups of an IPv6 address. Without a dot the text has no dotted quad.
fn parse_v6(text: &[u8]) -> Option<Addr>
    requires { Contains text.now 46 → ⊥ }
    ensures some { IfSome result (λ a. IsAddressText text.now a) }
    ensures none { IfNone result ((a : AddressValue) → IsAddressText text.now a → ⊥) }
{
    match Ipv6Addr::parse_ascii(text) {
        Ok(address) => Some(Addr::v6(address.octets())),
        Err(_) => None,
    }
}

/// Reads an address: four numbers from 0 to 255 joined by dots, or IPv6 in the forms 1 and 2 of RFC
/// 4291, section 2.2. None exactly where the text is neither.
pub fn parse_addr(text: &[u8]) -> Option<Addr>
    ensures some { IfSome result (λ a. IsAddressText text.now a) }
    ensures only { IfSome result (λ a. (b : AddressValue) → IsAddressText text.now b → b ≡ a) }
    ensures none { IfNone result ((a : AddressValue) → IsAddressText text.now a → ⊥) }
{
    if has_dot(text) {
        parse_v4(text)
    } else {
        parse_v6(text)
    }
}

// Where the first slash of the text is.
fn first_slash(text: &[u8]) -> Option<usize>
    ensures { result ≡ position (λ byte. byte == 47) text.now }
{
    text.iter().position(|byte| *byte == b'/')
}

/// Reads a prefix: an address, `/` and a number of bits that the family has. Bits of the address that
/// are set past that number are cleared. None exactly where the text is no prefix.
pub fn parse_prefix(text: &[u8]) -> Option<Prefix>
    ensures some { IfSome result (λ p. IsPrefixText text.now p) }
    ensures only { IfSome result (λ p. (q : PrefixValue) → IsPrefixText text.now q → q ≡ p) }
    ensures none { IfNone result ((p : PrefixValue) → IsPrefixText text.now p → ⊥) }
{
    let Some(slash) = first_slash(text) else {
        return None;
    };
    let Some(addr) = parse_addr(&text[..slash]) else {
        return None;
    };
    let Some(bits) = parse_number(&text[slash + 1..]) else {
        return None;
    };
    if bits > 128 {
        return None;
    }
    Prefix::new(addr, bits as u8)
}
