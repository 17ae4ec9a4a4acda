ghost use Rattle.std.specs.Prelude.{◌≡◌, ◌⊎◌, ℕ, ◌<◌, List, ◌∷◌, ◌++◌, All, length, Contains, codes, IfSome, IfNone};
ghost use Rattle.ask_specs.specs.Traits.{CommunityValue, extended};
ghost use Rattle.ask_specs.specs.TraitText.{IsThroughText, IsCommunityText, colon};
ghost use Rattle.bmp_specs.specs.NumberText.{IsNumberText, number_text};
ghost use Rattle.bmp_specs.specs.PeerText.{hex_text};
ghost use Rattle.query_lang.specs.CommunityTexts.{named, worded, IsNoNumbers};
ghost use Rattle.query_lang.specs.TraitValues.{community_value};

use crate::traits::{Asns, Community};
use crate::words::cut_first;
use bmp_specs::Family;
use ip_prefix::{parse_addr, parse_number, parse_number_up_to};

// Reads one to four AS numbers with commas between them. None exactly where the text is none.
pub(crate) fn parse_asns(text: &[u8]) -> Option<Asns>
    ensures some { IfSome result (λ a. IsThroughText text.now a) }
    ensures none { IfNone result ((ns : List ℕ) → IsThroughText text.now ns → ⊥) }
{
    let mut numbers = [0u32; 4];
    let mut left = text;
    for count in 0..4 {
        let Some((piece, rest)) = cut_first(b',', left) else {
            let Some(number) = parse_number(left) else {
                return None;
            };
            numbers[count] = number;
            return Asns::new(&numbers[..count + 1]);
        };
        let Some(number) = parse_number(piece) else {
            return None;
        };
        numbers[count] = number;
        left = rest;
    }
    None
}

// Reads eight octets in hexadecimal, with lower case letters.
fn parse_octets(text: &[u8]) -> Option<[u8; 8]>
    ensures some { IfSome result (λ o. text.now ≡ hex_text o) }
    ensures none { IfNone result ((o : List ℕ) → length o ≡ 8 → All (λ octet. octet < 256) o → text.now ≡ hex_text o → ⊥) }
{
    let mut octets = [0u8; 8];
    if hex::decode_to_slice(text, &mut octets).is_err() {
        return None;
    }
    let mut digits = [0u8; 16];
    if hex::encode_to_slice(octets, &mut digits).is_err() {
        // 16 digits have room for 8 octets
        unreachable!();
    }
    if digits.as_slice() != text {
        return None;
    }
    Some(octets)
}

// The extended community of an AS and a number behind it: of two octets and of four, where two hold the AS
// (RFC 4360, section 3.1), else of four and of two (RFC 5668, section 2).
fn of_as(low: u8, asn: u32, local: &[u8]) -> Option<[u8; 8]>
    requires { (low ≡ 2) ⊎ (low ≡ 3) }
    ensures some { IfSome result (λ o. IsCommunityText (named low (number_text asn) local.now) (extended o)) }
    ensures none { IfNone result ((o : List ℕ) → IsCommunityText (named low (number_text asn) local.now) (extended o) → ⊥) }
{
    let [a, b, c, d] = asn.to_be_bytes();
    if asn < 65536 {
        let Some(number) = parse_number(local) else {
            return None;
        };
        let [k, l, m, n] = number.to_be_bytes();
        return Some([0, low, c, d, k, l, m, n]);
    }
    let Some(number) = parse_number_up_to(local, 65535) else {
        return None;
    };
    let [m, n] = (number as u16).to_be_bytes();
    Some([2, low, a, b, c, d, m, n])
}

// The extended community of an IPv4 address and a number of two octets behind it (RFC 4360, section 3.2).
fn of_address(low: u8, admin: &[u8], local: &[u8]) -> Option<[u8; 8]>
    requires low { (low ≡ 2) ⊎ (low ≡ 3) }
    requires no_colon { Contains admin.now colon → ⊥ }
    requires no_number { (n : ℕ) → IsNumberText admin.now n → ⊥ }
    ensures some { IfSome result (λ o. IsCommunityText (named low admin.now local.now) (extended o)) }
    ensures none { IfNone result ((o : List ℕ) → IsCommunityText (named low admin.now local.now) (extended o) → ⊥) }
{
    let Some(address) = parse_addr(admin) else {
        return None;
    };
    let Some(number) = parse_number_up_to(local, 65535) else {
        return None;
    };
    match address.family() {
        Family::V4 => {
            let octets = address.octets();
            let [m, n] = (number as u16).to_be_bytes();
            Some([1, low, octets[0], octets[1], octets[2], octets[3], m, n])
        }
        Family::V6 => None,
    }
}

// Reads what follows `rt:` or `ro:`, by the low octet of the type that they stand for.
fn parse_administrators(low: u8, rest: &[u8]) -> Option<[u8; 8]>
    requires { (low ≡ 2) ⊎ (low ≡ 3) }
    ensures some { IfSome result (λ o. IsCommunityText (worded low rest.now) (extended o)) }
    ensures none { IfNone result ((o : List ℕ) → IsCommunityText (worded low rest.now) (extended o) → ⊥) }
{
    let Some((admin, local)) = cut_first(b':', rest) else {
        return None;
    };
    match parse_number(admin) {
        Some(asn) => of_as(low, asn, local),
        None => of_address(low, admin, local),
    }
}

// Reads a community of two or of three numbers, by the first and what follows it.
fn parse_numbers(first: &[u8], rest: &[u8]) -> Option<Community>
    requires { Contains first.now colon → ⊥ }
    ensures some { IfSome result (λ c. IsCommunityText (first.now ++ colon ∷ rest.now) (community_value c)) }
    ensures none { IfNone result (IsNoNumbers (first.now ++ colon ∷ rest.now)) }
{
    let Some((second, third)) = cut_first(b':', rest) else {
        let Some(high) = parse_number_up_to(first, 65535) else {
            return None;
        };
        let Some(low) = parse_number_up_to(rest, 65535) else {
            return None;
        };
        return Some(Community::Plain(high as u32 * 65536 + low as u32));
    };
    let Some(a) = parse_number(first) else {
        return None;
    };
    let Some(b) = parse_number(second) else {
        return None;
    };
    match parse_number(third) {
        Some(c) => Some(Community::Large(a, b, c)),
        None => None,
    }
}

// Reads a community of any kind, by the text that a line has for it, or an extended one in hexadecimal.
// None exactly where the text is none.
pub(crate) fn parse_community(text: &[u8]) -> Option<Community>
    ensures some { IfSome result (λ c. IsCommunityText text.now (community_value c)) }
    ensures none { IfNone result ((c : CommunityValue) → IsCommunityText text.now c → ⊥) }
{
    let Some((first, rest)) = cut_first(b':', text) else {
        return match parse_octets(text) {
            Some(octets) => Some(Community::Extended(octets)),
            None => None,
        };
    };
    if first == b"rt".as_slice() {
        return match parse_administrators(2, rest) {
            Some(octets) => Some(Community::Extended(octets)),
            None => None,
        };
    }
    if first == b"ro".as_slice() {
        return match parse_administrators(3, rest) {
            Some(octets) => Some(Community::Extended(octets)),
            None => None,
        };
    }
    parse_numbers(first, rest)
}
