ghost use Rattle.std.specs.Prelude.{◌≡◌, ℕ, IfSome, IfNone};
ghost use Rattle.csv.specs.Records.{fields_of};
ghost use Rattle.bmp_specs.specs.Address.{IsAddressPrefix};
ghost use Rattle.rov_table.specs.VrpFile.{without_as, IsMaxText, SpellsVrp, IsVrp};
ghost use Rattle.rov_table.specs.declared.vrp.Vrp.{Vrp as VrpValue};

use crate::vrp::Vrp;
use csv::ByteRecord;
use ip_prefix::{parse_number, parse_prefix, width};

// The text of an AS without the `AS` at its front, where it has one.
fn skip_as(text: &[u8]) -> &[u8]
    ensures { result.now ≡ without_as text.now }
{
    match text.strip_prefix(b"AS") {
        Some(digits) => digits,
        None => text,
    }
}

// Reads a maximum length in bits: a number, or an empty text for the prefix's own.
fn read_max(text: &[u8], own: u8) -> Option<u32>
    ensures some { IfSome result (λ max. IsMaxText text.now own max) }
    ensures none { IfNone result ((max : ℕ) → IsMaxText text.now own max → ⊥) }
{
    if text.is_empty() {
        Some(own as u32)
    } else {
        parse_number(text)
    }
}

// Reads a VRP from its three fields; none exactly where they are none.
fn read_vrp(asn: &[u8], prefix: &[u8], max: &[u8]) -> Option<Vrp>
    ensures some { IfSome result (λ v. SpellsVrp asn.now prefix.now max.now v) }
    ensures exact { IfSome result (λ v. IsAddressPrefix v.prefix) }
    ensures none { IfNone result ((v : VrpValue) → SpellsVrp asn.now prefix.now max.now v → ⊥) }
{
    let Some(number) = parse_number(skip_as(asn)) else {
        return None;
    };
    let Some(own) = parse_prefix(prefix) else {
        return None;
    };
    let bits = own.bits();
    let Some(most) = read_max(max, bits) else {
        return None;
    };
    if most < bits as u32 || most > width(own.addr().family()) as u32 {
        return None;
    }
    Some(Vrp {
        prefix: own,
        max: most as u8,
        asn: number,
    })
}

/// Reads the VRP that a record is, by its first three fields; none exactly where it is none.
pub(crate) fn vrp_of(row: &ByteRecord) -> Option<Vrp>
    ensures some { IfSome result (λ v. IsVrp (fields_of row.now) v) }
    ensures exact { IfSome result (λ v. IsAddressPrefix v.prefix) }
    ensures none { IfNone result ((v : VrpValue) → IsVrp (fields_of row.now) v → ⊥) }
{
    let Some(asn) = row.get(0) else {
        return None;
    };
    let Some(prefix) = row.get(1) else {
        return None;
    };
    let Some(max) = row.get(2) else {
        return None;
    };
    read_vrp(asn, prefix, max)
}
