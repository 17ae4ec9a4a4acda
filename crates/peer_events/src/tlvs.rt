ghost use Rattle.std.specs.Prelude.{◌≡◌, ◌<◌, ◌≤◌, ◌+◌, ◌==◌, not, ℕ, List, Option, Some, if◌then◌else◌, IfSome, IfNone, IsTrue, length, count_by};
ghost use Rattle.std.specs.Option.{option_copied};
ghost use Rattle.peer_events.specs.Body.{most_body};
ghost use Rattle.bmp_specs.specs.Sequence.{HasFront};
ghost use Rattle.bmp_specs.specs.Tlv.{AreTlvs, IsTlv, last_value as last_value_in};
ghost use Rattle.bmp_specs.specs.Values.{TlvValue};
ghost use Rattle.peer_events.specs.Known.{is_known_in};

use bmp_frames::{MIRRORED_MESSAGE, MIRRORING_INFORMATION, STRING, SYS_NAME, TABLE_NAME};
use byteorder::{BigEndian, ByteOrder};

// A TLV at the front, and what follows it.
#[derive(Clone, Copy)]
pub(crate) struct Tlv<'a> {
    pub(crate) kind: u16,
    pub(crate) value: &'a [u8],
    pub(crate) rest: &'a [u8],
}

// The message that carries TLVs: each knows other types.
#[derive(Clone, Copy)]
pub(crate) enum Carrier {
    Initiation,
    PeerUp,
    LocRibPeerUp,
    Mirroring,
}

// Reads a TLV from the front (RFC 7854, section 4.4).
pub(crate) fn read_tlv(input: &[u8]) -> Option<Tlv<'_>>
    ensures found { IfSome result (λ t. HasFront IsTlv input.now (record { kind = t.kind; value = t.value.now }) t.rest.now) }
    ensures shorter { IfSome result (λ t. length t.rest.now < length input.now) }
    ensures none { IfNone result ((t : TlvValue) (rest : List ℕ) → HasFront IsTlv input.now t rest → ⊥) }
{
    if input.len() < 4 {
        return None;
    }
    let size = BigEndian::read_u16(&input[2..]) as usize + 4;
    if input.len() < size {
        return None;
    }
    let (front, rest) = input.split_at(size);
    Some(Tlv {
        kind: BigEndian::read_u16(input),
        value: &front[4..],
        rest,
    })
}

// Whether TLVs fill the bytes.
pub(crate) fn are_tlvs(bytes: &[u8]) -> bool
    ensures yes { IsTrue result → (ts : List TlvValue) × AreTlvs bytes.now ts }
    ensures no { (ts : List TlvValue) → AreTlvs bytes.now ts → IsTrue result }
{
    let mut rest = bytes;
    while !rest.is_empty() {
        match read_tlv(rest) {
            Some(tlv) => rest = tlv.rest,
            None => return false,
        }
    }
    true
}

// The value of the TLV where it is of the kind, else what was found before.
fn later<'a>(tlv: Tlv<'a>, kind: u16, found: Option<&'a [u8]>) -> Option<&'a [u8]>
    ensures { option_copied result ≡ (if tlv.entry.kind == kind then Some tlv.entry.value.now else option_copied found.entry) }
{
    if tlv.kind == kind {
        Some(tlv.value)
    } else {
        found
    }
}

// The value of the last TLV of a kind.
pub(crate) fn last_value(bytes: &[u8], kind: u16) -> Option<&[u8]>
    ensures { (ts : List TlvValue) → AreTlvs bytes.now ts → option_copied result ≡ last_value_in kind ts }
{
    let mut rest = bytes;
    let mut found = None;
    while let Some(tlv) = read_tlv(rest) {
        found = later(tlv, kind, found);
        rest = tlv.rest;
    }
    found
}

// Whether the message knows the type.
fn is_known(carrier: Carrier, tlv: Tlv<'_>) -> bool
    ensures { result ≡ is_known_in carrier (record { kind = tlv.entry.kind; value = tlv.entry.value.now }) }
{
    match carrier {
        Carrier::Initiation => tlv.kind <= SYS_NAME,
        Carrier::PeerUp => tlv.kind == STRING,
        Carrier::LocRibPeerUp => tlv.kind == STRING || tlv.kind == TABLE_NAME,
        Carrier::Mirroring => {
            tlv.kind == MIRRORED_MESSAGE
                || (tlv.kind == MIRRORING_INFORMATION && tlv.value.len() == 2)
        }
    }
}

// 1 for a TLV that is passed over, else 0.
fn passed_over(carrier: Carrier, tlv: Tlv<'_>) -> u32
    ensures { result ≡ (if not (is_known_in carrier (record { kind = tlv.entry.kind; value = tlv.entry.value.now })) then 1 else 0) }
{
    if is_known(carrier, tlv) { 0 } else { 1 }
}

// How many TLVs are passed over.
pub(crate) fn count_unread(carrier: Carrier, bytes: &[u8]) -> u32
    requires { length bytes.now ≤ most_body }
    ensures { (ts : List TlvValue) → AreTlvs bytes.now ts → result ≡ count_by (λ t. not (is_known_in carrier t)) ts }
{
    let mut rest = bytes;
    let mut unread = 0;
    while let Some(tlv) = read_tlv(rest) {
        unread += passed_over(carrier, tlv);
        rest = tlv.rest;
    }
    unread
}
