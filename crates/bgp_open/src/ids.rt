ghost use Rattle.std.specs.Prelude.{◌≡◌, ◌==◌, ◌&&◌, ◌||◌};
ghost use Rattle.std.specs.List.{list_any};
ghost use Rattle.bmp_specs.specs.AddressFamily.{afi_of as number_of};
ghost use Rattle.bmp_specs.specs.PathIds.{is_entry_of, has_entry as has_any, can_receive as receives, can_send as sends, uses_path_ids};

use crate::cap::Cap;
use crate::open::Open;
use bmp_specs::{Family, Side};

/// "Subsequent Address Family Identifier": unicast (RFC 4760, section 6).
const UNICAST: u8 = 1;

/// "Send/Receive" of an ADD-PATH capability (RFC 7911, section 4).
const RECEIVE: u8 = 1;

const SEND: u8 = 2;

const SEND_AND_RECEIVE: u8 = 3;

// "Address Family Identifier" (RFC 4760, section 3).
fn afi_of(family: Family) -> u16
    ensures { result ≡ number_of family }
{
    match family {
        Family::V4 => 1,
        Family::V6 => 2,
    }
}

// Whether the entry is of unicast of the family.
fn is_of(entry: &Cap, family: Family) -> bool
    ensures { result ≡ is_entry_of family entry.now }
{
    entry.afi == afi_of(family) && entry.safi == UNICAST
}

// Whether the speaker can receive path identifiers of the family.
fn can_receive(speaker: &Open, family: Family) -> bool
    ensures { result ≡ receives speaker.now family }
{
    speaker.paths.as_slice().iter().any(|entry| is_of(entry, family)
        && (entry.value == RECEIVE || entry.value == SEND_AND_RECEIVE))
}

// Whether the speaker can send path identifiers of the family.
fn can_send(speaker: &Open, family: Family) -> bool
    ensures { result ≡ sends speaker.now family }
{
    speaker.paths.as_slice().iter().any(|entry| is_of(entry, family)
        && (entry.value == SEND || entry.value == SEND_AND_RECEIVE))
}

// Whether the speaker announces anything of path identifiers of the family.
fn has_entry(speaker: &Open, family: Family) -> bool
    ensures { result ≡ has_any speaker.now family }
{
    speaker
        .paths
        .as_slice()
        .iter()
        .any(|entry| is_of(entry, family))
}

/// Whether prefixes of the family have path identifiers (RFC 7911, section 4), by the OPEN that the
/// router sent and the one that it received: inward where it can receive and its peer can send them,
/// outward where it can send and its peer can receive. That a Loc-RIB uses them where the sent OPEN has
/// any entry of the family is a choice of this station.
pub fn path_ids(sent: &Open, received: &Open, family: Family, side: Side) -> bool
    ensures { result ≡ uses_path_ids sent.now received.now family side }
{
    match side {
        Side::Inward => can_receive(sent, family) && can_send(received, family),
        Side::Outward => can_send(sent, family) && can_receive(received, family),
        Side::Local => has_entry(sent, family),
    }
}
