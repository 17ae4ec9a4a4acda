ghost use Rattle.std.specs.Prelude.{◌≡◌, ◌==◌, ◌≤◌, ◌&&◌, List, ℕ, if◌then◌else◌, IfOk, IsErrOf, drop, length, take, None};
ghost use Rattle.std.specs.Option.{option_copied};
ghost use Rattle.peer_events.specs.Body.{most_body};
ghost use Rattle.bmp_specs.specs.Open.{IsOpenMessage};
ghost use Rattle.bmp_specs.specs.PeerHeader.{HeaderValue, is_set, place_of as place_in};
ghost use Rattle.bmp_specs.specs.PeerUpNotification.{IsPeerUp, is_loc_rib as loc_rib_in, table_in, f_flag};
ghost use Rattle.bmp_specs.specs.Sequence.{HasFront, Then};
ghost use Rattle.bmp_specs.specs.Tlv.{AreTlvs};
ghost use Rattle.bmp_specs.specs.Values.{OpenValue, PeerUpValue, TlvValue};

use crate::initiation::copied;
use crate::tlvs::{Carrier, are_tlvs, count_unread, last_value};
use bgp_open::{BGP_HEADER, OPEN_MESSAGE, Open, PeerInfo, bgp_frame, read_open};
use bmp_frames::{F_FLAG, PeerHeader, TABLE_NAME};
use byteorder::{BigEndian, ByteOrder};
use ip_prefix::Addr;
use std::alloc::Global;
use std::marker::Model;
use wire_io::{BodyFault, ByteList, NoMemory};

/// "Local Address", "Local Port" and "Remote Port" (RFC 7854, section 4.10).
const HEADER_LENGTH: usize = 20;

/// A Peer Up Notification (RFC 7854, section 4.10).
#[derive(Drop)]
pub struct PeerUp {
    /// What it tells of the peer.
    pub info: PeerInfo,

    /// How many TLVs were passed over.
    pub unread: u32,
}

impl Model for PeerUp {
    ghost use Rattle.bmp_specs.specs.Values.{PeerUpValue};

    ghost Value = { PeerUpValue };

    ghost view = { λ u. record { info = u.info; unread = u.unread } };
}

// An OPEN message at the front, and what follows it.
#[derive(Drop)]
struct Opening<'a> {
    open: Open,
    rest: &'a [u8],
}

// Reads an OPEN message from the front (RFC 4271, section 4.2).
fn read_opening(alloc: Global, input: &[u8]) -> Result<Opening<'_>, BodyFault>
    ensures ok { IfOk result (λ o. HasFront IsOpenMessage input.now o.«open» o.rest.now) }
    ensures shorter { IfOk result (λ o. length o.rest.now ≤ length input.now) }
    ensures broken { IsErrOf result BodyFault.Broken → (o : OpenValue) (rest : List ℕ) → HasFront IsOpenMessage input.now o rest → ⊥ }
{
    let Some(frame) = bgp_frame(input) else {
        return Err(BodyFault::Broken);
    };
    if frame.kind != OPEN_MESSAGE {
        return Err(BodyFault::Broken);
    }
    let (message, rest) = input.split_at(frame.length as usize);
    let open = read_open(alloc, &message[BGP_HEADER..])?;
    Ok(Opening { open, rest })
}

// "Sent OPEN Message" and "Received OPEN Message", and the TLVs after them.
#[derive(Drop)]
struct Openings<'a> {
    sent: Open,
    received: Open,
    information: &'a [u8],
}

// Reads them after the ports (RFC 7854, section 4.10).
fn read_openings(alloc: Global, rest: &[u8]) -> Result<Openings<'_>, BodyFault>
    requires { 20 ≤ length rest.now }
    ensures parts { IfOk result (λ o. (ts : List TlvValue) × AreTlvs o.information.now ts × Then IsOpenMessage (Then IsOpenMessage AreTlvs) (drop 20 rest.now) (o.sent, (o.received, ts))) }
    ensures shorter { IfOk result (λ o. length o.information.now ≤ length rest.now) }
    ensures broken { IsErrOf result BodyFault.Broken → (head : HeaderValue) (u : PeerUpValue) → IsPeerUp head rest.now u → ⊥ }
{
    let sent = read_opening(alloc, &rest[HEADER_LENGTH..])?;
    let received = read_opening(alloc, sent.rest)?;
    let information = received.rest;
    if !are_tlvs(information) {
        return Err(BodyFault::Broken);
    }
    Ok(Openings {
        sent: sent.open,
        received: received.open,
        information,
    })
}

// Whether a Loc-RIB Instance Peer tells of a filtered Loc-RIB.
fn is_filtered(head: &PeerHeader) -> bool
    ensures { result ≡ (loc_rib_in head.now && is_set f_flag head.now.flags) }
{
    head.is_loc_rib() && head.has(F_FLAG)
}

// The last table name of a Loc-RIB Instance Peer.
fn table(alloc: Global, head: &PeerHeader, information: &[u8]) -> Result<Option<ByteList>, NoMemory>
    ensures { (ts : List TlvValue) → AreTlvs information.now ts → IfOk result (λ table. table ≡ table_in head.now ts) }
{
    if head.is_loc_rib() {
        copied(alloc, last_value(information, TABLE_NAME))
    } else {
        Ok(None)
    }
}

// Which Peer Up carries the TLVs after this header.
fn carrier_of(head: &PeerHeader) -> Carrier
    ensures { result ≡ (if loc_rib_in head.now then Carrier.LocRibPeerUp else Carrier.PeerUp) }
{
    if head.is_loc_rib() {
        Carrier::LocRibPeerUp
    } else {
        Carrier::PeerUp
    }
}

// "Local Address", by the header's flags.
fn local_address(head: &PeerHeader, rest: &[u8]) -> Addr
    requires { 20 ≤ length rest.now }
    ensures { result ≡ place_in head.now (take 16 rest.now) }
{
    let mut raw = [0u8; 16];
    raw.copy_from_slice(&rest[..16]);
    head.place(&raw)
}

/// Reads what follows the Per-Peer Header in a Peer Up Notification (RFC 7854, section 4.10; RFC 9069,
/// sections 4.4 and 5.2), all of the bytes. `BodyFault::Broken` exactly where they are none. Time and
/// memory are linear in the bytes.
pub fn read_peer_up(alloc: Global, head: &PeerHeader, rest: &[u8]) -> Result<PeerUp, BodyFault>
    requires { length rest.now ≤ most_body }
    ensures ok { IfOk result (λ u. IsPeerUp head.now rest.now u) }
    ensures broken { IsErrOf result BodyFault.Broken → (u : PeerUpValue) → IsPeerUp head.now rest.now u → ⊥ }
{
    if rest.len() < HEADER_LENGTH {
        return Err(BodyFault::Broken);
    }
    let openings = read_openings(alloc, rest)?;
    let Openings {
        sent,
        received,
        information,
    } = openings;
    let table = table(alloc, head, information)?;
    Ok(PeerUp {
        info: PeerInfo {
            asn: head.asn,
            identifier: head.identifier,
            local: local_address(head, rest),
            local_port: BigEndian::read_u16(&rest[16..]),
            remote_port: BigEndian::read_u16(&rest[18..]),
            sent,
            received,
            filtered: is_filtered(head),
            table,
        },
        unread: count_unread(carrier_of(head), information),
    })
}
