ghost use Rattle.std.specs.Prelude.{◌≡◌, ◌==◌};
ghost use Rattle.bmp_specs.specs.PeerHeader.{HeaderValue, IsHeader, family_of, key_of, view_of, is_two_byte, place_of, is_set, loc_rib};

use crate::PeerKey;
use crate::codes::{A_FLAG, L_FLAG, LOC_RIB, O_FLAG, V_FLAG};
use bmp_specs::View;
use byteorder::{BigEndian, ByteOrder};
use ip_prefix::{Addr, Family};
use std::marker::Model;

/// A Per-Peer Header (RFC 7854, section 4.2). Its flags mean other things for a Loc-RIB Instance
/// Peer (RFC 9069, section 4.2); for a peer type that isn't known they are read as for the first
/// three.
#[derive(Clone, Copy, Debug, PartialEq, Eq)]
pub struct PeerHeader {
    /// "Peer Type".
    pub kind: u8,
    /// "Peer Flags".
    pub flags: u8,
    /// "Peer Distinguisher".
    pub distinguisher: u64,
    /// "Peer Address": IPv4 stands in the last four bytes.
    pub address: [u8; 16],
    /// "Peer AS".
    pub asn: u32,
    /// "Peer BGP ID".
    pub identifier: [u8; 4],
    /// "Timestamp", in seconds since 1970.
    pub seconds: u32,
    /// The timestamp's microseconds.
    pub micros: u32,
}

impl Model for PeerHeader {
    ghost use Rattle.bmp_specs.specs.PeerHeader.{HeaderValue};

    ghost Value = { HeaderValue };

    ghost view = { λ h. record {
      kind = h.kind;
      flags = h.flags;
      distinguisher = h.distinguisher;
      address = h.address;
      asn = h.asn;
      identifier = h.identifier;
      seconds = h.seconds;
      micros = h.micros;
    } };

    ghost inverse = { λ v. record {
      kind = v.kind;
      flags = v.flags;
      distinguisher = v.distinguisher;
      address = v.address;
      asn = v.asn;
      identifier = v.identifier;
      seconds = v.seconds;
      micros = v.micros;
    } };
}

impl PeerHeader {
    /// Reads the fields, one after another.
    pub fn read(head: &[u8; 42]) -> PeerHeader
        ensures { IsHeader head.now result }
    {
        let mut address = [0u8; 16];
        address.copy_from_slice(&head[10..26]);
        let mut identifier = [0u8; 4];
        identifier.copy_from_slice(&head[30..34]);
        PeerHeader {
            kind: head[0],
            flags: head[1],
            distinguisher: BigEndian::read_u64(&head[2..10]),
            address,
            asn: BigEndian::read_u32(&head[26..30]),
            identifier,
            seconds: BigEndian::read_u32(&head[34..38]),
            micros: BigEndian::read_u32(&head[38..]),
        }
    }

    /// Whether the flag stands among the flags.
    pub fn has(&self, flag: u8) -> bool
        ensures { result ≡ is_set flag self.now.flags }
    {
        self.flags & flag == flag
    }

    /// Whether the peer is a Loc-RIB Instance Peer (RFC 9069, section 4.1).
    pub fn is_loc_rib(&self) -> bool
        ensures { result ≡ (self.now.kind == loc_rib) }
    {
        self.kind == LOC_RIB
    }

    // The family of the addresses: IPv4 for a Loc-RIB Instance Peer, else by the V flag.
    fn family(&self) -> Family
        ensures { result ≡ family_of self.now }
    {
        if !self.is_loc_rib() && self.has(V_FLAG) {
            Family::V6
        } else {
            Family::V4
        }
    }

    /// The peer that the header names. None exactly where the peer type exceeds 3. The flags are no
    /// part of it.
    pub fn key(&self) -> Option<PeerKey>
        ensures { result ≡ key_of self.now }
    {
        if LOC_RIB < self.kind {
            return None;
        }
        Some(PeerKey {
            kind: self.kind,
            distinguisher: self.distinguisher,
            address: self.place(&self.address),
        })
    }

    /// The RIB that the message reflects: the Loc-RIB for a Loc-RIB Instance Peer, else by the flags O
    /// and L.
    pub fn view(&self) -> View
        ensures { result ≡ view_of self.now }
    {
        if self.is_loc_rib() {
            return View::Loc;
        }
        match (self.has(O_FLAG), self.has(L_FLAG)) {
            (true, true) => View::OutPost,
            (true, false) => View::OutPre,
            (false, true) => View::InPost,
            (false, false) => View::InPre,
        }
    }

    /// Whether AS paths have numbers of two bytes: by the A flag, and never for a Loc-RIB Instance
    /// Peer.
    pub fn two_byte(&self) -> bool
        ensures { result ≡ is_two_byte self.now }
    {
        !self.is_loc_rib() && self.has(A_FLAG)
    }

    /// "Peer Address", and likewise "Local Address": the address that stands in these 16 bytes, IPv6 by the V
    /// flag, else IPv4 in the last four bytes, and always IPv4 for a Loc-RIB Instance Peer.
    pub fn place(&self, raw: &[u8; 16]) -> Addr
        ensures { result ≡ place_of self.now raw.now }
    {
        match self.family() {
            Family::V4 => {
                let mut last = [0u8; 4];
                last.copy_from_slice(&raw[12..]);
                Addr::v4(last)
            }
            Family::V6 => Addr::v6(*raw),
        }
    }
}
