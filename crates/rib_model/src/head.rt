use std::marker::Model;

/// What a Per-Peer Header tells beside the peer and the RIB (RFC 7854, section 4.2).
#[derive(Clone, Copy, Debug, PartialEq, Eq)]
pub struct PeerHead {
    /// "Peer AS".
    pub asn: u32,

    /// "Peer BGP ID".
    pub identifier: [u8; 4],

    /// "Timestamp", in seconds since 1970 by the router's clock.
    pub seconds: u32,

    /// The timestamp's microseconds.
    pub micros: u32,
}

impl Model for PeerHead {
    ghost use Rattle.bmp_specs.specs.Values.{PeerHeadValue};

    ghost Value = { PeerHeadValue };

    ghost view = { λ h. record { asn = h.asn; identifier = h.identifier; seconds = h.seconds; micros = h.micros } };

    ghost inverse = { λ v. record { asn = v.asn; identifier = v.identifier; seconds = v.seconds; micros = v.micros } };
}

/// An address family by its numbers on the wire (RFC 4760, section 3).
#[derive(Clone, Copy, Debug, PartialEq, Eq)]
pub struct FamilyCode {
    /// "Address Family Identifier (AFI)".
    pub afi: u16,

    /// "Subsequent Address Family Identifier (SAFI)".
    pub safi: u8,
}

impl Model for FamilyCode {
    ghost use Rattle.bmp_specs.specs.Values.{FamilyCodeValue};

    ghost Value = { FamilyCodeValue };

    ghost view = { λ f. record { afi = f.afi; safi = f.safi } };

    ghost inverse = { λ v. record { afi = v.afi; safi = v.safi } };
}

/// A message without its effects.
#[derive(Clone, Copy, Debug, PartialEq, Eq)]
pub struct Head {
    /// "Message Type" (RFC 7854, section 4.1).
    pub kind: u8,

    /// "Message Length".
    pub length: u32,

    /// What its Per-Peer Header tells, where it has one.
    pub peer: Option<PeerHead>,

    /// The family of its MP_REACH_NLRI, where that was passed over.
    pub reach: Option<FamilyCode>,

    /// The family of its MP_UNREACH_NLRI, where that was passed over.
    pub unreach: Option<FamilyCode>,
}
