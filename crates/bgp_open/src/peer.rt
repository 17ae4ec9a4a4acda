use crate::open::Open;
use bmp_specs::Detail;
use ip_prefix::Addr;
use std::marker::Model;
use wire_io::ByteList;

/// What a Peer Up Notification tells of a peer (RFC 7854, section 4.10).
#[derive(Drop)]
pub struct PeerInfo {
    /// "Peer AS" of the Per-Peer Header.
    pub asn: u32,

    /// "Peer BGP ID" of the Per-Peer Header.
    pub identifier: [u8; 4],

    /// "Local Address".
    pub local: Addr,

    /// "Local Port".
    pub local_port: u16,

    /// "Remote Port".
    pub remote_port: u16,

    /// "Sent OPEN Message".
    pub sent: Open,

    /// "Received OPEN Message".
    pub received: Open,

    /// The F flag of a Loc-RIB Instance Peer (RFC 9069, section 4.2); of any other peer false.
    pub filtered: bool,

    /// The table name of a Loc-RIB Instance Peer (RFC 9069, section 5.2.1), where it has one.
    pub table: Option<ByteList>,
}

impl Model for PeerInfo {
    ghost use Rattle.bmp_specs.specs.Values.{PeerInfoValue};

    ghost Value = { PeerInfoValue };

    ghost view = { λ i. record {
      asn = i.asn;
      identifier = i.identifier;
      local = i.local;
      local_port = i.local_port;
      remote_port = i.remote_port;
      sent = i.sent;
      received = i.received;
      filtered = i.filtered;
      table = i.table;
    } };
}

/// What a Peer Down Notification tells (RFC 7854, section 4.9).
#[derive(Clone, Copy, Debug, PartialEq, Eq)]
pub struct DownInfo {
    /// "Reason".
    pub reason: u8,

    /// What the data says, where the reason asks for it.
    pub detail: Detail,
}

impl Model for DownInfo {
    ghost use Rattle.bmp_specs.specs.Values.{DownInfoValue};

    ghost Value = { DownInfoValue };

    ghost view = { λ d. record { reason = d.reason; detail = d.detail } };

    ghost inverse = { λ v. record { reason = v.reason; detail = v.detail } };
}
