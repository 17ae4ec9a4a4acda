ghost use Rattle.std.specs.Prelude.{◌≡◌, ℕ, List, ◌+◌, ◌≤◌, [], ◌∷◌, ◌++◌, length, take, OnOk, OnErr};
ghost use Rattle.bmp_specs.specs.PeerHeader.{IsViewOf, address_in, loc_rib};
ghost use Rattle.bmp_specs.specs.declared.wire.Family.{Family};
ghost use Rattle.bmp_writer.specs.Written.{Appends};
ghost use Rattle.bmp_writer.specs.PeerMessage.{IsHeaderOf, IsPeerMessage, address_bytes, family_flag, header_flags, view_flags};

use crate::common::{common_header, put};
use bmp_frames::{COMMON_HEADER, L_FLAG, LOC_RIB, O_FLAG, PeerKey, V_FLAG, View};
use ip_prefix::{Addr, Family};
use wire_io::{ByteList, NoMemory};

/// The bytes of a Per-Peer Header (RFC 7854, section 4.2).
pub(crate) const PEER_HEADER: u32 = 42;

/// The bytes of the longest message of a peer that has no routes and no OPENs.
const LONGEST: usize = 80;

/// "Peer Address": IPv4 in the last four bytes, after twelve of zero.
pub(crate) fn raw_address(address: &Addr) -> [u8; 16]
    ensures octets { result ≡ address_bytes address.now }
    ensures same { address_in address.now.family result ≡ address.now }
    ensures size { length result ≡ 16 }
{
    let octets = address.octets();
    match address.family() {
        Family::V4 => {
            let mut raw = [0u8; 16];
            raw[12..].copy_from_slice(&octets[..4]);
            raw
        }
        Family::V6 => octets,
    }
}

/// The V flag of a family.
pub(crate) fn flag_of_family(family: Family) -> u8
    ensures { result ≡ family_flag family }
{
    match family {
        Family::V4 => 0,
        Family::V6 => V_FLAG,
    }
}

// The flags L and O of a view.
fn flags_of_view(view: View) -> u8
    ensures { result ≡ view_flags view }
{
    match view {
        View::InPre => 0,
        View::InPost => L_FLAG,
        View::OutPre => O_FLAG,
        View::OutPost => L_FLAG | O_FLAG,
        View::Loc => 0,
    }
}

// "Peer Flags". A Loc-RIB Instance Peer has none of these (RFC 9069, section 4.2).
fn flags(key: &PeerKey, view: View) -> u8
    ensures { result ≡ header_flags key.now view }
{
    if key.kind == LOC_RIB {
        return 0;
    }
    flag_of_family(key.address.family()) | flags_of_view(view)
}

/// Puts the Per-Peer Header of the peer and the view at a place of the frame, and tells where it ends.
pub(crate) fn put_peer_header(frame: &mut [u8], at: usize, key: &PeerKey, view: View) -> usize
    requires room { at + 42 ≤ length frame.old }
    requires kind { key.now.kind ≤ loc_rib }
    requires family { key.now.kind ≡ loc_rib → key.now.address.family ≡ Family.V4 }
    requires view { IsViewOf key.now view }
    ensures end { result ≡ at + 42 }
    ensures size { length frame.new ≡ length frame.old }
    ensures front { (head : List ℕ) × (take result frame.new ≡ take at frame.old ++ head) × IsHeaderOf key.now view head }
{
    let at = put(frame, at, &[key.kind, flags(key, view)]);
    let at = put(frame, at, &key.distinguisher.to_be_bytes());
    let at = put(frame, at, &raw_address(&key.address));
    put(frame, at, &[0; 16])
}

/// Appends a message of the peer, with these bytes after the Per-Peer Header.
pub(crate) fn put_peer_message(
    out: &mut ByteList,
    kind: u8,
    key: &PeerKey,
    view: View,
    rest: &[u8],
) -> Result<(), NoMemory>
    requires short { length rest.now ≤ 32 }
    requires kind { key.now.kind ≤ loc_rib }
    requires family { key.now.kind ≡ loc_rib → key.now.address.family ≡ Family.V4 }
    requires view { IsViewOf key.now view }
    ensures ok { OnOk result (Appends (IsPeerMessage kind key.now view rest.now) out.old out.new) }
    ensures err { OnErr result (out.new ≡ out.old) }
{
    let mut frame = [0u8; LONGEST];
    let length = COMMON_HEADER + PEER_HEADER + rest.len() as u32;
    let at = put(&mut frame, 0, &common_header(kind, length));
    let at = put_peer_header(&mut frame, at, key, view);
    let at = put(&mut frame, at, rest);
    out.extend(&frame[..at])
}
