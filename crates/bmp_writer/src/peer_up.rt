//! A Peer Up Notification (RFC 7854, section 4.10; for a Loc-RIB RFC 9069, sections 4.2 and 5.2).
ghost use Rattle.std.specs.Prelude.{◌≡◌, ◌+◌, ◌≤◌, ◌<◌, ◌↔◌, [], ◌∷◌, ◌++◌, length, map, replicate, IsTrue, OnOk, OnErr};
ghost use Rattle.byteorder.specs.Endian.{big_bytes};
ghost use Rattle.bmp_specs.specs.Values.{up};
ghost use Rattle.bmp_writer.specs.Capabilities.{as_family, capabilities_size};
ghost use Rattle.bmp_writer.specs.PeerUpMessage.{CanCarry, HasUpHeader, IsLocal, IsSome, IsTable, IsUpHeader, IsUpMessage, name_size, name_tlvs_size, peer_up_size, up_flags, unextended, with_unextended};
ghost use Rattle.bmp_writer.specs.Written.{Always, Appends, IsWritten, Keeps, peer_up_type, with_opens};

use crate::capabilities::fit_in_parameter;
use crate::common::common_header;
use crate::open_message::{put_open, size_of_open};
use crate::peer::{flag_of_family, raw_address};
use bgp_open::{Cap, Open, PeerInfo};
use bmp_frames::{F_FLAG, LOC_RIB, PEER_UP, PeerKey, TABLE_NAME};
use ip_prefix::Family;
use wire_io::{ByteList, NoMemory};

/// The bytes of the common header, the Per-Peer Header, the local address and the ports.
const BEFORE_OPENS: u32 = 68;

// "Peer Flags".
fn flags(key: &PeerKey, filtered: bool) -> u8
    ensures { result ≡ up_flags key.now filtered }
{
    if key.kind != LOC_RIB {
        return flag_of_family(key.address.family());
    }
    if filtered { F_FLAG } else { 0 }
}

// "Peer AS", "Peer BGP ID" and no "Timestamp".
fn speaker(asn: u32, identifier: [u8; 4]) -> [u8; 16]
    ensures bytes { result ≡ big_bytes 4 asn ++ (identifier ++ replicate 8 0) }
    ensures fits { (asn < 4294967296) × (length identifier ≡ 4) }
{
    let [a, b, c, d] = asn.to_be_bytes();
    let [w, x, y, z] = identifier;
    [a, b, c, d, w, x, y, z, 0, 0, 0, 0, 0, 0, 0, 0]
}

// The Per-Peer Header.
fn put_header(out: &mut ByteList, key: &PeerKey, info: &PeerInfo) -> Result<(), NoMemory>
    requires { CanCarry key.now info.now }
    ensures ok { OnOk result (Appends (IsUpHeader key.now info.now) out.old out.new) }
    ensures err { OnErr result (Keeps out.old out.new) }
{
    out.extend(&[key.kind, flags(key, info.filtered)])?;
    out.extend(&key.distinguisher.to_be_bytes())?;
    out.extend(&raw_address(&key.address))?;
    out.extend(&speaker(info.asn, info.identifier))
}

// "Local Port" and "Remote Port".
fn ports(local: u16, remote: u16) -> [u8; 4]
    ensures bytes { result ≡ big_bytes 2 local ++ big_bytes 2 remote }
    ensures fits { (local < 65536) × (remote < 65536) }
{
    let [a, b] = local.to_be_bytes();
    let [c, d] = remote.to_be_bytes();
    [a, b, c, d]
}

// "Local Address" and the ports.
fn put_local(out: &mut ByteList, info: &PeerInfo) -> Result<(), NoMemory>
    ensures ok { OnOk result (Appends (IsLocal info.now) out.old out.new) }
    ensures err { OnErr result (Keeps out.old out.new) }
{
    out.extend(&raw_address(&info.local))?;
    out.extend(&ports(info.local_port, info.remote_port))
}

// "Information": the table name, where there is one.
fn put_table(out: &mut ByteList, table: &Option<ByteList>) -> Result<(), NoMemory>
    requires { name_size table.now ≤ 65535 }
    ensures ok { OnOk result (Appends (IsTable table.now) out.old out.new) }
    ensures err { OnErr result (Keeps out.old out.new) }
{
    let Some(name) = table else {
        return Ok(());
    };
    let name = name.as_slice();
    out.extend(&TABLE_NAME.to_be_bytes())?;
    out.extend(&(name.len() as u16).to_be_bytes())?;
    out.extend(name)
}

// How many bytes the TLV of the table name has, where there is one.
fn size_of_table(table: &Option<ByteList>) -> u32
    requires { name_size table.now ≤ 65535 }
    ensures { result ≡ name_tlvs_size table.now }
{
    match table {
        Some(name) => 4 + name.as_slice().len() as u32,
        None => 0,
    }
}

// Appends the message. Out of memory, fewer bytes stand after those of before.
fn put_message(out: &mut ByteList, key: &PeerKey, info: &PeerInfo) -> Result<(), NoMemory>
    requires { CanCarry key.now info.now }
    ensures ok { OnOk result (Appends (IsUpMessage key.now info.now) out.old out.new) }
    ensures err { OnErr result (Keeps out.old out.new) }
{
    let opens = size_of_open(&info.sent) + size_of_open(&info.received);
    let length = BEFORE_OPENS + opens + size_of_table(&info.table);
    out.extend(&common_header(PEER_UP, length))?;
    put_header(out, key, info)?;
    put_local(out, info)?;
    put_open(out, &info.sent)?;
    put_open(out, &info.received)?;
    put_table(out, &info.table)
}

/// Appends a Peer Up Notification (RFC 7854, section 4.10) that tells the AS, the BGP Identifier, the local address,
/// the ports and the OPEN messages. Of a Loc-RIB Instance Peer it has the F flag and the table name (RFC 9069,
/// sections 4.2 and 5.2). The capabilities of each OPEN stand in one optional parameter, so they take at most 253
/// bytes. An OPEN with extended parameters (RFC 9072) is written without them. After `NoMemory` the list is as before.
pub fn put_peer_up(out: &mut ByteList, key: &PeerKey, info: &PeerInfo) -> Result<(), NoMemory>
    requires { CanCarry key.now info.now }
    ensures ok { OnOk result (IsSome info.now.sent → IsSome info.now.received
        → Appends (IsWritten peer_up_type Always (up key.now (with_unextended info.now) ∷ [])
        (with_opens key.now (record { sent = unextended info.now.sent; received = unextended info.now.received }))) out.old out.new) }
    ensures bytes { OnOk result (Appends (IsUpMessage key.now info.now) out.old out.new) }
    ensures header { OnOk result (Appends (HasUpHeader key.now info.now) out.old out.new) }
    ensures size { OnOk result (length out.new ≡ length out.old + peer_up_size info.now) }
    ensures err { OnErr result (out.new ≡ out.old) }
{
    let before = out.as_slice().len();
    match put_message(out, key, info) {
        Ok(()) => Ok(()),
        Err(NoMemory) => {
            out.truncate(before);
            Err(NoMemory)
        }
    }
}

// Whether the message can carry what is told of the peer.
fn can_carry(key: &PeerKey, info: &PeerInfo) -> bool
    ensures { IsTrue result ↔ CanCarry key.now info.now }
{
    if key.kind > LOC_RIB || info.local.family() != key.address.family() {
        return false;
    }
    if !fit_in_parameter(&info.sent) || !fit_in_parameter(&info.received) {
        return false;
    }
    if key.kind != LOC_RIB {
        return !info.filtered && info.table.is_none();
    }
    key.address.family() == Family::V4 && is_short(&info.table)
}

// Whether a TLV has room for the table name.
fn is_short(table: &Option<ByteList>) -> bool
    ensures { IsTrue result ↔ (name_size table.now ≤ 65535) }
{
    match table {
        Some(name) => name.as_slice().len() <= 65535,
        None => true,
    }
}

/// Whether it has the four octets of a BGP Identifier (RFC 4271, section 4.2).
pub(crate) fn has_four_octets(identifier: [u8; 4]) -> bool
    ensures says { IsTrue result }
    ensures four { length identifier ≡ 4 }
{
    identifier.len() == 4
}

// Whether some body is read as the OPEN message.
fn is_some(message: &Open) -> bool
    ensures { IsTrue result ↔ IsSome message.now }
{
    if !has_four_octets(message.identifier) {
        // an identifier has four octets; the branch tells this to the proof
        unreachable!();
    }
    if message.extended {
        return announces_nothing(message);
    }
    are_families(message.families.as_slice())
}

// Whether it has no capability.
fn announces_nothing(message: &Open) -> bool
    ensures { IsTrue result ↔ (capabilities_size message.now ≡ 0) }
{
    if message.four.is_some() || message.families.as_slice().len() > 0 {
        return false;
    }
    message.paths.as_slice().len() == 0
}

// Whether a multiprotocol capability says all of each family.
fn are_families(families: &[Cap]) -> bool
    ensures { IsTrue result ↔ (map as_family families.now ≡ families.now) }
{
    for cap in families {
        if cap.value != 0 {
            return false;
        }
    }
    true
}

/// Whether `put_peer_up` can write it, and each OPEN message is one that some body is read as: the families say
/// nothing more, and one with extended parameters announces nothing.
pub fn can_peer_up(key: &PeerKey, info: &PeerInfo) -> bool
    ensures { IsTrue result ↔ (CanCarry key.now info.now × IsSome info.now.sent × IsSome info.now.received) }
{
    if !can_carry(key, info) || !is_some(&info.sent) {
        return false;
    }
    is_some(&info.received)
}
