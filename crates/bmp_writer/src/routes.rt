//! A Route Monitoring message (RFC 7854, section 4.6).
ghost use Rattle.std.specs.Prelude.{◌≡◌, ◌≤◌, ◌<◌, ◌+◌, ◌↔◌, [], length, IsTrue, OnOk, OnErr, ◌++◌, ◌∷◌};
ghost use Rattle.bmp_specs.specs.PeerHeader.{IsViewOf, loc_rib};
ghost use Rattle.bmp_specs.specs.declared.wire.Family.{Family};
ghost use Rattle.bmp_writer.specs.Written.{Appends, IsWritten, Keeps, route_monitoring_type, unchanged};
ghost use Rattle.bmp_writer.specs.PeerMessage.{HasPlainHeader};
ghost use Rattle.bmp_writer.specs.WrittenRoutes.{CanCarryRoutes, HasUpWith, IsGiven, IsHeadersOf, IsRoutesMessage, family_of as family_at, ids_of, routes_effects, routes_size};
ghost use Rattle.bmp_writer.specs.WrittenUpdate.{CanPlace, places, update_size};
ghost use Rattle.bmp_writer.specs.declared.routes.TheConstants.{LONGEST};

use crate::common::{common_header, put};
use crate::draft::{Draft, Full};
use crate::peer::{PEER_HEADER, put_peer_header};
use crate::update::{put_field, put_update, size_of_update};
use bgp_update::NlriList;
use bmp_frames::{COMMON_HEADER, PeerKey, ROUTE_MONITORING, View};
use ip_prefix::{Family, Nlri};
use path_attrs::Attrs;
use wire_io::{ByteList, NoMemory};

/// The bytes of the common header and the Per-Peer Header.
const HEADERS: usize = 48;

/// Room for nearly all messages.
const SHORT: usize = 256;

/// The bytes of these headers and of the longest UPDATE without extended messages (RFC 4271, section 4.1).
const USUAL: usize = 4_144;

/// The bytes of these headers and of the longest UPDATE of all (RFC 8654, section 3).
const LONGEST: usize = 65_583;

/// The family of the first prefix.
pub(crate) fn family_of(withdrawn: &[Nlri], announced: &[Nlri]) -> Family
    ensures { result ≡ family_at (withdrawn.now ++ announced.now) }
{
    if !withdrawn.is_empty() {
        let first = &withdrawn[0];
        return first.prefix.addr().family();
    }
    if !announced.is_empty() {
        let first = &announced[0];
        return first.prefix.addr().family();
    }
    Family::V4
}

// The common header and the Per-Peer Header of a message with so many octets after them.
fn put_headers(out: &mut Draft<'_>, key: &PeerKey, view: View, size: usize) -> Result<(), Full>
    requires short { size ≤ 65535 }
    requires kind { key.now.kind ≤ loc_rib }
    requires family { key.now.kind ≡ loc_rib → key.now.address.family ≡ Family.V4 }
    requires view { IsViewOf key.now view }
    ensures ok { OnOk result (Appends (IsHeadersOf key.now view size) out.old out.new) }
    ensures err { OnErr result (Keeps out.old out.new) }
{
    let mut frame = [0u8; HEADERS];
    let length = COMMON_HEADER + PEER_HEADER + size as u32;
    let at = put(&mut frame, 0, &common_header(ROUTE_MONITORING, length));
    let at = put_peer_header(&mut frame, at, key, view);
    out.extend(&frame[..at])
}

// Appends the message. Its attributes are put together in this room.
fn put_message(
    out: &mut Draft<'_>,
    room: &mut [u8],
    key: &PeerKey,
    view: View,
    withdrawn: &[Nlri],
    announced: &[Nlri],
    attrs: &Attrs,
) -> Result<(), Full>
    requires { CanCarryRoutes key.now view withdrawn.now announced.now attrs.now }
    ensures { OnOk result (Appends (IsRoutesMessage key.now view withdrawn.now announced.now attrs.now) out.old out.new) }
{
    let family = family_of(withdrawn, announced);
    let mut field = Draft::new(room);
    put_field(&mut field, family, withdrawn, announced, attrs)?;
    let field = field.as_slice();
    let size = size_of_update(family, withdrawn, announced, attrs, field.len());
    put_headers(out, key, view, size)?;
    put_update(out, family, withdrawn, announced, attrs, field, size)
}

// Appends the message, or nothing where the rooms are too small. It is put together in the first, its attributes in the
// second.
fn put_within(
    out: &mut ByteList,
    room: &mut [u8],
    more: &mut [u8],
    key: &PeerKey,
    view: View,
    withdrawn: &[Nlri],
    announced: &[Nlri],
    attrs: &Attrs,
) -> Result<(), NoMemory>
    requires { CanCarryRoutes key.now view withdrawn.now announced.now attrs.now }
    ensures ok { OnOk result (Appends (IsRoutesMessage key.now view withdrawn.now announced.now attrs.now) out.old out.new) }
    ensures err { OnErr result (out.new ≡ out.old) }
{
    let mut draft = Draft::new(room);
    match put_message(&mut draft, more, key, view, withdrawn, announced, attrs) {
        Ok(()) => out.extend(draft.as_slice()),
        Err(Full) => Err(NoMemory),
    }
}

// Appends the message, or nothing where it is longer than N bytes or there is no memory.
#[inline(never)]
fn put_in<const N: usize>(
    out: &mut ByteList,
    key: &PeerKey,
    view: View,
    withdrawn: &[Nlri],
    announced: &[Nlri],
    attrs: &Attrs,
) -> Result<(), NoMemory>
    requires room { N ≤ LONGEST }
    requires carried { CanCarryRoutes key.now view withdrawn.now announced.now attrs.now }
    ensures ok { OnOk result (Appends (IsRoutesMessage key.now view withdrawn.now announced.now attrs.now) out.old out.new) }
    ensures err { OnErr result (out.new ≡ out.old) }
{
    let mut room = [0u8; N];
    let mut more = [0u8; N];
    put_within(
        out, &mut room, &mut more, key, view, withdrawn, announced, attrs,
    )
}

// Appends the message. Little room is tried first, since each byte of it is written before it is used.
fn put_whole(
    out: &mut ByteList,
    key: &PeerKey,
    view: View,
    withdrawn: &[Nlri],
    announced: &[Nlri],
    attrs: &Attrs,
) -> Result<(), NoMemory>
    requires { CanCarryRoutes key.now view withdrawn.now announced.now attrs.now }
    ensures ok { OnOk result (Appends (IsRoutesMessage key.now view withdrawn.now announced.now attrs.now) out.old out.new) }
    ensures err { OnErr result (out.new ≡ out.old) }
{
    if put_in::<SHORT>(out, key, view, withdrawn, announced, attrs).is_ok() {
        return Ok(());
    }
    if put_in::<USUAL>(out, key, view, withdrawn, announced, attrs).is_ok() {
        return Ok(());
    }
    put_in::<LONGEST>(out, key, view, withdrawn, announced, attrs)
}

/// Appends a Route Monitoring message with one UPDATE, which withdraws prefixes and then announces others with these
/// attributes (RFC 7854, section 4.6; RFC 4271, section 4.3). All prefixes have one family, and all have a path
/// identifier or none has. IPv4 announcements whose next hop is absent or has four bytes stand in "Network Layer
/// Reachability Information", all others in MP_REACH_NLRI (RFC 4760). Whoever reads it where the peer is up, and where
/// prefixes of the family have identifiers exactly where these have, reads these withdrawals and then these
/// announcements, if the attributes are some that a field can have. After `NoMemory` the list is as before.
pub fn put_routes(
    out: &mut ByteList,
    key: &PeerKey,
    view: View,
    withdrawn: &NlriList,
    announced: &NlriList,
    attrs: &Attrs,
) -> Result<(), NoMemory>
    requires { CanCarryRoutes key.now view withdrawn.now announced.now attrs.now }
    ensures ok { OnOk result (IsGiven attrs.now → Appends (IsWritten route_monitoring_type
        (HasUpWith key.now view (family_at (withdrawn.now ++ announced.now)) (ids_of (withdrawn.now ++ announced.now)))
        (routes_effects key.now view withdrawn.now announced.now attrs.now) unchanged) out.old out.new) }
    ensures bytes { OnOk result (Appends (IsRoutesMessage key.now view withdrawn.now announced.now attrs.now) out.old out.new) }
    ensures size { OnOk result (length out.new ≡ length out.old + routes_size withdrawn.now announced.now attrs.now) }
    ensures plain { OnOk result (Appends HasPlainHeader out.old out.new) }
    ensures err { OnErr result (out.new ≡ out.old) }
{
    put_whole(
        out,
        key,
        view,
        withdrawn.as_slice(),
        announced.as_slice(),
        attrs,
    )
}
