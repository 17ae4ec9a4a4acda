//! What a word stands for.
ghost use Rattle.std.specs.Prelude.{◌≡◌, ◌<◌, IfOk};
ghost use Rattle.drill_streams.specs.Drawn.{attrs_of as attrs_at, choice_of as choice_at, peer_of as peer_at, path_of as path_at, prefix_of as prefix_at};
ghost use Rattle.drill_streams.specs.Peers.{peer_octets};

use crate::peers::{as_of, octets_of};
use as_path::{AsPath, Numbers, Segment, SegmentKind};
use ip_prefix::{Addr, Nlri, Prefix};
use path_attrs::{Attrs, OtherList};
use std::alloc::Global;
use wire_io::{ByteList, NoMemory};

/// ORIGIN: IGP (RFC 4271, section 5.1.1).
const IGP: u8 = 0;

/// The first of the AS numbers after the peer's.
const BEHIND: u32 = 65000;

/// The peer that the message is for.
pub(crate) fn peer_of(word: u32) -> u8
    ensures same { result ≡ peer_at word }
    ensures few { result < 4 }
{
    (word % 4) as u8
}

/// Which message it is, of sixteen choices.
pub(crate) fn choice_of(word: u32) -> u8
    ensures { result ≡ choice_at word }
{
    (word / 4 % 16) as u8
}

/// The prefix that is withdrawn or announced.
pub(crate) fn prefix_of(word: u32) -> Nlri
    ensures { result ≡ prefix_at word }
{
    let third = (word / 64 % 256) as u8;
    let fourth = (word / 16384 % 16) as u8;
    match Prefix::new(Addr::v4([10, third, fourth, 0]), 24) {
        Some(prefix) => Nlri { prefix, id: None },
        // an IPv4 prefix of 24 bits is one
        None => unreachable!(),
    }
}

// AS_PATH: the peer's AS, and one after it.
fn path_of(alloc: Global, word: u32) -> Result<AsPath, NoMemory>
    ensures { IfOk result (λ path. path ≡ path_at word) }
{
    let numbers = [as_of(peer_of(word)) as u32, BEHIND + word / 262144 % 64];
    let mut path = AsPath::new(alloc);
    path.push(Segment {
        kind: SegmentKind::Sequence,
        numbers: Numbers::from_slice(alloc, &numbers)?,
    })?;
    Ok(path)
}

// NEXT_HOP: the peer's address.
fn hop_of(alloc: Global, word: u32) -> Result<ByteList, NoMemory>
    ensures { IfOk result (λ hop. hop ≡ peer_octets (peer_at word)) }
{
    let mut hop = ByteList::new(alloc);
    hop.extend(&octets_of(peer_of(word)))?;
    Ok(hop)
}

/// The attributes with which the prefix is announced.
pub(crate) fn attrs_of(alloc: Global, word: u32) -> Result<Attrs, NoMemory>
    ensures { IfOk result (λ attrs. attrs ≡ attrs_at word) }
{
    Ok(Attrs {
        origin: Some(IGP),
        path: Some(path_of(alloc, word)?),
        hop: Some(hop_of(alloc, word)?),
        med: None,
        pref: None,
        atomic: false,
        aggregator: None,
        communities: Numbers::new(alloc),
        others: OtherList::new(alloc),
    })
}
