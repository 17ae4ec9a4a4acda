//! The message of a word.
ghost use Rattle.std.specs.Prelude.{◌≡◌, ◌<◌, true, false, [], ◌∷◌, OnOk};
ghost use Rattle.bmp_specs.specs.declared.peers.View.{View};
ghost use Rattle.bmp_writer.specs.Written.{Appends, peer_down_type};
ghost use Rattle.bmp_writer.specs.PeerMessage.{IsPeerMessage};
ghost use Rattle.drill_streams.specs.Messages.{IsMessageOf, IsUp, closed_remotely};
ghost use Rattle.drill_streams.specs.Peers.{peer_key};

use crate::peers::{info_of, key_of};
use crate::routes::{put_announcement, put_withdrawal};
use crate::words::{choice_of, peer_of};
use bmp_frames::View;
use bmp_writer::{put_mark, put_peer_down, put_peer_up};
use ip_prefix::Family;
use std::alloc::Global;
use wire_io::{ByteList, NoMemory};

/// "Reason: 4": "The remote system closed the session without a notification message" (RFC 7854, section 4.9).
const CLOSED_REMOTELY: u8 = 4;

/// Appends the Peer Up Notification of the peer.
pub(crate) fn put_up(out: &mut ByteList, alloc: Global, peer: u8) -> Result<(), NoMemory>
    requires { peer < 4 }
    ensures { OnOk result (Appends (λ bytes. IsUp bytes peer) out.old out.new) }
{
    put_peer_up(out, &key_of(peer), &info_of(alloc, peer))
}

// Appends the Peer Down Notification of the peer.
fn put_down(out: &mut ByteList, peer: u8) -> Result<(), NoMemory>
    requires { peer < 4 }
    ensures { OnOk result (Appends (IsPeerMessage peer_down_type (peer_key peer) View.InPre (closed_remotely ∷ [])) out.old out.new) }
{
    put_peer_down(out, &key_of(peer), CLOSED_REMOTELY)
}

/// Appends the message of a word, where its peer is up or down in front of it.
pub(crate) fn put_message(
    out: &mut ByteList,
    alloc: Global,
    word: u32,
    is_up: bool,
) -> Result<(), NoMemory>
    ensures { OnOk result (Appends (IsMessageOf is_up word) out.old out.new) }
{
    let peer = peer_of(word);
    match choice_of(word) {
        0 if is_up => put_down(out, peer),
        0 => put_up(out, alloc, peer),
        1 => put_mark(out, &key_of(peer), View::InPre, Family::V4),
        2..=5 => put_withdrawal(out, alloc, word),
        _ => put_announcement(out, alloc, word),
    }
}
