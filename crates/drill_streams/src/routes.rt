//! The Route Monitoring messages of a stream (RFC 7854, section 4.6).
ghost use Rattle.std.specs.Prelude.{◌≡◌, [], ◌∷◌, IfOk, OnOk};
ghost use Rattle.bmp_specs.specs.declared.peers.View.{View};
ghost use Rattle.bmp_writer.specs.Written.{Appends};
ghost use Rattle.bmp_writer.specs.WrittenRoutes.{IsRoutesMessage};
ghost use Rattle.bmp_specs.specs.TreatAsWithdraw.{no_attributes as nothing};
ghost use Rattle.drill_streams.specs.Drawn.{attrs_of as attrs_at, peer_of as peer_at, prefix_of as prefix_at};
ghost use Rattle.drill_streams.specs.Peers.{peer_key};

use crate::peers::key_of;
use crate::words::{attrs_of, peer_of, prefix_of};
use bgp_update::NlriList;
use bmp_frames::View;
use bmp_writer::put_routes;
use path_attrs::Attrs;
use std::alloc::Global;
use wire_io::{ByteList, NoMemory};

// The list of the word's prefix.
fn list_of(alloc: Global, word: u32) -> Result<NlriList, NoMemory>
    ensures { IfOk result (λ list. list ≡ prefix_at word ∷ []) }
{
    NlriList::from_slice(alloc, &[prefix_of(word)])
}

/// Appends the withdrawal of the word's prefix.
pub(crate) fn put_withdrawal(out: &mut ByteList, alloc: Global, word: u32) -> Result<(), NoMemory>
    ensures { OnOk result (Appends (IsRoutesMessage (peer_key (peer_at word)) View.InPre (prefix_at word ∷ []) [] nothing) out.old out.new) }
{
    put_routes(
        out,
        &key_of(peer_of(word)),
        View::InPre,
        &list_of(alloc, word)?,
        &NlriList::new(alloc),
        &Attrs::none(alloc),
    )
}

/// Appends the announcement of the word's prefix.
pub(crate) fn put_announcement(out: &mut ByteList, alloc: Global, word: u32) -> Result<(), NoMemory>
    ensures { OnOk result (Appends (IsRoutesMessage (peer_key (peer_at word)) View.InPre [] (prefix_at word ∷ []) (attrs_at word)) out.old out.new) }
{
    put_routes(
        out,
        &key_of(peer_of(word)),
        View::InPre,
        &NlriList::new(alloc),
        &list_of(alloc, word)?,
        &attrs_of(alloc, word)?,
    )
}
