ghost use Rattle.std.specs.Prelude.{◌≡◌, [], ◌∷◌, flat_map, slice_get};
ghost use Rattle.std.specs.List.{AllByRecursion};
ghost use Rattle.std.specs.List.Sorted.{IsStrictlySortedBy};
ghost use Rattle.std.specs.Map.{keys_of};
ghost use Rattle.std.specs.Option.{option_map};
ghost use Rattle.bmp_specs.specs.Orders.{key_cmp};
ghost use Rattle.peer_book.specs.Line.{line_value};
ghost use Rattle.query_eval.specs.Later.{later};
ghost use Rattle.relay_out.specs.Handed.{Hands};
ghost use Rattle.relay_out.specs.Messages.{peer_items, stream_items};
ghost use Rattle.query_eval.specs.Told.{states_in};
ghost use Rattle.relay_out.specs.Tables.{stream_of, told_of_state};

use crate::fault::EmitFault;
use crate::item::Item;
use crate::peer::hand_peer;
use crate::takes::Takes;
use bmp_frames::PeerKey;
use peer_book::{PeerBook, PeerLine, PeerState};
use router_tables::RouterTables;

// The first peer after a place, or the first of all.
fn next_peer<'a>(book: &'a PeerBook, place: Option<PeerKey>) -> Option<PeerLine<'a>>
    ensures first { option_map line_value result ≡ slice_get (later key_cmp place (states_in book.now)) 0 }
    ensures ordered { IsStrictlySortedBy key_cmp (keys_of (states_in book.now)) }
{
    match place {
        None => book.after(None),
        Some(place) => book.after(Some(&place)),
    }
}

// Hands on what is told of a peer, where it is up.
fn hand_line<T: Takes>(
    tables: &RouterTables,
    line: &PeerLine<'_>,
    taker: &mut T,
) -> Result<(), EmitFault>
    requires { AllByRecursion T.may (flat_map peer_items (told_of_state tables.now (line_value line.now))) }
    ensures { Hands T.of T.took T.stopped (flat_map peer_items (told_of_state tables.now (line_value line.now))) taker.old result taker.new }
{
    match line.state {
        PeerState::Up(info) => hand_peer(tables, &line.key, info, taker),
        PeerState::Down(_) => Ok(()),
    }
}

// Hands on what is told of the peers of a book that are up, one after another.
fn hand_book<T: Takes>(
    tables: &RouterTables,
    book: &PeerBook,
    taker: &mut T,
) -> Result<(), EmitFault>
    requires { AllByRecursion T.may (flat_map peer_items (flat_map (told_of_state tables.now) (states_in book.now))) }
    ensures hands { Hands T.of T.took T.stopped (flat_map peer_items (flat_map (told_of_state tables.now) (states_in book.now))) taker.old result taker.new }
    ensures ordered { IsStrictlySortedBy key_cmp (keys_of (states_in book.now)) }
{
    let mut place: Option<PeerKey> = None;
    while let Some(line) = next_peer(book, place) {
        hand_line(tables, &line, taker)?;
        place = Some(line.key);
    }
    Ok(())
}

// Hands on what is told of all peers that are up, one after another.
fn hand_peers<T: Takes>(tables: &RouterTables, taker: &mut T) -> Result<(), EmitFault>
    requires { AllByRecursion T.may (flat_map peer_items (stream_of tables.now).peers) }
    ensures { Hands T.of T.took T.stopped (flat_map peer_items (stream_of tables.now).peers) taker.old result taker.new }
{
    hand_book(tables, tables.peers(), taker)
}

/// Hands on what the messages of a relayed stream tell, one after another.
pub(crate) fn hand_all<T: Takes>(tables: &RouterTables, taker: &mut T) -> Result<(), EmitFault>
    requires { AllByRecursion T.may (stream_items (stream_of tables.now)) }
    ensures { Hands T.of T.took T.stopped (stream_items (stream_of tables.now)) taker.old result taker.new }
{
    taker.take(&Item::Tells {
        name: tables.name(),
        description: tables.descr(),
    })?;
    hand_peers(tables, taker)
}
