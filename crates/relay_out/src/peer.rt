ghost use Rattle.std.specs.Prelude.{◌≡◌, [], ◌∷◌, map};
ghost use Rattle.std.specs.List.{AllByRecursion};
ghost use Rattle.relay_out.specs.Handed.{Hands};
ghost use Rattle.relay_out.specs.Messages.{completed, peer_items};
ghost use Rattle.relay_out.specs.Tables.{complete_among, complete_of, place, told_of_peer};

use crate::fault::EmitFault;
use crate::item::Item;
use crate::rows::{hand_rows, views};
use crate::takes::Takes;
use bgp_open::PeerInfo;
use bmp_frames::PeerKey;
use bmp_specs::{Family, View};
use peer_book::PeerBook;
use router_tables::RouterTables;

// Hands on a table of a peer, where it is complete.
fn hand_place<T: Takes>(
    book: &PeerBook,
    key: &PeerKey,
    view: View,
    family: Family,
    taker: &mut T,
) -> Result<(), EmitFault>
    requires { AllByRecursion T.may (map (completed key.now) (complete_among book.now key.now (place view family ∷ []))) }
    ensures { Hands T.of T.took T.stopped (map (completed key.now) (complete_among book.now key.now (place view family ∷ []))) taker.old result taker.new }
{
    if !book.is_complete(key, view, family) {
        return Ok(());
    }
    taker.take(&Item::Completes {
        key: *key,
        view,
        family,
    })
}

// Hands on the complete tables of a peer in a view.
fn hand_both<T: Takes>(
    book: &PeerBook,
    key: &PeerKey,
    view: View,
    taker: &mut T,
) -> Result<(), EmitFault>
    requires { AllByRecursion T.may (map (completed key.now) (complete_of book.now key.now (view ∷ []))) }
    ensures { Hands T.of T.took T.stopped (map (completed key.now) (complete_of book.now key.now (view ∷ []))) taker.old result taker.new }
{
    hand_place(book, key, view, Family::V4, taker)?;
    hand_place(book, key, view, Family::V6, taker)
}

// Hands on the complete tables of a peer in these views.
fn hand_complete<T: Takes>(
    book: &PeerBook,
    key: &PeerKey,
    views: &[View],
    taker: &mut T,
) -> Result<(), EmitFault>
    requires { AllByRecursion T.may (map (completed key.now) (complete_of book.now key.now views.now)) }
    ensures { Hands T.of T.took T.stopped (map (completed key.now) (complete_of book.now key.now views.now)) taker.old result taker.new }
{
    for view in views {
        hand_both(book, key, *view, taker)?;
    }
    Ok(())
}

/// Hands on what is told of a peer that is up.
pub(crate) fn hand_peer<T: Takes>(
    tables: &RouterTables,
    key: &PeerKey,
    info: &PeerInfo,
    taker: &mut T,
) -> Result<(), EmitFault>
    requires { AllByRecursion T.may (peer_items (told_of_peer tables.now key.now info.now)) }
    ensures { Hands T.of T.took T.stopped (peer_items (told_of_peer tables.now key.now info.now)) taker.old result taker.new }
{
    taker.take(&Item::BringsUp { key: *key, info })?;
    hand_rows(tables, key, info, taker)?;
    hand_complete(tables.peers(), key, views(), taker)
}
