ghost use Rattle.std.specs.Prelude.{◌≡◌, [], ◌∷◌, slice_get};
ghost use Rattle.std.specs.List.Sorted.{IsStrictlySortedBy};
ghost use Rattle.std.specs.Map.{keys_of};
ghost use Rattle.std.specs.Option.{option_map};
ghost use Rattle.bmp_specs.specs.Orders.{key_cmp};
ghost use Rattle.bmp_specs.specs.Query.{peers};
ghost use Rattle.bmp_specs.specs.QueryReply.{AreLaneLines};
ghost use Rattle.peer_book.specs.Line.{line_value};
ghost use Rattle.router_tables.specs.Tables.{StandsFor};
ghost use Rattle.query_eval.specs.Later.{later};
ghost use Rattle.query_eval.specs.Puts.{WritesLines, PutsLines};
ghost use Rattle.query_eval.specs.Told.{states_in, state_lines, is_up_state};

use crate::selection::is_peer_selected;
use bmp_frames::PeerKey;
use peer_book::{PeerBook, PeerLine, PeerState};
use reply_text::put_peer;
use router_tables::RouterTables;
use wire_io::{Failed, Sink};

// The first peer after a place, or the first of all.
pub(crate) fn next_peer<'a>(book: &'a PeerBook, place: Option<PeerKey>) -> Option<PeerLine<'a>>
    ensures first { option_map line_value result ≡ slice_get (later key_cmp place (states_in book.now)) 0 }
    ensures ordered { IsStrictlySortedBy key_cmp (keys_of (states_in book.now)) }
{
    match place {
        None => book.after(None),
        Some(place) => book.after(Some(&place)),
    }
}

// Whether a peer is up.
pub(crate) fn is_up(line: &PeerLine<'_>) -> bool
    ensures { result ≡ is_up_state (line_value line.now) }
{
    match line.state {
        PeerState::Up(_) => true,
        PeerState::Down(_) => false,
    }
}

// Writes the line of a peer, where it is asked for.
fn put_selected<O: Sink>(
    out: &mut O,
    lane: u32,
    line: &PeerLine<'_>,
    router: Option<u32>,
    peer: &Option<PeerKey>,
) -> Result<u64, Failed>
    ensures { WritesLines O.faults O.told O.aside out.old (state_lines router peer.now lane (line_value line.now ∷ [])) result out.new }
{
    if !is_peer_selected(router, peer, lane, &line.key) {
        return Ok(0);
    }
    put_peer(out, lane, line)?;
    Ok(1)
}

// Writes the lines of the peers of a book that are asked for.
fn put_book<O: Sink>(
    out: &mut O,
    lane: u32,
    book: &PeerBook,
    router: Option<u32>,
    peer: &Option<PeerKey>,
) -> Result<u64, Failed>
    ensures lines { WritesLines O.faults O.told O.aside out.old (state_lines router peer.now lane (states_in book.now)) result out.new }
    ensures ordered { IsStrictlySortedBy key_cmp (keys_of (states_in book.now)) }
{
    let mut count: u64 = 0;
    let mut place: Option<PeerKey> = None;
    while let Some(line) = next_peer(book, place) {
        let lines = put_selected(out, lane, &line, router, peer)?;
        count = count.saturating_add(lines);
        place = Some(line.key);
    }
    Ok(count)
}

// Writes the lines of the peers of one lane that are asked for, those that are down too, and answers how many they are.
pub(crate) fn put_peers<O: Sink>(
    out: &mut O,
    lane: u32,
    tables: &RouterTables,
    router: Option<u32>,
    peer: &Option<PeerKey>,
) -> Result<u64, Failed>
    ensures { PutsLines O.faults O.told O.aside (StandsFor tables.now) (AreLaneLines (peers router peer.now) lane) out.old result out.new }
{
    put_book(out, lane, tables.peers(), router, peer)
}
