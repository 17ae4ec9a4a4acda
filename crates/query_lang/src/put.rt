ghost use Rattle.std.specs.Prelude.{◌≡◌, ◌∷◌, ◌++◌, [], codes};
ghost use Rattle.bmp_specs.specs.NumberText.{number_text, IsNumberText};
ghost use Rattle.bmp_specs.specs.PeerText.{key_text, view_text, IsKeyText, IsViewText};
ghost use Rattle.bmp_specs.specs.Query.{changes, IsFamilyText, IsSelector, ArePeerSelectors, AreSelectors, AreQueryWords, IsQuery};
ghost use Rattle.query_lang.specs.Queries.{query_value};
ghost use Rattle.query_lang.specs.QueryText.{family_text, selector_words, peer_selector_words, select_words, query_words, spaced, query_text};
ghost use Rattle.wire_io.specs.Writes.{Writes};

use crate::query::Query;
use crate::select::Select;
use bmp_frames::{PeerKey, ViewText};
use bmp_specs::{Family, View};
use ip_prefix::{Prefix, ShortText};
use wire_io::{Failed, Sink, write_all, write_pieces};

// The digits of a number.
fn digits(number: u64) -> ShortText
    ensures { result ≡ number_text number }
{
    let mut text = ShortText::new();
    text.put_number(number);
    text
}

// `router N` after a space, as its word and its text; nothing where no router is named.
fn router_pieces(router: Option<u32>) -> (&'static [u8], ShortText)
    ensures whole { result.0.now ++ result.1 ≡ spaced (selector_words (codes "router") number_text router) }
    ensures read_back { IsSelector (codes "router") IsNumberText router (selector_words (codes "router") number_text router) }
{
    match router {
        Some(number) => (b" router ", digits(number as u64)),
        None => (b"", ShortText::new()),
    }
}

// `peer KEY`, in the same way.
fn peer_pieces(peer: &Option<PeerKey>) -> (&'static [u8], ShortText)
    ensures whole { result.0.now ++ result.1 ≡ spaced (selector_words (codes "peer") key_text peer.now) }
    ensures read_back { IsSelector (codes "peer") IsKeyText peer.now (selector_words (codes "peer") key_text peer.now) }
{
    match peer {
        Some(key) => (b" peer ", key.text()),
        None => (b"", ShortText::new()),
    }
}

// `view V`, in the same way.
fn view_pieces(view: Option<View>) -> (&'static [u8], ShortText)
    ensures whole { result.0.now ++ result.1 ≡ spaced (selector_words (codes "view") view_text view) }
    ensures read_back { IsSelector (codes "view") IsViewText view (selector_words (codes "view") view_text view) }
{
    match view {
        Some(view) => (b" view ", view.text()),
        None => (b"", ShortText::new()),
    }
}

// `family F`, after a space; nothing where no family is named.
fn family_piece(family: Option<Family>) -> &'static [u8]
    ensures whole { result.now ≡ spaced (selector_words (codes "family") family_text family) }
    ensures read_back { IsSelector (codes "family") IsFamilyText family (selector_words (codes "family") family_text family) }
{
    match family {
        Some(Family::V4) => b" family 4",
        Some(Family::V6) => b" family 6",
        None => b"",
    }
}

// Writes `peers` and its selectors.
fn put_peers<O: Sink>(
    out: &mut O,
    router: Option<u32>,
    peer: &Option<PeerKey>,
) -> Result<(), Failed>
    ensures written { Writes O.faults O.told O.aside out.old (codes "peers" ++ spaced (peer_selector_words router peer.now)) result out.new }
    ensures read_back { ArePeerSelectors router peer.now (peer_selector_words router peer.now) }
{
    let (router_word, router) = router_pieces(router);
    let (peer_word, peer) = peer_pieces(peer);
    write_pieces(
        out,
        &[
            b"peers",
            router_word,
            router.as_slice(),
            peer_word,
            peer.as_slice(),
        ],
    )
}

// Writes a front, the text of what is sought and the selectors.
fn put_sought<O: Sink>(
    out: &mut O,
    front: &'static [u8],
    text: ShortText,
    select: &Select,
) -> Result<(), Failed>
    ensures written { Writes O.faults O.told O.aside out.old (front.now ++ (text ++ spaced (select_words select.now))) result out.new }
    ensures read_back { AreSelectors select.now (select_words select.now) }
{
    let (router_word, router) = router_pieces(select.router);
    let (peer_word, peer) = peer_pieces(&select.peer);
    let (view_word, view) = view_pieces(select.view);
    let family = family_piece(select.family);
    write_pieces(
        out,
        &[
            front,
            text.as_slice(),
            router_word,
            router.as_slice(),
            peer_word,
            peer.as_slice(),
            view_word,
            view.as_slice(),
            family,
        ],
    )
}

// Writes `changes`, a lane, the number of a step and a prefix.
fn put_changes<O: Sink>(out: &mut O, lane: u32, from: u64, prefix: &Prefix) -> Result<(), Failed>
    ensures written { Writes O.faults O.told O.aside out.old (query_text (changes lane from prefix.now)) result out.new }
    ensures read_back { AreQueryWords (changes lane from prefix.now) (query_words (changes lane from prefix.now)) }
{
    let prefix = prefix.text();
    let lane = digits(lane as u64);
    let from = digits(from);
    write_pieces(
        out,
        &[
            b"changes ",
            lane.as_slice(),
            b" ",
            from.as_slice(),
            b" ",
            prefix.as_slice(),
        ],
    )
}

impl Query {
    /// Writes the one canonical line of the query, without its end: each text as it is printed. `parse` of
    /// the line gives the query again. Where a write fails, a front of the line was written.
    pub fn put_text<O: Sink>(&self, out: &mut O) -> Result<(), Failed>
        ensures written { Writes O.faults O.told O.aside out.old (query_text (query_value self.now)) result out.new }
        ensures read_back { IsQuery (query_text (query_value self.now)) (query_value self.now) }
    {
        match self {
            Query::Routers => write_all(out, b"routers"),
            Query::Cut => write_all(out, b"cut"),
            Query::Peers { router, peer } => put_peers(out, *router, peer),
            Query::Marks(select) => put_sought(out, b"marks", ShortText::new(), select),
            Query::Table(select) => put_sought(out, b"table", ShortText::new(), select),
            Query::Count(select) => put_sought(out, b"count", ShortText::new(), select),
            Query::Exact(prefix, select) => { put_sought(out, b"prefix ", prefix.text(), select) }
            Query::Longest(address, select) => {
                put_sought(out, b"match ", address.text(), select)
            }
            Query::Within(prefix, select) => { put_sought(out, b"within ", prefix.text(), select) }
            Query::Origin(number, select) => {
                put_sought(out, b"origin ", digits(*number as u64), select)
            }
            Query::Stats(key) => write_pieces(out, &[b"stats ", key.text().as_slice()]),
            Query::Changes { lane, from, prefix } => put_changes(out, *lane, *from, prefix),
            Query::Quit => write_all(out, b"quit"),
        }
    }
}
