ghost use Rattle.std.specs.Prelude.{◌≡◌, ℕ, List, [], ◌∷◌, true};
ghost use Rattle.std.specs.List.Sorted.{IsStrictlySortedBy};
ghost use Rattle.std.specs.Map.{keys_of};
ghost use Rattle.bmp_specs.specs.Orders.{key_cmp};
ghost use Rattle.bmp_specs.specs.PeerHeader.{views_of_key};
ghost use Rattle.bmp_specs.specs.Query.{marks};
ghost use Rattle.bmp_specs.specs.QueryReply.{AreLaneLines, MarkValue};
ghost use Rattle.peer_book.specs.Line.{line_value};
ghost use Rattle.router_tables.specs.Tables.{StandsFor};
ghost use Rattle.wire_io.specs.Writes.{Writes};
ghost use Rattle.query_eval.specs.Puts.{WritesLines, PutsLines};
ghost use Rattle.query_eval.specs.Selecting.{keeps_peer};
ghost use Rattle.query_eval.specs.Told.{states_in, mark_as, mark_of, plain_mark, view_marks, peer_marks, state_marks, marks_in, mark_lines};

use crate::peers::{is_up, next_peer};
use crate::selection::{is_peer_selected, is_table_selected};
use bmp_frames::PeerKey;
use bmp_specs::{Family, View};
use peer_book::{PeerBook, PeerLine};
use query_lang::Select;
use reply_text::put_mark;
use router_tables::RouterTables;
use wire_io::{Failed, Sink};

/// How marks are told: each by a line.
pub(crate) trait TellsMark {
    /// The line of a mark of a lane.
    ghost line: { Self → ℕ → MarkValue → List ℕ };

    /// Writes the line of a mark. A write that fails ends the call, after a front of the line.
    fn put_line<O: Sink>(
        &self,
        out: &mut O,
        lane: u32,
        key: &PeerKey,
        view: View,
        family: Family,
        complete: bool,
    ) -> Result<(), Failed>
        ensures { Writes O.faults O.told O.aside out.old (line self.now lane (mark_as key.now view family complete)) result out.new };
}

/// Each mark is told by its line alone.
#[derive(Clone, Copy)]
pub(crate) struct AsMarks;

impl TellsMark for AsMarks {
    ghost line = { λ _ lane. plain_mark lane };

    fn put_line<O: Sink>(
        &self,
        out: &mut O,
        lane: u32,
        key: &PeerKey,
        view: View,
        family: Family,
        complete: bool,
    ) -> Result<(), Failed> {
        put_mark(out, lane, key, view, family, complete)
    }
}

// The views of a Loc-RIB, and those of another peer (RFC 9069, section 4.1).
const LOC_RIB: [View; 1] = [View::Loc];

const ADJ_RIBS: [View; 4] = [View::InPre, View::InPost, View::OutPre, View::OutPost];

// The views of a peer, in their order.
fn views_of(key: &PeerKey) -> &'static [View]
    ensures { result.now ≡ views_of_key key.now }
{
    if key.kind == 3 { &LOC_RIB } else { &ADJ_RIBS }
}

// Writes the line of a mark of a peer that is asked for, where its view and family are.
fn put_selected<O: Sink, T: TellsMark>(
    out: &mut O,
    lane: u32,
    book: &PeerBook,
    key: &PeerKey,
    view: View,
    family: Family,
    select: &Select,
    tells: &T,
) -> Result<u64, Failed>
    requires { keeps_peer select.now.router select.now.peer lane key.now ≡ true }
    ensures { WritesLines O.faults O.told O.aside out.old (mark_lines (T.line tells.now) select.now lane (mark_of book.now key.now view family ∷ [])) result out.new }
{
    if !is_table_selected(select, view, family) {
        return Ok(0);
    }
    let complete = book.is_complete(key, view, family);
    tells.put_line(out, lane, key, view, family, complete)?;
    Ok(1)
}

// Writes those of the two families in a view.
fn put_view<O: Sink, T: TellsMark>(
    out: &mut O,
    lane: u32,
    book: &PeerBook,
    key: &PeerKey,
    view: View,
    select: &Select,
    tells: &T,
) -> Result<u64, Failed>
    requires { keeps_peer select.now.router select.now.peer lane key.now ≡ true }
    ensures { WritesLines O.faults O.told O.aside out.old (mark_lines (T.line tells.now) select.now lane (view_marks book.now key.now view)) result out.new }
{
    let first = put_selected(out, lane, book, key, view, Family::V4, select, tells)?;
    let second = put_selected(out, lane, book, key, view, Family::V6, select, tells)?;
    Ok(first.saturating_add(second))
}

// Writes those of some views.
fn put_views<O: Sink, T: TellsMark>(
    out: &mut O,
    lane: u32,
    book: &PeerBook,
    key: &PeerKey,
    views: &[View],
    select: &Select,
    tells: &T,
) -> Result<u64, Failed>
    requires { keeps_peer select.now.router select.now.peer lane key.now ≡ true }
    ensures { WritesLines O.faults O.told O.aside out.old (mark_lines (T.line tells.now) select.now lane (peer_marks book.now key.now views.now)) result out.new }
{
    let mut count: u64 = 0;
    for view in views {
        let lines = put_view(out, lane, book, key, *view, select, tells)?;
        count = count.saturating_add(lines);
    }
    Ok(count)
}

// Writes the lines of the marks of a peer, where it is up and asked for.
fn put_peer_marks<O: Sink, T: TellsMark>(
    out: &mut O,
    lane: u32,
    book: &PeerBook,
    line: &PeerLine<'_>,
    select: &Select,
    tells: &T,
) -> Result<u64, Failed>
    ensures { WritesLines O.faults O.told O.aside out.old (mark_lines (T.line tells.now) select.now lane (state_marks book.now (line_value line.now))) result out.new }
{
    if !is_up(line) {
        return Ok(0);
    }
    if !is_peer_selected(select.router, &select.peer, lane, &line.key) {
        return Ok(0);
    }
    put_views(
        out,
        lane,
        book,
        &line.key,
        views_of(&line.key),
        select,
        tells,
    )
}

/// Writes the lines of the marks of a book's peers that are up, and answers how many.
pub(crate) fn put_book<O: Sink, T: TellsMark>(
    out: &mut O,
    lane: u32,
    book: &PeerBook,
    select: &Select,
    tells: &T,
) -> Result<u64, Failed>
    ensures lines { WritesLines O.faults O.told O.aside out.old (mark_lines (T.line tells.now) select.now lane (marks_in book.now (states_in book.now))) result out.new }
    ensures ordered { IsStrictlySortedBy key_cmp (keys_of (states_in book.now)) }
{
    let mut count: u64 = 0;
    let mut place: Option<PeerKey> = None;
    while let Some(line) = next_peer(book, place) {
        let lines = put_peer_marks(out, lane, book, &line, select, tells)?;
        count = count.saturating_add(lines);
        place = Some(line.key);
    }
    Ok(count)
}

// Writes the lines of the marks of one lane, of each peer that is up in each of its views and of each family, where
// they are asked for, and answers how many they are.
pub(crate) fn put_marks<O: Sink>(
    out: &mut O,
    lane: u32,
    tables: &RouterTables,
    select: &Select,
) -> Result<u64, Failed>
    ensures { PutsLines O.faults O.told O.aside (StandsFor tables.now) (AreLaneLines (marks select.now) lane) out.old result out.new }
{
    put_book(out, lane, tables.peers(), select, &AsMarks)
}
