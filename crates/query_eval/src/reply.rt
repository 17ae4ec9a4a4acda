//! The reply to what is asked.
ghost use Rattle.std.specs.Prelude.{◌≡◌, ◌≢◌, [], List, length, OnOk, IfSome, IsNone};
ghost use Rattle.ask_specs.specs.Asking.{plain};
ghost use Rattle.ask_specs.specs.AskReply.{IsAskReply, IsAskedCount};
ghost use Rattle.ask_specs.specs.Traits.{no_traits};
ghost use Rattle.bmp_specs.specs.Query.{count, quit};
ghost use Rattle.cut_publisher.specs.declared.history.Event.{Event};
ghost use Rattle.query_lang.specs.Asks.{ask_value};
ghost use Rattle.query_lang.specs.Queries.{query_value};
ghost use Rattle.query_lang.specs.TraitValues.{traits_value};
ghost use Rattle.rib_model.specs.declared.entry.Entry.{Entry};
ghost use Rattle.wire_io.specs.Faults.{HasCause};
ghost use Rattle.query_eval.specs.Puts.{PutsLines};
ghost use Rattle.query_eval.specs.Replies.{PutsBuffered, PutsText, PutsReply, StandForLanes, StandsForHistory, AreAskLines, AsksByLane, AsksCount, IsAskReplyOn, TellsByLane};

use crate::lanes::{count_all, put_lanes};
use cut_publisher::Cut;
use query_lang::{Ask, Query, Select, Traits};
use reply_text::{put_at, put_count, put_end};
use router_tables::RouterTables;
use wire_io::{BufferedSink, Failed, Puts, Sink, through_buffer};

// The selectors of a query that asks for the number of rows alone; it names none of path attributes.
fn counted(query: &Query) -> Option<(Select, Traits)>
    requires { query_value query.now ≢ quit }
    ensures some { IfSome result (λ r. (query_value query.now ≡ count r.0) × (traits_value r.1 ≡ no_traits)) }
    ensures none { IsNone result → TellsByLane (query_value query.now) }
{
    match query {
        Query::Count(select) => Some((*select, Traits::none())),
        _ => None,
    }
}

// The same of what is asked.
fn count_asked(ask: &Ask) -> Option<(Select, Traits)>
    requires { ask_value ask.now ≢ plain quit }
    ensures some { IfSome result (λ r. AsksCount (ask_value ask.now) r.0 (traits_value r.1)) }
    ensures none { IsNone result → AsksByLane (ask_value ask.now) }
{
    match ask {
        Ask::Query(query) => counted(query),
        Ask::Rows(_) => None,
        Ask::Count(select, traits) => Some((*select, *traits)),
        Ask::Changes { .. } => None,
        Ask::FullMarks(_) => None,
        Ask::FullRouters => None,
    }
}

// Writes the number of rows of all lanes, and answers that it is one line.
fn put_row_count<O: Sink>(
    out: &mut O,
    cut: &Cut<RouterTables>,
    select: &Select,
    traits: &Traits,
) -> Result<u64, Failed>
    ensures { PutsLines O.faults O.told O.aside (StandForLanes cut.now) (IsAskedCount select.now (traits_value traits.now)) out.old result out.new }
{
    put_count(out, count_all(cut, select, traits))?;
    Ok(1)
}

// Writes the lines between the first and the last of a reply, and answers how many they are.
fn put_lines<O: Sink>(out: &mut O, cut: &Cut<RouterTables>, ask: &Ask) -> Result<u64, Failed>
    requires { ask_value ask.now ≢ plain quit }
    ensures { PutsLines O.faults O.told O.aside (StandForLanes cut.now) (AreAskLines (ask_value ask.now)) out.old result out.new }
{
    match count_asked(ask) {
        Some(counted) => put_row_count(out, cut, &counted.0, &counted.1),
        None => put_lanes(out, cut, ask),
    }
}

// Writes a reply, by the entries of each lane.
fn put_reply<O: Sink>(out: &mut O, cut: &Cut<RouterTables>, ask: &Ask) -> Result<(), Failed>
    requires { ask_value ask.now ≢ plain quit }
    ensures { PutsText O.faults O.told O.aside (StandForLanes cut.now) (IsAskReply (ask_value ask.now)) out.old result out.new }
{
    put_at(out, cut.rev())?;
    let rows = put_lines(out, cut, ask)?;
    put_end(out, rows)
}

// The reply to what is asked, on a cut.
struct Reply<'a> {
    cut: &'a Cut<RouterTables>,
    ask: &'a Ask,
}

impl<O: Sink> Puts<O> for Reply<'_> {
    ghost may_put = { λ reply. ask_value reply.ask.now ≢ plain quit };

    ghost leaves = { λ reply. PutsBuffered O.faults O.told O.aside (StandForLanes reply.cut.now) (IsAskReply (ask_value reply.ask.now)) };

    fn put(self, buffer: &mut BufferedSink<O>) -> Result<(), Failed> {
        let Reply { cut, ask } = self;
        put_reply(buffer, cut, ask)
    }
}

// Writes a reply through a buffer of its own.
fn put_buffered<O: Sink>(out: &mut O, cut: &Cut<RouterTables>, ask: &Ask) -> Result<(), Failed>
    requires { ask_value ask.now ≢ plain quit }
    ensures { PutsText O.faults O.told O.aside (StandForLanes cut.now) (IsAskReply (ask_value ask.now)) out.old result out.new }
{
    through_buffer(out, Reply { cut, ask })
}

/// Writes the reply to what a line asks: the revision of the cut, the lines that are asked for, lane after
/// lane, and their number, at most 2^64 - 1. It is the reply on every history that the cut stands for. What
/// is asked isn't the end of a session. A write that fails ends the call; a front of the reply was then
/// written.
///
/// The lines go through a buffer, which is handed on at the end. It takes no memory.
pub fn answer<O: Sink>(cut: &Cut<RouterTables>, ask: &Ask, out: &mut O) -> Result<(), Failed>
    requires { ask_value ask.now ≢ plain quit }
    ensures reply { (history : List (Event Entry)) → StandsForHistory cut.now history
        → PutsReply O.faults O.told O.aside (IsAskReplyOn (ask_value ask.now) (length cut.now) history) out.old result out.new }
    ensures kept { O.aside out.new ≡ O.aside out.old }
    ensures cause { HasCause (O.faults out.old) (O.faults out.new) result }
{
    put_buffered(out, cut, ask)
}
