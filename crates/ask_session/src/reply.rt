ghost use Rattle.std.specs.Prelude.{◌≡◌, ◌≢◌, ◌↔◌, true, false, IsTrue};
ghost use Rattle.ask_specs.specs.Asking.{plain};
ghost use Rattle.bmp_specs.specs.Query.{quit};
ghost use Rattle.query_lang.specs.Asks.{ask_value};
ghost use Rattle.query_eval.specs.Replies.{IsAskReplyOn};
ghost use Rattle.ask_session.specs.Replies.{error_line, error_query};
ghost use Rattle.ask_session.specs.Sessions.{Sees};
ghost use Rattle.ask_session.specs.Hearing.{Answers, HasReplied, Replied};

use crate::close::Close;
use crate::line::MOST_LINE;
use cut_publisher::{AskPass, snapshot};
use query_eval::answer;
use query_lang::{Ask, Query, parse_ask};
use router_tables::RouterTables;
use station_doors::Link;
use wire_io::{Sink, write_all};

fn refuse_line<O: Sink>(out: &mut O) -> Option<Close>
    ensures answers { Answers result true error_line (O.told out.old) (O.told out.new) (O.faults out.old) (O.faults out.new) }
    ensures kept { O.aside out.new ≡ O.aside out.old }
{
    match write_all(out, b"error line\n") {
        Ok(()) => Some(Close::Over),
        Err(_) => Some(Close::WriteFault),
    }
}

fn refuse_query<O: Sink>(out: &mut O) -> Option<Close>
    ensures answers { Answers result false error_query (O.told out.old) (O.told out.new) (O.faults out.old) (O.faults out.new) }
    ensures kept { O.aside out.new ≡ O.aside out.old }
{
    match write_all(out, b"error query\n") {
        Ok(()) => None,
        Err(_) => Some(Close::WriteFault),
    }
}

fn is_quit(ask: &Ask) -> bool
    ensures { IsTrue result ↔ (ask_value ask.now ≡ plain quit) }
{
    match ask {
        Ask::Query(Query::Quit) => true,
        _ => false,
    }
}

// Answers what is asked of the cut that the pass keeps.
fn put_reply<O: Sink>(out: &mut O, pass: &AskPass<RouterTables>, ask: &Ask) -> Option<Close>
    requires { ask_value ask.now ≢ plain quit }
    ensures replied { HasReplied (IsAskReplyOn (ask_value ask.now) pass.now.station.lanes pass.now.seen) result (O.told out.old) (O.told out.new) (O.faults out.old) (O.faults out.new) }
    ensures kept { O.aside out.new ≡ O.aside out.old }
{
    match answer(pass.cut(), ask, out) {
        Ok(()) => None,
        Err(_) => Some(Close::WriteFault),
    }
}

// Answers a line of the cut that the pass keeps, and tells how the connection ended, if it did.
fn answer_line<O: Sink>(out: &mut O, pass: &AskPass<RouterTables>, line: &[u8]) -> Option<Close>
    ensures replied { Replied pass.now.station.lanes line.now pass.now.seen (O.told out.old) (O.told out.new) (O.faults out.old) (O.faults out.new) result }
    ensures kept { O.aside out.new ≡ O.aside out.old }
{
    if line.len() > MOST_LINE {
        return refuse_line(out);
    }
    match parse_ask(line) {
        None => refuse_query(out),
        Some(ask) => {
            if is_quit(&ask) {
                return Some(Close::Over);
            }
            put_reply(out, pass, &ask)
        }
    }
}

/// Takes a snapshot, answers a line from it, and tells how the connection ended, if it did. The reply is handed on
/// before it returns.
pub fn reply_to<K: Link>(
    pass: &mut AskPass<RouterTables>,
    link: &mut K,
    line: &[u8],
) -> Option<Close>
    ensures sees { Sees pass.old pass.new }
    ensures replied { Replied pass.old.station.lanes line.now pass.new.seen (K.told link.old) (K.told link.new) (K.faults link.old) (K.faults link.new) result }
    ensures kept { K.aside link.new ≡ K.aside link.old }
{
    snapshot(pass);
    answer_line(link, pass, line)
}
