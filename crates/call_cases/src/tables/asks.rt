//! The queries on the lanes of two routers.

ghost use Rattle.std.specs.Prelude.{◌≤◌, ◌≢◌, IfSome};
ghost use Rattle.std.specs.Bool.{OnFalse};
ghost use Rattle.ask_specs.specs.Asking.{plain};
ghost use Rattle.bmp_specs.specs.Query.{quit};
ghost use Rattle.query_lang.specs.Asks.{ask_value};
ghost use Rattle.query_lang.specs.Queries.{query_value};

use super::sessions::take_all;
use super::words::long_at;
use crate::line::{Line, at, number_at};
use cut_publisher::{Cut, CutLane};
use ip_prefix::{Prefix, parse_prefix};
use query_eval::answer as answer_ask;
use query_lang::{Ask, Query, parse_ask};
use recent_ring::Recent;
use rib_model::Step;
use route_watch::{missed, poll, poll_any};
use router_tables::RouterTables;
use std::alloc::Global;
use std::sync::Arc;
use wire_io::MemSink;

// The tables of the entries of a text.
fn tables_of(alloc: Global, texts: &str) -> Option<RouterTables> {
    match RouterTables::new(alloc) {
        Ok(mut tables) => {
            if take_all(alloc, &mut tables, texts) {
                Some(tables)
            } else {
                None
            }
        }
        Err(_) => None,
    }
}

fn shared(alloc: Global, texts: &str) -> Option<Arc<RouterTables>> {
    match tables_of(alloc, texts) {
        Some(tables) => Arc::new(alloc, tables).ok(),
        None => None,
    }
}

// A lane of these entries.
fn lane_of(alloc: Global, texts: &str) -> Option<CutLane<RouterTables>>
    ensures { IfSome result (λ lane. lane.1 ≤ 1000) }
{
    let count = texts.split(' ').count().min(1000) as u64;
    match shared(alloc, texts) {
        Some(value) => Some(CutLane { value, count }),
        None => None,
    }
}

fn cut_with(alloc: Global, first: CutLane<RouterTables>, second: &str) -> Option<Cut<RouterTables>>
    requires { first.1 ≤ 1000 }
{
    match lane_of(alloc, second) {
        Some(second) => Cut::of(alloc, &[first, second]).ok(),
        None => None,
    }
}

// The cut of two lanes.
fn cut_of(alloc: Global, first: &str, second: &str) -> Option<Cut<RouterTables>> {
    match lane_of(alloc, first) {
        Some(first) => cut_with(alloc, first, second),
        None => None,
    }
}

fn put_cut(out: &mut Line, cut: &Option<Cut<RouterTables>>) {
    match cut {
        Some(cut) => {
            out.show("", &cut.rev());
            out.show(" ", &cut.lanes());
        }
        None => out.put("no cut"),
    }
}

// Puts the cut of two lanes in the place of the one before.
pub(crate) fn lanes(out: &mut Line, cut: &mut Option<Cut<RouterTables>>, texts: &str) {
    if let Some((first, second)) = texts.split_once(" / ") {
        *cut = cut_of(out.alloc, first, second);
    }
    put_cut(out, cut);
}

// Whether it is the end of a session, which has no reply.
fn is_quit(query: &Query) -> bool
    ensures { OnFalse result (query_value query.now ≢ quit) }
{
    match query {
        Query::Quit => true,
        _ => false,
    }
}

// The same of what is asked.
fn asks_quit(ask: &Ask) -> bool
    ensures { OnFalse result (ask_value ask.now ≢ plain quit) }
{
    match ask {
        Ask::Query(query) => is_quit(query),
        Ask::Rows(_) => false,
        Ask::Count(_, _) => false,
        Ask::Changes { .. } => false,
        Ask::FullMarks(_) => false,
        Ask::FullRouters => false,
    }
}

// The reply to what is asked, and then what the call answers.
fn put_reply(out: &mut Line, cut: &Cut<RouterTables>, ask: &Ask, sink: &mut MemSink) {
    if asks_quit(ask) {
        out.put("quit");
    } else {
        let answered = answer_ask(cut, ask, sink);
        out.put_text(sink.taken());
        out.show("", &answered);
    }
}

fn reply(out: &mut Line, cut: &Cut<RouterTables>, ask: &Ask, fails: &[u64]) {
    match MemSink::new(out.alloc, 4096, fails) {
        Ok(mut sink) => put_reply(out, cut, ask, &mut sink),
        Err(_) => out.fail(),
    }
}

// What is answered to a line, where the writes with these numbers fail.
pub(crate) fn ask(out: &mut Line, cut: &Option<Cut<RouterTables>>, line: &str, fails: &[u64]) {
    match (cut, parse_ask(line.as_bytes())) {
        (Some(cut), Some(ask)) => reply(out, cut, &ask, fails),
        _ => out.put("-"),
    }
}

// The first step that is kept, from a number on, or the first change of a prefix.
fn next_step<'a>(
    recent: &'a Recent<Step>,
    from: u64,
    prefix: &Option<Prefix>,
) -> Option<(u64, &'a Step)> {
    match prefix {
        Some(prefix) => poll(recent, from, prefix),
        None => poll_any(recent, from),
    }
}

// How many steps are missed from a number on, and the numbers of the first steps or of the first changes of a prefix.
fn put_changes(out: &mut Line, recent: &Recent<Step>, from: u64, prefix: &Option<Prefix>) {
    out.show("", &missed(recent, from));
    let mut next = from;
    for _ in 0..6 {
        if let Some((number, _)) = next_step(recent, next, prefix) {
            out.show(" ", &number);
            next = number.saturating_add(1);
        } else {
            break;
        }
    }
}

fn put_changes_of(
    out: &mut Line,
    cut: &Cut<RouterTables>,
    words: &[&str],
    prefix: &Option<Prefix>,
) {
    let lane = number_at(words, 1);
    if lane < cut.lanes() {
        put_changes(out, cut.value(lane).recent(), long_at(words, 2), prefix);
    } else {
        out.put("no lane");
    }
}

pub(crate) fn poll_changes(out: &mut Line, cut: &Option<Cut<RouterTables>>, words: &[&str]) {
    match (cut, parse_prefix(at(words, 3).as_bytes())) {
        (Some(cut), Some(prefix)) => put_changes_of(out, cut, words, &Some(prefix)),
        _ => out.put("-"),
    }
}

pub(crate) fn poll_steps(out: &mut Line, cut: &Option<Cut<RouterTables>>, words: &[&str]) {
    match cut {
        Some(cut) => put_changes_of(out, cut, words, &None),
        None => out.put("-"),
    }
}
