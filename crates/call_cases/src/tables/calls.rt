//! The calls on tables by their words.
use super::words::rest_of;
use super::{asks, lines, origins, peers, queries, route_tables, sessions, statistics, tries};
use crate::line::{Line, at};
use cut_publisher::Cut;
use router_tables::RouterTables;

#[derive(Clone, Copy)]
enum Call {
    Lanes,
    Ask,
    AskFailing,
    Poll,
    PollAny,
    Versions,
    Peers,
    Statistics,
    Counts,
    Trie,
    Table,
    Sift,
    Session,
    VrpFile,
    Verdict,
    Origin,
    Query,
    QueryHex,
    QueryRoom,
    Asked,
    Line,
}

const CALLS: [(&str, Call); 21] = [
    ("lanes", Call::Lanes),
    ("ask", Call::Ask),
    ("ask-failing", Call::AskFailing),
    ("poll", Call::Poll),
    ("poll-any", Call::PollAny),
    ("versions", Call::Versions),
    ("peers", Call::Peers),
    ("statistics", Call::Statistics),
    ("counts", Call::Counts),
    ("trie", Call::Trie),
    ("table", Call::Table),
    ("sift", Call::Sift),
    ("session", Call::Session),
    ("vrp-file", Call::VrpFile),
    ("verdict", Call::Verdict),
    ("origin", Call::Origin),
    ("query", Call::Query),
    ("query-hex", Call::QueryHex),
    ("query-room", Call::QueryRoom),
    ("asked", Call::Asked),
    ("line", Call::Line),
];

// The call of a word.
fn call_of(word: &str) -> Option<Call> {
    for (name, call) in CALLS.iter() {
        if *name == word {
            return Some(*call);
        }
    }
    None
}

// Writes what the call of a case answers; `?` where there is no such call.
pub(crate) fn answer(
    line: &mut Line,
    cut: &mut Option<Cut<RouterTables>>,
    case: &str,
    words: &[&str],
) {
    match call_of(at(words, 0)) {
        Some(call) => on_cuts(line, cut, call, case, words),
        None => line.put("?"),
    }
}

// Each of these functions has the calls of some words, and hands the others on to the next.

fn on_cuts(
    line: &mut Line,
    cut: &mut Option<Cut<RouterTables>>,
    call: Call,
    case: &str,
    words: &[&str],
) {
    match call {
        Call::Lanes => asks::lanes(line, cut, rest_of(case)),
        Call::Ask => asks::ask(line, cut, rest_of(case), &[]),
        Call::AskFailing => asks::ask(line, cut, rest_of(case), &[0]),
        Call::Poll => asks::poll_changes(line, cut, words),
        Call::PollAny => asks::poll_steps(line, cut, words),
        Call::Versions => sessions::versions(line, rest_of(case)),
        _ => on_tables(line, call, case, words),
    }
}

fn on_tables(line: &mut Line, call: Call, case: &str, words: &[&str]) {
    match call {
        Call::Peers => peers::peers(line, words),
        Call::Statistics => statistics::statistics(line, words),
        Call::Counts => statistics::counts(line, words),
        Call::Trie => tries::trie(line, words),
        Call::Table => route_tables::table(line, words),
        Call::Sift => route_tables::sift(line, words),
        Call::Session => sessions::session(line, words),
        _ => on_lines(line, call, case, words),
    }
}

fn on_lines(line: &mut Line, call: Call, case: &str, words: &[&str]) {
    match call {
        Call::VrpFile => origins::vrp_file(line, case, words),
        Call::Verdict => origins::verdict_of(line, words),
        Call::Origin => origins::origin(line, words),
        Call::Query => queries::query(line, rest_of(case).as_bytes()),
        Call::QueryHex => queries::query_hex(line, words),
        Call::QueryRoom => queries::query_room(line, case, words),
        Call::Asked => queries::asked(line, rest_of(case).as_bytes()),
        _ => lines::line(line, words),
    }
}
