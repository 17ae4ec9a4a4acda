//! The calls on messages by their words.
use super::{
    addresses, attributes, code_tables, drills, forms, frames, heads, lists, model, opens, paths,
    recent, routes, steps, updates, walks, written,
};
use crate::line::{Line, at};
use bgp_update::UpdateReader;

#[derive(Clone, Copy)]
enum Call {
    After,
    Shares,
    SharesReadTwice,
    Last,
    Frame,
    Family,
    WritePieces,
    WriteSure,
    WriteToSlice,
    CutBack,
    Ring,
    Address,
    Prefix,
    PrefixOf,
    Number,
    PrefixOnWire,
    Holds,
    Contains,
    Registry,
    Shape,
    NameInTwo,
    Path,
    Merge,
    SetOf,
    Next,
    Header,
    Key,
    View,
    Open,
    Ids,
    Keep,
    Judge,
    AttributesFrame,
    Fits,
    FitsNonzero,
    Walk,
    Head,
    PutInitiation,
    PutMark,
    PutDown,
    PutUp,
    PutRoutes,
    Can,
    Drill,
    ModelWalk,
    ModelRows,
}

const CALLS: [(&str, Call); 46] = [
    ("after", Call::After),
    ("shares", Call::Shares),
    ("shares-read-twice", Call::SharesReadTwice),
    ("last", Call::Last),
    ("frame", Call::Frame),
    ("family", Call::Family),
    ("write-pieces", Call::WritePieces),
    ("write-sure", Call::WriteSure),
    ("write-to-slice", Call::WriteToSlice),
    ("cut-back", Call::CutBack),
    ("ring", Call::Ring),
    ("address", Call::Address),
    ("prefix", Call::Prefix),
    ("prefix-of", Call::PrefixOf),
    ("number", Call::Number),
    ("prefix-on-wire", Call::PrefixOnWire),
    ("holds", Call::Holds),
    ("contains", Call::Contains),
    ("registry", Call::Registry),
    ("shape", Call::Shape),
    ("name-in-two", Call::NameInTwo),
    ("path", Call::Path),
    ("merge", Call::Merge),
    ("set-of", Call::SetOf),
    ("next", Call::Next),
    ("header", Call::Header),
    ("key", Call::Key),
    ("view", Call::View),
    ("open", Call::Open),
    ("ids", Call::Ids),
    ("keep", Call::Keep),
    ("judge", Call::Judge),
    ("attributes-frame", Call::AttributesFrame),
    ("fits", Call::Fits),
    ("fits-nonzero", Call::FitsNonzero),
    ("walk", Call::Walk),
    ("head", Call::Head),
    ("put-initiation", Call::PutInitiation),
    ("put-mark", Call::PutMark),
    ("put-down", Call::PutDown),
    ("put-up", Call::PutUp),
    ("put-routes", Call::PutRoutes),
    ("can", Call::Can),
    ("drill", Call::Drill),
    ("model-walk", Call::ModelWalk),
    ("model-rows", Call::ModelRows),
];

// The call of a word.
fn call_of(word: &str) -> Option<Call> {
    for (name, call) in CALLS.iter() {
        if *name == word {
            return Some(*call);
        }
    }
    None
}

// Writes what the call of these words answers, and tells whether there is such a call. One reader reads the cases of
// `after`.
pub(crate) fn answer(line: &mut Line, reader: &mut UpdateReader, words: &[&str]) -> bool {
    match call_of(at(words, 0)) {
        Some(call) => {
            on_updates(line, reader, call, words);
            true
        }
        None => false,
    }
}

// Each of these functions has the calls of some words, and hands the others on to the next.

fn on_updates(line: &mut Line, reader: &mut UpdateReader, call: Call, words: &[&str]) {
    match call {
        Call::After => updates::after(line, reader, words),
        Call::Shares => updates::shares(line, words),
        Call::SharesReadTwice => updates::shares_read_twice(line, words),
        Call::Last => updates::last(line, words),
        Call::Frame => updates::framed(line, words),
        Call::Family => updates::family(line, words),
        _ => on_lists(line, call, words),
    }
}

fn on_lists(line: &mut Line, call: Call, words: &[&str]) {
    match call {
        Call::WritePieces => lists::write(line, words),
        Call::WriteSure => lists::write_sure(line, words),
        Call::WriteToSlice => lists::write_to_slice(line, words),
        Call::CutBack => lists::cut_back(line, words),
        Call::Ring => recent::ring(line, words),
        Call::Address => addresses::address(line, words),
        _ => on_prefixes(line, call, words),
    }
}

fn on_prefixes(line: &mut Line, call: Call, words: &[&str]) {
    match call {
        Call::Prefix => addresses::prefix(line, words),
        Call::PrefixOf => addresses::prefix_of(line, words),
        Call::Number => addresses::number(line, words),
        Call::PrefixOnWire => addresses::from_wire(line, words),
        Call::Holds => addresses::holds(line, words),
        Call::Contains => addresses::contains(line, words),
        _ => on_codes(line, call, words),
    }
}

fn on_codes(line: &mut Line, call: Call, words: &[&str]) {
    match call {
        Call::Registry => code_tables::table(line, words),
        Call::Shape => code_tables::shape(line, words),
        Call::NameInTwo => code_tables::name_in_two(line, words),
        Call::Path => paths::path(line, words),
        Call::Merge => paths::merge(line, words),
        Call::SetOf => paths::set_of(line, words),
        _ => on_frames(line, call, words),
    }
}

fn on_frames(line: &mut Line, call: Call, words: &[&str]) {
    match call {
        Call::Next => frames::next(line, words),
        Call::Header => frames::header(line, words),
        Call::Key => frames::key(line, words),
        Call::View => frames::view(line, words),
        Call::Open => opens::open(line, words),
        Call::Ids => opens::ids(line, words),
        _ => on_attributes(line, call, words),
    }
}

fn on_attributes(line: &mut Line, call: Call, words: &[&str]) {
    match call {
        Call::Keep => steps::keep(line, words),
        Call::Judge => attributes::judge(line, words),
        Call::AttributesFrame => attributes::framed(line, words),
        Call::Fits => attributes::fits(line, words, false),
        Call::FitsNonzero => attributes::fits(line, words, true),
        Call::Walk => walks::walk(line, words),
        Call::Head => heads::head(line, words),
        _ => on_written(line, call, words),
    }
}

fn on_written(line: &mut Line, call: Call, words: &[&str]) {
    match call {
        Call::PutInitiation => written::initiation(line, words),
        Call::PutMark => written::mark(line, words),
        Call::PutDown => written::down(line, words),
        Call::PutUp => written::up(line, words),
        Call::PutRoutes => routes::routes(line, words),
        Call::Can => forms::can(line, words),
        _ => on_whole_streams(line, call, words),
    }
}

fn on_whole_streams(line: &mut Line, call: Call, words: &[&str]) {
    match call {
        Call::Drill => drills::drill(line, words),
        Call::ModelWalk => model::model_walk(line, words),
        _ => model::model_rows(line, words),
    }
}
