//! Origin validation (RFC 6811): files of validated ROA payloads (VRPs), verdicts, and the origin AS of a route. In the
//! text of a file `;` stands for a line feed, `^` for a carriage return and `~` for a byte order mark.

use super::routes::route_at;
use super::states::info_of;
use super::words::rest_of;
use crate::line::{Line, at, behind};
use ip_prefix::{parse_number, parse_prefix};
use path_attrs::Attrs;
use rov_table::{Verdict, VrpFault, VrpTable, origin_of, verdict};

// The character of a file that this one stands for.
fn char_of(mark: char) -> char {
    match mark {
        ';' => '\n',
        '^' => '\r',
        '~' => '\u{FEFF}',
        _ => mark,
    }
}

// Puts the text of a file; false where there is no memory.
fn put_marks(file: &mut String, text: &str) -> bool {
    let mut is_put = true;
    for mark in text.chars() {
        is_put = file.push(char_of(mark)).is_ok() && is_put;
    }
    is_put
}

// Puts these VRPs after a heading; false where there is no memory.
fn put_vrps(file: &mut String, vrps: &[&str]) -> bool {
    let mut is_put = file.push_str("ASN,IP Prefix,Max Length").is_ok();
    for vrp in vrps {
        is_put = file.push_str("\n").is_ok() && is_put;
        is_put = file.push_str(vrp).is_ok() && is_put;
    }
    is_put
}

fn word_of(found: Verdict) -> &'static str {
    match found {
        Verdict::Valid => "valid",
        Verdict::Invalid => "invalid",
        Verdict::NotFound => "not-found",
    }
}

// The verdict on a route by the texts of its prefix and its origin, which is none where it is no number.
fn verdict_word(table: &VrpTable, prefix: &str, origin: &str) -> &'static str {
    match parse_prefix(prefix.as_bytes()) {
        Some(prefix) => word_of(verdict(table, &prefix, parse_number(origin.as_bytes()))),
        None => "?",
    }
}

// The verdict on a route by one text: its prefix, and its origin after a comma.
fn judged(table: &VrpTable, route: &str) -> &'static str {
    match route.split_once(',') {
        Some((prefix, origin)) => verdict_word(table, prefix, origin),
        None => "?",
    }
}

fn put_fault(out: &mut Line, fault: VrpFault) {
    match fault {
        VrpFault::Bad { line } => out.show("bad ", &line),
        VrpFault::NoMemory => out.fail(),
    }
}

// Writes the verdicts on the routes between the `+`.
fn put_judged(out: &mut Line, table: &VrpTable, routes: &str) {
    out.put("read");
    for route in routes.split('+') {
        out.put(" ");
        out.put(judged(table, route));
    }
}

// Whether the file is read, and the verdicts.
fn put_file(out: &mut Line, routes: &str, file: &str) {
    match VrpTable::read(out.alloc, file.as_bytes()) {
        Ok(table) => put_judged(out, &table, routes),
        Err(fault) => put_fault(out, fault),
    }
}

pub(crate) fn vrp_file(out: &mut Line, case: &str, words: &[&str]) {
    let mut file = String::new(out.alloc);
    if !put_marks(&mut file, rest_of(rest_of(case))) {
        out.fail();
    }
    put_file(out, at(words, 1), file.as_str());
}

// Writes the verdict of these VRPs on a route.
fn put_verdict(out: &mut Line, words: &[&str], file: &str) {
    match VrpTable::read(out.alloc, file.as_bytes()) {
        Ok(table) => out.put(verdict_word(&table, at(words, 1), at(words, 2))),
        Err(fault) => put_fault(out, fault),
    }
}

pub(crate) fn verdict_of(out: &mut Line, words: &[&str]) {
    let mut file = String::new(out.alloc);
    if !put_vrps(&mut file, behind(words, 3)) {
        out.fail();
    }
    put_verdict(out, words, file.as_str());
}

fn put_number(out: &mut Line, number: Option<u32>) {
    match number {
        Some(number) => out.show("", &number),
        None => out.put("none"),
    }
}

// The origin of a route which a speaker of AS 64500 has.
fn put_origin(out: &mut Line, route: &Attrs) {
    match info_of(out.alloc, false, None) {
        Some(info) => put_number(out, origin_of(route, &info)),
        None => out.fail(),
    }
}

pub(crate) fn origin(out: &mut Line, words: &[&str]) {
    match route_at(out.alloc, words, 1) {
        Some(route) => put_origin(out, &route),
        None => out.put("?"),
    }
}
