//! The table of one view. A change is `+,PREFIXES,MED`, `-,PREFIXES`, or `first,COUNT,MED`, which announces the first
//! prefixes of 0.0.0.0/32, 0.0.0.1/32 and so on, each with attributes of its own. Each change makes a new table. A
//! route's origin AS is the rest of its MULTI_EXIT_DISC by seven.

ghost use Rattle.std.specs.Prelude.{◌≡◌, ◌<◌, false, nat_eq, unwrap_or};
ghost use Rattle.std.specs.Option.{option_map};

use super::routes::{nlri_of, nlris_of, route_of};
use crate::line::{Line, at, behind, family_at, number_at};
use ip_prefix::{Addr, Family, Nlri, Prefix, parse_addr};
use path_attrs::Attrs;
use prefix_trie::Steps;
use rib_model::Route;
use route_runs::{Changes, Place, RouteTable, RouteTest};
use std::alloc::Global;
use std::marker::Brand;
use std::sync::ledger::{Blank, Ledger};
use wire_io::NoMemory;

// The route with this MULTI_EXIT_DISC, and an AS_PATH of its origin AS.
fn route_with(alloc: Global, med: u32) -> Option<Route> {
    let origin = (med % 7) as u8;
    let [a, b, c, d] = med.to_be_bytes();
    let field = [0x40, 2, 6, 2, 1, 0, 0, 0, origin, 0x80, 4, 4, a, b, c, d];
    route_of(alloc, &field)
}

// The prefix of 32 bits with this number.
fn numbered(number: u32) -> Nlri {
    Nlri {
        prefix: Prefix::new(Addr::v4(number.to_be_bytes()), 32).unwrap(),
        id: None,
    }
}

// Announces these prefixes with this MULTI_EXIT_DISC.
fn announce_all(alloc: Global, changes: &mut Changes, nlris: &[Nlri], med: u32) -> bool {
    match route_with(alloc, med) {
        Some(route) => changes.announce(nlris, &route).is_ok(),
        None => false,
    }
}

fn announce_first(alloc: Global, changes: &mut Changes, count: u32, med: u32) -> bool {
    let mut is_well = true;
    for number in 0..count {
        is_well = is_well && announce_all(alloc, changes, &[numbered(number)], med);
    }
    is_well
}

fn announce(alloc: Global, changes: &mut Changes, prefixes: &str, med: u32) -> bool {
    match nlris_of(alloc, prefixes, 1) {
        Some(nlris) => announce_all(alloc, changes, nlris.as_slice(), med),
        None => false,
    }
}

fn withdraw(alloc: Global, changes: &mut Changes, prefixes: &str) -> bool {
    match nlris_of(alloc, prefixes, 1) {
        Some(nlris) => changes.withdraw(nlris.as_slice()).is_ok(),
        None => false,
    }
}

// Puts a change.
fn change(alloc: Global, changes: &mut Changes, words: &[&str]) -> bool {
    match at(words, 0) {
        "first" => announce_first(alloc, changes, number_at(words, 1), number_at(words, 2)),
        "+" => announce(alloc, changes, at(words, 1), number_at(words, 2)),
        "-" => withdraw(alloc, changes, at(words, 1)),
        _ => false,
    }
}

// Puts the change of a text.
fn put_change(alloc: Global, changes: &mut Changes, text: &str) -> bool {
    match text.split(',').collect::<Vec<&str>>(alloc) {
        Ok(words) => change(alloc, changes, words.as_slice()),
        Err(_) => false,
    }
}

// Puts the table with these changes in the place of the one before.
fn renew(table: &mut RouteTable, changes: &mut Changes) -> bool {
    match table.with(changes) {
        Ok(next) => {
            *table = next;
            true
        }
        Err(_) => false,
    }
}

// Makes the change of a text.
fn take(alloc: Global, table: &mut RouteTable, text: &str) -> bool {
    let mut changes = Changes::new(alloc);
    put_change(alloc, &mut changes, text) && renew(table, &mut changes)
}

// The place before or after a prefix, or before all.
fn place_by(word: &str, prefix: &str) -> Place {
    match nlri_of(prefix, "-") {
        Some(nlri) => {
            if word == "after" {
                Place::After(nlri)
            } else {
                Place::From(nlri)
            }
        }
        None => Place::First,
    }
}

// The same of a text.
fn place_of(text: &str) -> Place {
    match text.split_once(',') {
        Some((word, prefix)) => place_by(word, prefix),
        None => Place::First,
    }
}

// How many of the numbered prefixes below 5000 have a route.
fn count_found(table: &RouteTable) -> u32 {
    let mut count = 0u32;
    for number in 0..5000u32 {
        if table.get(&numbered(number)).is_some() {
            count = count.saturating_add(1);
        }
    }
    count
}

// How many routes of an origin AS there are from a place on, of the first 200.
fn count_origins(table: &RouteTable, asn: u32, place: Place) -> u32 {
    let mut walk = table.origin(asn, place);
    let mut count = 0u32;
    for _ in 0..200u32 {
        if walk.next().is_some() {
            count = count.saturating_add(1);
        }
    }
    count
}

fn put_row(out: &mut Line, nlri: &Nlri, route: &Route) {
    out.put(" ");
    out.put_short(&nlri.prefix.text());
    if let Some(id) = nlri.id {
        out.show("#", &id);
    }
    if let Some(med) = route.med {
        out.show("=", &med);
    }
}

// The first routes from a place on, each with its MULTI_EXIT_DISC.
pub(crate) fn put_rows(out: &mut Line, table: &RouteTable, place: Place, most: u32) {
    let mut walk = table.walk(place);
    for _ in 0..most {
        if let Some((nlri, route)) = walk.next() {
            put_row(out, &nlri, route);
        } else {
            break;
        }
    }
}

fn put_longest<L: Ledger>(out: &mut Line, table: &RouteTable, addr: &Addr, steps: &mut Steps<L>) {
    match table.longest(addr, steps) {
        Some(prefix) => out.put_short(&prefix.text()),
        None => out.put("-"),
    }
}

fn put_found<L: Ledger>(out: &mut Line, table: &RouteTable, text: &str, steps: &mut Steps<L>) {
    match parse_addr(text.as_bytes()) {
        Some(addr) => put_longest(out, table, &addr, steps),
        None => out.put("-"),
    }
}

// The first routes of a table from the place on.
fn put_first(out: &mut Line, table: &RouteTable, words: &[&str]) {
    put_rows(out, table, place_of(at(words, 1)), number_at(words, 2));
}

// How many routes there are, how many numbered prefixes have one, how many of the origin AS come from the place on,
// the longest prefix that holds the address, and the first routes from the place on.
fn put_table<L: Ledger>(out: &mut Line, table: &RouteTable, words: &[&str], steps: &mut Steps<L>) {
    let origins = count_origins(table, number_at(words, 3), place_of(at(words, 1)));
    out.show("", &table.count());
    out.show(" ", &count_found(table));
    out.show(" ", &origins);
    out.put(" ");
    put_found(out, table, at(words, 4), steps);
    put_first(out, table, words);
}

// Makes the changes of these texts.
fn take_all(alloc: Global, table: &mut RouteTable, texts: &[&str]) -> bool {
    let mut is_well = true;
    for text in texts {
        is_well = is_well && take(alloc, table, text);
    }
    is_well
}

fn put_kept(out: &mut Line, kept: &Result<RouteTable, NoMemory>, words: &[&str]) {
    match kept {
        Ok(kept) => put_first(out, kept, words),
        Err(_) => out.fail(),
    }
}

// A table that is to change once more, and it before, which is kept.
fn put_both<L: Ledger>(
    out: &mut Line,
    table: &mut RouteTable,
    last: &str,
    words: &[&str],
    steps: &mut Steps<L>,
) {
    let kept = table.share();
    if !take(out.alloc, table, last) {
        out.put("not changed");
    }
    put_table(out, table, words, steps);
    out.put(" |");
    put_kept(out, &kept, words);
}

// Makes the changes after five words, and shows the table, and it before the last of them.
fn put_changes<L: Ledger>(
    out: &mut Line,
    table: &mut RouteTable,
    words: &[&str],
    steps: &mut Steps<L>,
) {
    if let [texts @ .., last] = behind(words, 5) {
        if !take_all(out.alloc, table, texts) {
            out.put("not changed");
        }
        put_both(out, table, last, words, steps);
    }
}

fn put_versions<L: Ledger>(out: &mut Line, words: &[&str], steps: &mut Steps<L>) {
    let mut table = RouteTable::new(out.alloc);
    put_changes(out, &mut table, words, steps);
}

fn put_with<L: Ledger>(out: &mut Line, words: &[&str], blank: Blank)
    requires name { blank.name ≡ L.name }
    requires parts { blank.parts ≡ L.parts }
    requires some { 0 < blank.parts }
{
    let mut steps = Steps::<L>::new(blank);
    put_versions(out, words, &mut steps);
}

pub(crate) fn table(out: &mut Line, words: &[&str]) {
    put_with::<Brand>(out, words, Blank::new(1));
}

// A test of a route's MULTI_EXIT_DISC.
#[derive(Clone, Copy)]
struct HasMed {
    med: u32,
}

impl RouteTest for HasMed {
    ghost passes = { λ test attrs. unwrap_or (option_map (λ med. nat_eq med test.med) attrs.med) false };

    fn test(&self, attrs: &Attrs) -> bool {
        match attrs.med {
            Some(med) => med == self.med,
            None => false,
        }
    }
}

// The family of a word, or both where it is `-`.
fn families_at(words: &[&str], place: usize) -> Option<Family> {
    if at(words, place) == "-" {
        None
    } else {
        Some(family_at(words, place))
    }
}

// How many routes pass a test, and the first of them.
fn put_sifted(
    out: &mut Line,
    table: &RouteTable,
    family: Option<Family>,
    test: &HasMed,
    most: u32,
) {
    out.show("", &table.sift(family, test).count());
    let mut walk = table.sift(family, test);
    for _ in 0..most {
        if let Some((nlri, route)) = walk.next() {
            put_row(out, &nlri, route);
        } else {
            break;
        }
    }
}

// Makes the changes after four words, and shows the routes of a family, or of both, that have this MULTI_EXIT_DISC.
pub(crate) fn sift(out: &mut Line, words: &[&str]) {
    let mut table = RouteTable::new(out.alloc);
    if !take_all(out.alloc, &mut table, behind(words, 4)) {
        out.put("not changed");
    }
    let test = HasMed {
        med: number_at(words, 2),
    };
    put_sifted(
        out,
        &table,
        families_at(words, 1),
        &test,
        number_at(words, 3),
    );
}
