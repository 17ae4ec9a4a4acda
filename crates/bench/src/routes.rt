use crate::tables::{Answers, Order, counted, numbers, prefix};
use ip_prefix::Nlri;
use path_attrs::Attrs;
use rib_model::Route;
use route_runs::{Changes, RouteTable};
use std::alloc::Global;
use std::io;
use std::sync::Arc;

/// How many prefixes are announced with the same attributes, as one UPDATE does.
const UPDATE: usize = 5;

/// How many are announced before a new table is made: some of those of a read of 64 KiB.
const READ: usize = 2_500;

// The prefix of this number, without a path identifier.
fn nlri(number: u32) -> Nlri {
    Nlri {
        prefix: prefix(number),
        id: None,
    }
}

// A route that is told from others by its MULTI_EXIT_DISC.
fn route(alloc: Global, med: u32) -> Option<Route> {
    let mut attrs = Attrs::none(alloc);
    attrs.origin = Some(0);
    attrs.med = Some(med);
    Arc::new(alloc, attrs).ok()
}

/// Announces so many prefixes, five with the same attributes, in new tables made one after another, and looks
/// each up.
pub fn runs<R: Print + AllocGlobal>(rt: &R, order: Order, count: Option<usize>) -> io::Result<()> {
    let numbers = numbers(rt.alloc(), counted(count), order)?;
    match looked_up(rt.alloc(), &numbers) {
        Some(answers) => answers.print(rt),
        None => Err(io::Error::from(io::ErrorKind::OutOfMemory)),
    }
}

// What the table of these prefixes answers. None where no memory is left.
fn looked_up(alloc: Global, numbers: &[u32]) -> Option<Answers> {
    let table = filled(alloc, numbers)?;
    let mut answers = Answers::new();
    answers.listed = table.count();
    for number in numbers.iter() {
        answers.add(med_of(&table, *number));
    }
    Some(answers)
}

// The table of these prefixes. None where no memory is left.
fn filled(alloc: Global, numbers: &[u32]) -> Option<RouteTable> {
    let mut table = RouteTable::new(alloc);
    for read in numbers.chunks(READ) {
        table = with_read(alloc, &table, read)?;
    }
    Some(table)
}

// The table with these prefixes announced. None where no memory is left.
fn with_read(alloc: Global, table: &RouteTable, numbers: &[u32]) -> Option<RouteTable> {
    let mut changes = changes(alloc, numbers)?;
    table.with(&mut changes).ok()
}

// The announcements of these prefixes. None where no memory is left.
fn changes(alloc: Global, numbers: &[u32]) -> Option<Changes> {
    let mut changes = Changes::new(alloc);
    for update in numbers.chunks(UPDATE) {
        announce(alloc, &mut changes, update)?;
    }
    Some(changes)
}

// Announces these prefixes with the same attributes. None where no memory is left.
fn announce(alloc: Global, changes: &mut Changes, numbers: &[u32]) -> Option<()> {
    let Some(first) = numbers.first() else {
        return Some(());
    };
    let route = route(alloc, *first)?;
    let mut list = Vec::with_capacity(alloc, numbers.len()).ok()?;
    for number in numbers {
        list.push(nlri(*number)).ok()?;
    }
    changes.announce(&list, &route).ok()
}

// The MULTI_EXIT_DISC of the route of this prefix, where there is one.
fn med_of(table: &RouteTable, number: u32) -> Option<u32> {
    match table.get(&nlri(number)) {
        None => None,
        Some(route) => route.med,
    }
}
