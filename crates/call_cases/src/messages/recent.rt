//! Rings that keep the last 1,024 items of a list. An item is a number.
ghost use Rattle.std.specs.Prelude.{◌≡◌, refl};
ghost use Rattle.std.proofs.Common.{rules};

use crate::line::{Line, behind, number_of};
use recent_ring::{Keep, Recent};
use std::alloc::Global;
use wire_io::NoMemory;

// An item that is a number.
#[derive(Drop)]
struct Item(u64);

impl Keep for Item {
    ghost alike = { λ x y. y ≡ x };

    ghost same = { λ x. refl };

    ghost further = { λ x y z a b. Prim.search (rules) };

    fn keep(&self) -> Result<Item, NoMemory> {
        Ok(Item(self.0))
    }
}

// A ring can be sent to other threads and shared by them.
fn shared<T: Send + Sync>(ring: &T) -> &T {
    ring
}

fn item_at(ring: &Recent<Item>, place: u64) -> Option<u64> {
    match ring.get(place) {
        Some(item) => Some(item.0),
        None => None,
    }
}

// The item at a place, or none.
fn put_item(out: &mut Line, ring: &Recent<Item>, place: u64) {
    out.show(" ", &item_at(ring, place));
}

// The total, how many are kept, the oldest of them, one between, the newest, and none after it.
fn put_ring(out: &mut Line, ring: &Recent<Item>) {
    let kept = ring.len();
    out.show("", &ring.total());
    out.show(" ", &kept);
    put_item(out, ring, 0);
    put_item(out, ring, kept / 2);
    put_item(out, ring, kept.saturating_sub(1));
    put_item(out, ring, kept);
    out.put(";");
}

// Pushes so many items, each of which is the number of those before it.
fn push(ring: &mut Recent<Item>, count: u32) {
    let total = ring.total();
    for number in total..total.saturating_add(count as u64) {
        ring.push(Item(number));
    }
}

// Shows one ring that was made of the other, and then the other.
fn put_both(out: &mut Line, made: &Result<Recent<Item>, NoMemory>, other: &Recent<Item>) {
    match made {
        Ok(made) => {
            put_ring(out, shared(made));
            put_ring(out, other);
        }
        Err(_) => out.fail(),
    }
}

fn push_to(made: &mut Result<Recent<Item>, NoMemory>, count: u32) {
    if let Ok(made) = made {
        push(made, count);
    }
}

// Goes on with the ring that was made.
fn go_on_with(ring: &mut Recent<Item>, made: Result<Recent<Item>, NoMemory>) {
    if let Ok(made) = made {
        *ring = made;
    }
}

// Pushes, and shows a copy and the ring.
fn push_and_copy(out: &mut Line, ring: &mut Recent<Item>, count: u32) {
    push(ring, count);
    let copy = ring.copy();
    put_both(out, &copy, ring);
}

// Pushes to a copy, shows it and the ring, and goes on with the copy.
fn push_to_copy(out: &mut Line, ring: &mut Recent<Item>, count: u32) {
    let mut copy = ring.copy();
    push_to(&mut copy, count);
    put_both(out, &copy, ring);
    go_on_with(ring, copy);
}

// Puts so many items from a number on; false where there is no memory.
fn put_items(items: &mut Vec<Item>, from: u64, count: u32) -> bool {
    let mut is_put = true;
    for number in from..from.saturating_add(count as u64) {
        is_put = items.push(Item(number)).is_ok() && is_put;
    }
    is_put
}

// Makes a longer ring of the ring and of so many items after `passed` others, shows both, and goes on with the longer.
fn make_longer(out: &mut Line, ring: &mut Recent<Item>, passed: u32, count: u32) {
    let passed = passed as u64;
    let mut last = Vec::new(out.alloc);
    if !put_items(&mut last, ring.total().saturating_add(passed), count) {
        out.fail();
    }
    let longer = ring.with_last(passed, last);
    put_both(out, &longer, ring);
    go_on_with(ring, longer);
}

fn make_longer_by(out: &mut Line, ring: &mut Recent<Item>, numbers: &str) {
    match numbers.split_once(',') {
        Some((passed, count)) => make_longer(out, ring, number_of(passed), number_of(count)),
        None => out.put("?"),
    }
}

fn take(out: &mut Line, ring: &mut Recent<Item>, word: &str, numbers: &str) {
    match word {
        "push" => push_and_copy(out, ring, number_of(numbers)),
        "copy" => push_to_copy(out, ring, number_of(numbers)),
        _ => make_longer_by(out, ring, numbers),
    }
}

fn take_step(out: &mut Line, ring: &mut Recent<Item>, step: &str) {
    match step.split_once(',') {
        Some((word, numbers)) => take(out, ring, word, numbers),
        None => out.put("?"),
    }
}

fn take_steps(out: &mut Line, ring: &mut Recent<Item>, steps: &[&str]) {
    put_ring(out, ring);
    for step in steps {
        take_step(out, ring, step);
    }
}

pub(crate) fn ring(out: &mut Line, words: &[&str]) {
    match Recent::new(out.alloc) {
        Ok(mut ring) => take_steps(out, &mut ring, behind(words, 1)),
        Err(_) => out.fail(),
    }
}
