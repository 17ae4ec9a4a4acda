ghost use Rattle.std.specs.Prelude.{◌≡◌, ◌<◌};
ghost use Rattle.bmp_specs.specs.declared.wire.Family.TheVariants.{V4};

use ip_prefix::{Addr, Family, Prefix};
use prefix_trie::{Steps, Trie};
use rand::seq::SliceRandom;
use rand_pcg::Lcg64Xsh32;
use std::alloc::Global;
use std::collections::BTreeMap;
use std::io;
use std::marker::Brand;
use std::sync::ledger::{Blank, Ledger};

/// The most prefixes, and the number where no other is given.
const MOST: u32 = 1 << 24;

const USUAL: u32 = 1_000_000;

/// In which order the prefixes come.
#[derive(Clone, Copy)]
pub enum Order {
    Prefix,
    Shuffled,
}

/// What a table answered, as counts that depend on all of it.
#[derive(Clone, Copy)]
pub struct Answers {
    pub listed: u64,
    found: u64,
    sum: u64,
    bits: u64,
}

impl Answers {
    pub fn new() -> Answers {
        Answers {
            listed: 0,
            found: 0,
            sum: 0,
            bits: 0,
        }
    }

    pub fn add(&mut self, value: Option<u32>) {
        if let Some(value) = value {
            self.found = self.found.saturating_add(1);
            self.sum = self.sum.saturating_add(value as u64);
        }
    }

    pub fn print(&self, rt: &impl Print) -> io::Result<()> {
        println!(rt; "listed {}", self.listed)?;
        println!(rt; "found {}", self.found)?;
        println!(rt; "sum {}", self.sum)
    }
}

/// One of the four prefixes of a block of 1,024 addresses, by its place in prefix order: the block, its
/// first half, the first quarter, and the third.
pub fn prefix(number: u32) -> Prefix
    ensures { result.address.family ≡ V4 }
{
    let block = (number % MOST / 4) << 10;
    let (address, bits) = match number % 4 {
        0 => (block, 22),
        1 => (block, 23),
        2 => (block, 24),
        _ => (block + 512, 24),
    };
    Prefix::new(Addr::v4(address.to_be_bytes()), bits).unwrap()
}

// An address of that block, in one of its four quarters.
fn address(number: u32) -> Addr
    ensures { result.family ≡ V4 }
{
    let block = (number % MOST / 4) << 10;
    Addr::v4((block + number % 4 * 256 + 1).to_be_bytes())
}

/// The numbers of so many prefixes.
pub fn numbers(alloc: Global, count: u32, order: Order) -> io::Result<Vec<u32>> {
    let mut numbers = Vec::with_capacity(alloc, count as usize)?;
    for number in 0..count {
        numbers.push(number)?;
    }
    if let Order::Shuffled = order {
        numbers.shuffle(&mut Lcg64Xsh32::new(42, 54));
    }
    Ok(numbers)
}

/// Puts so many prefixes into a trie, looks each up, and asks so many times for the longest match of an
/// address for each.
pub fn trie<R: Print + AllocGlobal>(
    rt: &R,
    order: Order,
    count: Option<usize>,
    times: Option<usize>,
) -> io::Result<()> {
    let numbers = numbers(rt.alloc(), counted(count), order)?;
    let mut trie = Trie::new(rt.alloc(), Family::V4);
    if !fill(&mut trie, &numbers) {
        return Err(io::Error::from(io::ErrorKind::OutOfMemory));
    }
    let mut answers = looked_up(&trie, &numbers);
    for _ in 0..times.unwrap_or(1) {
        matched::<Brand>(&trie, &numbers, &mut answers, Blank::new(1));
    }
    answers.print(rt)?;
    println!(rt; "bits {}", answers.bits)
}

/// The number of prefixes that was asked for, or the usual one.
pub fn counted(count: Option<usize>) -> u32 {
    count.map_or(USUAL, |count| count.min(MOST as usize) as u32)
}

// Puts the prefixes in. False where no memory is left.
fn fill(trie: &mut Trie<u32>, numbers: &[u32]) -> bool
    requires { trie.old.family ≡ V4 }
    ensures { trie.new.family ≡ V4 }
{
    for number in numbers.iter() {
        if trie.insert(prefix(*number), *number).is_err() {
            return false;
        }
    }
    true
}

fn looked_up(trie: &Trie<u32>, numbers: &[u32]) -> Answers
    requires { trie.now.family ≡ V4 }
{
    let mut answers = Answers::new();
    answers.listed = trie.len();
    for number in numbers.iter() {
        answers.add(trie.get(&prefix(*number)).copied());
    }
    answers
}

fn matched<L: Ledger>(trie: &Trie<u32>, numbers: &[u32], answers: &mut Answers, blank: Blank)
    requires family { trie.now.family ≡ V4 }
    requires name { blank.name ≡ L.name }
    requires parts { blank.parts ≡ L.parts }
    requires some { 0 < blank.parts }
{
    let mut steps = Steps::<L>::new(blank);
    for number in numbers.iter() {
        if let Some((prefix, _)) = trie.longest(&address(*number), &mut steps) {
            answers.bits = answers.bits.saturating_add(prefix.bits() as u64);
        }
    }
}

/// Puts so many prefixes into an ordered map of std, and looks each up.
pub fn map<R: Print + AllocGlobal>(rt: &R, order: Order, count: Option<usize>) -> io::Result<()> {
    let numbers = numbers(rt.alloc(), counted(count), order)?;
    let mut map = BTreeMap::new(rt.alloc());
    for number in numbers.iter() {
        if map.insert(prefix(*number), *number).is_err() {
            return Err(io::Error::from(io::ErrorKind::OutOfMemory));
        }
    }
    let mut answers = Answers::new();
    answers.listed = map.len() as u64;
    for number in numbers.iter() {
        answers.add(map.get(&prefix(*number)).copied());
    }
    answers.print(rt)
}
