//! Work to be measured: the calls that take most of the station's time, on loads from standard input or of its own,
//! and the lanes of a station over ports in memory, with a client beside each. The first word says which. Each prints
//! what was done; a time is printed only of a given number of lanes. The scripts under `bench/` run it beside a
//! program to compare with.
#![tactic(auto)]

mod each;
mod frames;
mod lane;
mod publisher;
mod routes;
mod serving;
mod streams;
mod tables;

use lane::Versions;
use publisher::Call;
use serving::Client;
use std::rt::Clock;
use std::sync::Wait;
use std::thread::Threads;
use std::{env, io};
use tables::Order;

// The numbers after the word, where they are given.
#[derive(Clone, Copy)]
struct Numbers {
    first: Option<usize>,
    second: Option<usize>,
    third: Option<usize>,
}

// The word as a number.
fn number(word: Option<String>) -> Option<usize> {
    word.and_then(|word| word.parse::<usize>().ok())
}

// A number of 32 bits, if it is one.
fn short(number: Option<usize>) -> Option<u32> {
    number.and_then(|number| u32::try_from(number).ok())
}

fn main(rt: HostRuntime) -> io::Result<()> {
    let mut words = env::args(&rt)?;
    let _program = words.next();
    let word = words.next();
    let numbers = Numbers {
        first: number(words.next()),
        second: number(words.next()),
        third: number(words.next()),
    };
    match word.as_ref().map(|word| word.as_str()) {
        Some("stream") => stream(&rt, numbers),
        Some(word) => measure(&rt, word, numbers),
        None => usage(&rt),
    }
}

// The stream of a lane of a drill; a number that is missing is 0.
fn stream(rt: &HostRuntime, numbers: Numbers) -> io::Result<()> {
    let seed = short(numbers.first).unwrap_or(0);
    let lane = short(numbers.second).unwrap_or(0);
    streams::run(rt, seed, lane, short(numbers.third).unwrap_or(0))
}

// The work of this word. That of tables and of lanes stands in functions of their own.
fn measure<R: Threads + Wait + Clock + Print + Input + AllocGlobal + Sync>(
    rt: &R,
    word: &str,
    numbers: Numbers,
) -> io::Result<()> {
    match word {
        "each" => each::run(rt, rt.reader()),
        "frames" => frames::run(rt, rt.reader(), numbers.first),
        "publish" => publication(rt, Call::Publish, numbers),
        "publish_held" => publication(rt, Call::PublishHeld, numbers),
        "snapshot" => publication(rt, Call::Snapshot, numbers),
        _ => match client(word) {
            Some(client) => serve(rt, client, numbers),
            None => measure_tables(rt, word, numbers),
        },
    }
}

// Publications or snapshots in a station of so many lanes and askers.
fn publication<R: Wait + Print + AllocGlobal>(
    rt: &R,
    call: Call,
    numbers: Numbers,
) -> io::Result<()> {
    let (lanes, askers) = (short(numbers.second), short(numbers.third));
    publisher::run(rt, rt.alloc(), call, numbers.first, lanes, askers)
}

// The client of this word.
fn client(word: &str) -> Option<Client> {
    match word {
        "quiet" => Some(Client::Quiet),
        "asks" => Some(Client::Asks),
        "keeps" => Some(Client::Keeps),
        _ => None,
    }
}

fn serve<R: Threads + Wait + Clock + Print + Input + AllocGlobal + Sync>(
    rt: &R,
    client: Client,
    numbers: Numbers,
) -> io::Result<()> {
    let (piece, lanes) = (short(numbers.first), short(numbers.second));
    serving::run(rt, rt.alloc(), rt.reader(), client, piece, lanes)
}

fn measure_tables<R: Print + Input + AllocGlobal>(
    rt: &R,
    word: &str,
    numbers: Numbers,
) -> io::Result<()> {
    match word {
        "trie" => tables::trie(rt, Order::Prefix, numbers.first, numbers.second),
        "shuffled" => tables::trie(rt, Order::Shuffled, numbers.first, numbers.second),
        "map" => tables::map(rt, Order::Prefix, numbers.first),
        "map_shuffled" => tables::map(rt, Order::Shuffled, numbers.first),
        "runs" => routes::runs(rt, Order::Prefix, numbers.first),
        "runs_shuffled" => routes::runs(rt, Order::Shuffled, numbers.first),
        _ => measure_lane(rt, word, numbers),
    }
}

fn measure_lane<R: Print + Input + AllocGlobal>(
    rt: &R,
    word: &str,
    numbers: Numbers,
) -> io::Result<()> {
    match word {
        "lane" => lane::run(rt, rt.reader(), Versions::Last),
        "lane_keep" => lane::run(rt, rt.reader(), Versions::EveryTenth),
        "lane_seek" => lane::seek(rt, rt.reader(), numbers.first, numbers.second),
        "lane_walk" => lane::walk(rt, rt.reader(), numbers.first),
        _ => usage(rt),
    }
}

fn usage(rt: &impl Print) -> io::Result<()> {
    println!(rt; "usage: bench each | frames [PIECE]")?;
    println!(rt; "       bench publish | publish_held | snapshot [N [LANES [ASKERS]]]")?;
    println!(rt;
        "       bench trie [N [TIMES]] | shuffled [N [TIMES]] | map [N] | map_shuffled [N]"
    )?;
    println!(rt; "       bench runs [N] | runs_shuffled [N]")?;
    println!(rt; "       bench lane | lane_keep | lane_seek [N [TIMES]] | lane_walk [N]")?;
    println!(rt; "       bench quiet | asks | keeps [PIECE [LANES]]")?;
    println!(rt; "       bench stream SEED LANE MESSAGES")
}
