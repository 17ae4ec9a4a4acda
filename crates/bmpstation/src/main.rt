//! The program: its words, standard input, the network, files and standard output, handed to the station.
//!
//! It ends with the status that `answer_alone` answers, or `station` for the commands that wait. All that these do is proved
//! and said there (`station_top`); what standard input and files hold and where standard output goes is not. Where a call
//! ends in a fault that standard output doesn't name, a line on standard error says which; that line is tested alone, and so
//! are the line of a call that reads a terminal, the thread that writes the log of `serve`, and `--check-options`, by which
//! words are only looked at: neither is called with words that are a command.
#![tactic(auto)]

mod command_line;
mod fault_line;
mod terminal_line;

use command_line::{exit_of, words_of};
use fault_line::say_fault;
use station_doors::{HostYard, Lines};
use station_top::{Command, Status, WordsFault, answer_alone, behind_check, read_words, station};
use std::alloc::Global;
use std::fs::{File, Files};
use std::net::{Net, TcpListener, TcpStream};
use std::os::fd::AsRawFd;
use std::process::ExitCode;
use std::sync::Wait;
use std::thread::Threads;
use std::time::Clock;
use std::{env, fs, mem, thread};
use terminal_line::say_terminal;
use wire_io::{NoMemory, StdSink};

// Opens the standard streams that are closed, so that nothing else gets their numbers: no line meant for one of them goes
// to a connection or into a file, and no file is read as the input.
fn open_standard_streams(rt: &HostRuntime) {
    for _ in 0..3 {
        match fs::open(rt, "/dev/null") {
            Ok(file) => {
                if file.as_raw_fd() > 2 {
                    return;
                }
                mem::forget(file);
            }
            Err(_) => return,
        }
    }
}

// The command that the words are, if they are one.
fn command_of(alloc: Global, words: &[String]) -> Result<Option<Command>, NoMemory> {
    match read_words(alloc, words) {
        Ok(call) => Ok(Some(call.command)),
        Err(WordsFault::Usage) => Ok(None),
        Err(WordsFault::NoMemory) => Err(NoMemory),
    }
}

// The log of a station that serves. Other commands have none.
fn log_of(alloc: Global, command: &Command) -> Result<Option<Lines>, NoMemory> {
    match command {
        Command::Serve(_) => Ok(Some(Lines::new(alloc)?)),
        _ => Ok(None),
    }
}

// Hands the station the words, standard input with the network and the files, and standard output, and where the command
// waits for others also its threads. Beside it a thread writes the log, where there is one, and ends once all lines are
// written. Where no such thread can be had they are written in the end.
fn run_words<
    R: Threads
        + Wait
        + Net<Listener = TcpListener, Stream = TcpStream>
        + Files<File = File>
        + Clock
        + Sync,
>(
    rt: &HostRuntime,
    system: &R,
    words: &[String],
    lines: Option<Lines>,
) -> Result<Status, NoMemory> {
    let alloc = rt.alloc();
    let mut yard = HostYard::new(alloc, rt.stdin(), system, lines.as_ref())?;
    let mut out = StdSink::new(rt.stdout());
    let status = match &lines {
        Some(lines) => {
            let (yard, out) = (&mut yard, &mut out);
            thread::scope(thread::scope_env(), system, move |scope| {
                let writer = scope.spawn(move || lines.write_to(system, &mut rt.stderr()));
                let status = station(system, alloc, words, yard, out);
                lines.end();
                if writer.is_err() {
                    lines.write_to(system, &mut rt.stderr());
                }
                status
            })
        }
        None => match answer_alone(alloc, words, &mut yard, &mut out) {
            Ok(status) => status,
            // Nothing is written yet.
            Err(_) => station(system, alloc, words, &mut yard, &mut out),
        },
    };
    let _ = say_fault(rt, alloc, status, words, yard.fault());
    Ok(status)
}

// Runs the command that the words are. Behind `--check-options` they are only looked at: a command is not run, and ends with
// status 0; words that are none are answered as they are without it.
fn run<
    R: Threads
        + Wait
        + Net<Listener = TcpListener, Stream = TcpStream>
        + Files<File = File>
        + Clock
        + Sync,
>(rt: &HostRuntime, system: &R) -> Result<Status, NoMemory> {
    let alloc = rt.alloc();
    let words = words_of(alloc, env::args(rt))?;
    let words = words.as_slice();
    let checked = behind_check(words);
    let words = checked.unwrap_or(words);
    match command_of(alloc, words)? {
        Some(command) => {
            if checked.is_some() {
                return Ok(Status::Done);
            }
            let lines = log_of(alloc, &command)?;
            let _ = say_terminal(rt, &command);
            run_words(rt, system, words, lines)
        }
        None => run_words(rt, system, words, None),
    }
}

fn main(rt: HostRuntime) -> ExitCode {
    open_standard_streams(&rt);
    let answer = run(&rt, &rt);
    if answer.is_err() {
        let _ = say_fault(&rt, rt.alloc(), Status::NoMemory, &[], None);
    }
    exit_of(answer)
}
