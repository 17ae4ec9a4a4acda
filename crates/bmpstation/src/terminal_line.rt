//! The line on standard error of a call whose input is typed in.

use station_top::Command;
use std::io::{self, Eprint, IsTerminal};

// Whether the command reads standard input.
fn reads_input(command: &Command) -> bool {
    match command {
        Command::Replay(_) | Command::Check | Command::Relay | Command::Rov(_) | Command::Archive =>
            true,
        Command::Serve(_)
        | Command::Drill(_)
        | Command::Recall(_)
        | Command::Help
        | Command::Version => false,
    }
}

/// Says that the command waits for a stream, where it reads standard input and that is a terminal.
pub fn say_terminal(rt: &HostRuntime, command: &Command) -> io::Result<()> {
    if reads_input(command) && rt.stdin().is_terminal() {
        return eprintln!(rt;
            "bmpstation: reads a BMP stream from standard input, which is a terminal"
        );
    }
    Ok(())
}
