//! The line on standard error of a call that ended in a fault.

use station_doors::HostFault;
use station_top::{Command, Shown, Status, file_word, read_words, why_no_command};
use std::alloc::Global;
use std::fmt;
use std::fmt::{Display, Formatter};
use std::io::{self, Eprint, ErrorKind};

// A file that the words name.
#[derive(Clone, Copy)]
struct Named<'a> {
    path: &'a str,
    // It is an archive that is asked.
    recalled: bool,
}

// What couldn't be had: a port, the file that the words name, or the input; and why.
#[derive(Drop)]
struct Lacking<'a> {
    file: Option<Named<'a>>,
    fault: Option<&'a HostFault>,
}

impl Display for Lacking<'_> {
    fn fmt<W: fmt::Write>(&self, f: &mut Formatter<W>) -> fmt::Result {
        let Some(fault) = self.fault else {
            return f.write_str("what it needs can't be had");
        };
        match (fault.port, self.file) {
            (Some(at), _) => write!(
                f,
                "port {}, address {}: {}",
                at.port(),
                at.ip(),
                fault.error
            ),
            (None, Some(file)) => {
                // The lock of a file that is kept is another program's (`flock`).
                if fault.error.kind() == ErrorKind::WouldBlock {
                    let cure = if file.recalled {
                        ": copy it, and ask the copy"
                    } else {
                        ""
                    };
                    return write!(
                        f,
                        "{}: another program is writing it{cure}",
                        Shown(file.path)
                    );
                }
                write!(f, "{}: {}", Shown(file.path), fault.error)
            }
            (None, None) => write!(f, "standard input: {}", fault.error),
        }
    }
}

// The file that the words name, where their command has one.
fn file_of(alloc: Global, words: &[String]) -> Option<Named<'_>> {
    match read_words(alloc, words) {
        Ok(call) => {
            let recalled = match call.command {
                Command::Recall(_) => true,
                Command::Rov(_) | Command::Archive => false,
                _ => return None,
            };
            Some(Named {
                path: file_word(words, call.lenient),
                recalled,
            })
        }
        Err(_) => None,
    }
}

/// Says which fault a call ended in, where standard output doesn't.
pub fn say_fault<R: Eprint>(
    rt: &R,
    alloc: Global,
    status: Status,
    words: &[String],
    fault: Option<&HostFault>,
) -> io::Result<()> {
    match status {
        Status::Usage => match why_no_command(alloc, words) {
            Some(complaint) => eprintln!(rt; "bmpstation: {complaint}"),
            None => Ok(()),
        },
        Status::YardFault | Status::DiskFault => eprintln!(rt;
            "bmpstation: {}",
            Lacking {
                file: file_of(alloc, words),
                fault,
            }
        ),
        Status::ReadFault => eprintln!(rt; "bmpstation: {}", Lacking { file: None, fault, }),
        Status::WriteFault => eprintln!(rt; "bmpstation: a write to standard output failed"),
        Status::NoMemory => eprintln!(rt; "bmpstation: out of memory"),
        Status::Unwritable => eprintln!(rt; "bmpstation: what the stream left can't be relayed"),
        Status::Done
        | Status::Stopped
        | Status::BadFile
        | Status::BadArchive
        | Status::ArchiveFull => Ok(()),
    }
}
