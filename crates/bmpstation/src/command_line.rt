//! The words of the command line, and the exit status.
ghost use Rattle.std.specs.Prelude.{◌≡◌, ◌++◌, [], IfOk, IfErr, OnErr, drop};
ghost use Rattle.std.specs.Process.{exit_status};
ghost use Rattle.std.specs.Vec.Iter.{into_iter_items, into_iter_len};
ghost use Rattle.station_top.specs.Status.{code_of};

use station_top::Status;
use std::alloc::Global;
use std::env::Args;
use std::io;
use std::io::ErrorKind;
use std::process::ExitCode;
use wire_io::NoMemory;

// The words behind the program's name.
fn behind_name(alloc: Global, mut all: Args) -> Result<Vec<String>, NoMemory>
    ensures { IfOk result (λ words. words.items ≡ drop 1 (into_iter_items all)) }
{
    let _ = all.next();
    let mut words = Vec::new(alloc);
    while let Some(word) = all.next() {
        words.push(word)?;
    }
    Ok(words)
}

/// The words behind the program's name, of what the system gave. Where one of them is no text there is none, which is no
/// command.
pub(crate) fn words_of(alloc: Global, given: io::Result<Args>) -> Result<Vec<String>, NoMemory>
    ensures words { IfOk given (λ all. IfOk result (λ words. words.items ≡ drop 1 (into_iter_items all))) }
    ensures none { IfErr given (λ error. IfOk result (λ words. words.items ≡ [])) }
{
    match given {
        Ok(all) => behind_name(alloc, all),
        Err(error) => {
            if error.kind() == ErrorKind::OutOfMemory {
                Err(NoMemory)
            } else {
                Ok(Vec::new(alloc))
            }
        }
    }
}

/// The exit status: that of what the station answered, or of `NoMemory` where there was no memory to ask it.
pub(crate) fn exit_of(answer: Result<Status, NoMemory>) -> ExitCode
    ensures answered { IfOk answer (λ status. exit_status result ≡ code_of status) }
    ensures memory { OnErr answer (exit_status result ≡ code_of Status.NoMemory) }
{
    let status = match answer {
        Ok(status) => status,
        Err(NoMemory) => Status::NoMemory,
    };
    ExitCode::from(status.code())
}
