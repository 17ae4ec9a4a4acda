ghost use Rattle.std.specs.Prelude.{◌≡◌, ℕ, List, ◌∷◌, [], IsTrue, IfOk, OnErr};
ghost use Rattle.bmp_specs.specs.Life.{gave, cause_at_end};
ghost use Rattle.bmp_specs.specs.Openings.{nothing_told};
ghost use Rattle.bmp_specs.specs.Values.{opened};
ghost use Rattle.wire_io.specs.Aside.{Plan};
ghost use Rattle.station_doors.specs.Doors.{untouched};
ghost use Rattle.bmp_message.specs.StreamWalk.{rest_of, fed_of};
ghost use Rattle.station_top.specs.Account.{HasDrawn, Draws};
ghost use Rattle.station_top.specs.Take.{IsNew, Takes, TakesBytes, TakesInput, BreaksOff, LeavesInput, WentOn};

use crate::account::Account;
use bmp_message::{BodyReading, Progress, StreamWalk};
use bmp_specs::{Cause, MOST_READ, MOST_TAKEN};
use station_doors::Port;
use std::alloc::Global;
use wire_io::NoMemory;

// How the input was taken: why it ended, how many entries were noted, its opening among them, and how many bytes were taken.
#[derive(Clone, Copy, Debug, PartialEq, Eq)]
pub struct Taken {
    pub cause: Cause,
    pub revision: u64,
    pub bytes: u64,
}

// Takes the one input connection of a port into an account, read by `R`, and closes it. Where there is none it is an empty
// one. The account takes its opening and its messages. Out of memory the port shows what it gave until then: a front of
// its first connection, or nothing.
pub fn take_input<P: Port, A: Account + Drop, R: BodyReading + Drop>(
    alloc: Global,
    port: &mut P,
) -> Result<(A, Taken), NoMemory>
    ensures takes { IfOk result (λ r. TakesInput R.meaning (A.stands r.0) (P.aside port.old) (P.aside port.new) (P.calls port.old) r.1) }
    ensures breaks { OnErr result ((plan : Plan) → P.aside port.old ≡ untouched plan → P.calls port.old ≡ 0 → BreaksOff R.meaning plan (P.aside port.new)) }
    ensures leaves { OnErr result (LeavesInput R.meaning (P.aside port.old) (P.aside port.new)) }
    ensures went { WentOn (P.aside port.old) (P.aside port.new) (P.went port.old) (P.went port.new) }
    ensures plan { (P.aside port.new).plan ≡ (P.aside port.old).plan }
    ensures stays { P.stays port.new ≡ P.stays port.old }
{
    let mut account = A::begin(alloc)?;
    match port.next_connection() {
        Ok(true) => {
            let taken = take_bytes::<P, A, R>(alloc, port, &mut account);
            port.close();
            match taken {
                Ok(taken) => Ok((account, taken)),
                Err(fault) => Err(fault),
            }
        }
        Ok(false) => Ok((account, untaken(Cause::Ended))),
        Err(_) => Ok((account, untaken(Cause::ReadFault { offset: 0 }))),
    }
}

// Of a connection of which nothing was taken.
fn untaken(cause: Cause) -> Taken
    ensures { result ≡ record { cause = cause; revision = 1; bytes = 0 } }
{
    Taken {
        cause,
        revision: 1,
        bytes: 0,
    }
}

// Takes the present connection to its end, to the end of its walk, or to the limit of one connection. Out of memory no
// read had failed or told the end.
fn take_bytes<P: Port, A: Account, R: BodyReading + Drop>(
    alloc: Global,
    port: &mut P,
    account: &mut A,
) -> Result<Taken, NoMemory>
    requires new { IsNew (P.aside port.old) }
    requires opened { A.stands account.old (opened nothing_told ∷ []) }
    ensures takes { IfOk result (Takes R.meaning (A.stands account.new) (P.aside port.old) (P.aside port.new) (P.went port.old) (P.went port.new) (P.calls port.old)) }
    ensures breaks { OnErr result ((bytes : List ℕ) × TakesBytes R.meaning (P.aside port.old) (P.aside port.new) (P.went port.old) (P.went port.new) (P.calls port.old) bytes gave) }
    ensures stays { P.stays port.new ≡ P.stays port.old }
    ensures is_open { IsTrue (P.aside port.new).is_open }
{
    let mut walk: StreamWalk<R> = StreamWalk::new(alloc);
    let mut buf = [0u8; MOST_READ as usize];
    let mut taken = 0;
    let mut revision = 1;
    while taken < MOST_TAKEN {
        let size = MOST_READ.min(MOST_TAKEN - taken) as usize;
        match port.read(&mut buf[..size]) {
            Ok(0) => return Ok(Taken {
                cause: at_end(&walk),
                revision,
                bytes: taken,
            }),
            Ok(count) => {
                walk.feed(&buf[..count])?;
                taken += count as u64;
                if let Some(cause) = drain(&mut walk, account, &mut revision)? {
                    return Ok(Taken {
                        cause,
                        revision,
                        bytes: taken,
                    });
                }
            }
            Err(_) => return Ok(Taken {
                cause: Cause::ReadFault { offset: taken },
                revision,
                bytes: taken,
            }),
        }
    }
    Ok(Taken {
        cause: Cause::Full,
        revision,
        bytes: taken,
    })
}

// Why a connection ended whose bytes the walk was fed.
fn at_end<R: BodyReading>(walk: &StreamWalk<R>) -> Cause
    ensures { result ≡ cause_at_end (rest_of walk.now) walk.now.offset }
{
    if walk.rest() == 0 {
        Cause::Ended
    } else {
        Cause::CutShort {
            offset: walk.offset(),
        }
    }
}

// Lets the account note all whole messages and counts them, and tells the cause where the walk ends.
fn drain<A: Account, R: BodyReading>(
    walk: &mut StreamWalk<R>,
    account: &mut A,
    revision: &mut u64,
) -> Result<Option<Cause>, NoMemory>
    ensures draws { IfOk result (λ end. (fed : List ℕ)
        → HasDrawn R.meaning R.state (A.stands account.old) fed walk.old revision.old
        → Draws R.meaning R.state (A.stands account.new) fed walk.new revision.new end) }
    ensures fed { IfOk result (λ end. fed_of walk.new ≡ fed_of walk.old) }
{
    loop {
        match walk.next::<A::Wants>()? {
            Progress::Message(item) => {
                account.note(item)?;
                *revision = revision.saturating_add(1);
            }
            Progress::More => return Ok(None),
            Progress::Terminated => return Ok(Some(Cause::Terminated)),
            Progress::Broken(why) => return Ok(Some(Cause::Broken {
                offset: walk.offset(),
                why,
            })),
        }
    }
}
