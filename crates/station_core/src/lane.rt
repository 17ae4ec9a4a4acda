//! One lane: its connections, one after another, and the entries that are due of them.
ghost use Rattle.std.specs.Prelude.{◌≡◌, ◌∷◌, ◌++◌, [], IfOk, OnOk};
ghost use Rattle.bmp_specs.specs.Openings.{closing_for};
ghost use Rattle.bmp_message.specs.StreamWalk.{fed_of, rest_of};
ghost use Rattle.rib_model.specs.declared.entry.Entry.TheVariants.{Closed};
ghost use Rattle.station_core.specs.Machine.{Begins, ComesTo, with_end, with_piece};
ghost use Rattle.station_core.specs.Taking.{Gathers, IsSound, Moves, Takes, cause_of_close};

use bmp_message::{BodyReading, Entries, Progress, StreamWalk};
use bmp_specs::{Cause, MOST_TAKEN};
use rib_model::{Closing, Entry, Opening};
use std::alloc::Global;
use wire_io::{List, NoMemory, Unplaced};

/// The present connection of a lane: the walk of what was taken of it, and how many bytes that is.
#[derive(Drop)]
pub(crate) struct Present<B> {
    walk: StreamWalk<B>,
    taken: u64,
}

/// A lane: all entries that are due of its connections, and the connection that is live, if one is.
#[derive(Drop)]
pub(crate) struct Lane<B> {
    pub(crate) due: List<Entry>,
    pub(crate) present: Option<Present<B>>,
}

// Appends an entry.
fn append(due: &mut List<Entry>, entry: Entry) -> Result<(), NoMemory>
    ensures { OnOk result (due.new ≡ due.old ++ entry ∷ []) }
{
    match due.push(entry) {
        Ok(()) => Ok(()),
        Err(Unplaced::NoMemory { .. }) => Err(NoMemory),
    }
}

// Appends all whole messages that the walk has, and tells why it ended, if it did.
fn gather<B: BodyReading + Drop>(
    walk: &mut StreamWalk<B>,
    due: &mut List<Entry>,
) -> Result<Option<Cause>, NoMemory>
    ensures gathers { IfOk result (Gathers B.meaning B.state walk.old walk.new due.old due.new) }
    ensures fed { fed_of walk.new ≡ fed_of walk.old }
{
    loop {
        match walk.next::<Entries>()? {
            Progress::Message(entry) => append(due, entry)?,
            Progress::More => return Ok(None),
            Progress::Terminated => return Ok(Some(Cause::Terminated)),
            Progress::Broken(why) => {
                return Ok(Some(Cause::Broken {
                    offset: walk.offset(),
                    why,
                }));
            }
        }
    }
}

// Takes a piece of the present connection, as far as there is room, and tells why the connection ended, if it did.
fn take_piece<B: BodyReading + Drop>(
    due: &mut List<Entry>,
    present: &mut Present<B>,
    piece: &[u8],
) -> Result<Option<Cause>, NoMemory>
    requires { IsSound B.meaning B.state due.old (Some present.old) }
    ensures { IfOk result (Takes B.meaning B.state piece.now due.old due.new present.old present.new) }
{
    let count = (piece.len() as u64).min(MOST_TAKEN - present.taken);
    present.walk.feed(&piece[..count as usize])?;
    present.taken += count;
    match gather(&mut present.walk, due)? {
        Some(cause) => Ok(Some(cause)),
        None => {
            if present.taken < MOST_TAKEN {
                return Ok(None);
            }
            Ok(Some(Cause::Full))
        }
    }
}

// Why a connection ended of which nothing more comes.
fn cause_of_end<B: BodyReading>(present: &Present<B>, failed: bool) -> Cause
    ensures { result ≡ cause_of_close failed present.now.taken (rest_of present.now.walk) present.now.walk.offset }
{
    if failed {
        return Cause::ReadFault {
            offset: present.taken,
        };
    }
    if present.walk.rest() == 0 {
        Cause::Ended
    } else {
        Cause::CutShort {
            offset: present.walk.offset(),
        }
    }
}

impl<B: BodyReading + Drop> Lane<B> {
    /// A lane without connections.
    pub(crate) fn new(alloc: Global) -> Lane<B>
        ensures { result ≡ record { due = []; present = None } }
    {
        Lane {
            due: List::new(alloc),
            present: None,
        }
    }

    /// Begins a connection, where none is live.
    pub(crate) fn begin(&mut self, alloc: Global) -> Result<(), NoMemory>
        ensures { OnOk result (Moves B.meaning B.state (Begins B.meaning) self.old.due self.new.due self.old.present self.new.present) }
    {
        if self.present.is_some() {
            return Ok(());
        }
        append(&mut self.due, Entry::Opened(Opening::untold()))?;
        self.present = Some(Present {
            walk: StreamWalk::new(alloc),
            taken: 0,
        });
        Ok(())
    }

    /// Takes a piece of the live connection, where one is.
    pub(crate) fn take(&mut self, piece: &[u8]) -> Result<(), NoMemory>
        requires { IsSound B.meaning B.state self.old.due self.old.present }
        ensures { OnOk result (Moves B.meaning B.state (ComesTo B.meaning (with_piece piece.now)) self.old.due self.new.due self.old.present self.new.present) }
    {
        let Some(present) = &mut self.present else {
            return Ok(());
        };
        match take_piece(&mut self.due, present, piece)? {
            Some(cause) => self.close(cause),
            None => Ok(()),
        }
    }

    /// Ends the live connection, where one is: its last read failed, or gave no byte.
    pub(crate) fn end(&mut self, failed: bool) -> Result<(), NoMemory>
        ensures { OnOk result (Moves B.meaning B.state (ComesTo B.meaning (with_end failed)) self.old.due self.new.due self.old.present self.new.present) }
    {
        let Some(present) = &self.present else {
            return Ok(());
        };
        let cause = cause_of_end(present, failed);
        self.close(cause)
    }

    // Appends the closing of the connection, which is then no more.
    fn close(&mut self, cause: Cause) -> Result<(), NoMemory>
        ensures { OnOk result ((self.new.due ≡ self.old.due ++ Closed (closing_for cause) ∷ []) × (self.new.present ≡ None)) }
    {
        self.present = None;
        append(&mut self.due, Entry::Closed(Closing::untimed(cause)))
    }
}
