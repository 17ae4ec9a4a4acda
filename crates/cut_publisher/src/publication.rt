//! A publication: a lane's entries join the history in one step, and the cell shows the cut.
ghost use Rattle.std.specs.Prelude.{◌≡◌, ◌+◌, ◌<◌, ◌≤◌, ◌^◌, ◌++◌, ◌∷◌, [], length, IsTrue, IfNone, IfSome, MatchResult, slice_index_or};
ghost use Rattle.std.specs.Arc.{arc_value};
ghost use Rattle.cut_publisher.specs.History.{told, part};
ghost use Rattle.cut_publisher.specs.declared.history.Step.TheVariants.{Batch};
ghost use Rattle.cut_publisher.specs.Cuts.{total, with_value};
ghost use Rattle.cut_publisher.specs.Logs.{head_of, IsOpen};
ghost use Rattle.cut_publisher.specs.Rule.{Good, IsAlike, IsLive, site_of};
ghost use Rattle.cut_publisher.specs.Publication.{IsFollowed, Published, note_to};
ghost use Rattle.cut_publisher.specs.Refusals.{handed_back};

use crate::cell::{CellWriter, Shown};
use crate::cut::Cut;
use crate::desk::{Desk, MOST_REVISION, MOST_STEPS, Publisher, never, within};
use crate::feed::FeedPass;
use crate::log::{LogWord, add_batch};
use crate::note::Note;
use crate::subject::{Naming, Subject};
use crate::turning::{make_room, show};
use core::mem::replace_with;
use std::alloc::Global;
use std::sync::{Arc, Mutex, Wait};

/// A publication that was refused.
#[derive(Drop)]
pub enum Refused<S: Drop> {
    /// There was no memory. The value comes back.
    NoMemory { value: Arc<S> },
}

/// Appends the entries to the history as the lane's, in one step. Out of memory, the history and
/// the pass are as before, and the value comes back.
///
/// It may wait for the lock, and for askers to leave a copy of the cell. It takes its memory before
/// the history grows. Under the lock it compares the lane's numbers with the pass's; were they to
/// differ, it would wait for ever. They never do, since each lane has one pass, which alone adds to
/// it, but no proof says so. It also waits for ever where the history has 2^63 entries or more: the
/// lanes' counts, each at most 2^57, are one number of 64 bits together. Beyond the making of the value it costs a few microseconds at most, and
/// when it returns, nothing of the publisher holds an older cut.
pub fn publish<S: Subject + Drop, J: Naming, R: Wait>(
    rt: &R,
    alloc: Global,
    publisher: &Publisher<S, J>,
    pass: &mut FeedPass<S>,
    entries: &[S::Entry],
    value: Arc<S>,
) -> Result<Note<S>, Refused<S>>
    requires station { pass.old.station ≡ J.site }
    requires value { S.stands (arc_value value) (pass.old.entries ++ entries.now) }
    requires room { length (pass.old.entries ++ entries.now) ≤ 2 ^ 57 }
    ensures { MatchResult result (λ n. Published pass.old entries.now pass.new n) (λ r. (pass.new ≡ pass.old) × (handed_back r ≡ arc_value value)) }
{
    let lock = &publisher.desk;
    replace_with(
        pass,
        value,
        |pass, value| publish_by(rt, alloc, lock, pass, entries, value),
    )
}

/// Publishes as `publish` does, and makes no note. Who holds a note while others publish is the one to let go of what they
/// replace, so a lane that tells nobody of its publications holds none.
pub fn publish_unnoted<S: Subject + Drop, J: Naming, R: Wait>(
    rt: &R,
    alloc: Global,
    publisher: &Publisher<S, J>,
    pass: &mut FeedPass<S>,
    entries: &[S::Entry],
    value: Arc<S>,
) -> Result<(), Refused<S>>
    requires station { pass.old.station ≡ J.site }
    requires value { S.stands (arc_value value) (pass.old.entries ++ entries.now) }
    requires room { length (pass.old.entries ++ entries.now) ≤ 2 ^ 57 }
    ensures { MatchResult result (λ _. Published pass.old entries.now pass.new (note_to pass.new)) (λ r. (pass.new ≡ pass.old) × (handed_back r ≡ arc_value value)) }
{
    let lock = &publisher.desk;
    replace_with(
        pass,
        value,
        |pass, value| publish_unnoted_by(rt, alloc, lock, pass, entries, value),
    )
}

fn publish_unnoted_by<S: Subject + Drop, J: Naming, R: Wait>(
    rt: &R,
    alloc: Global,
    lock: &Mutex<Desk<S, J, CellWriter<S>>>,
    pass: FeedPass<S>,
    entries: &[S::Entry],
    value: Arc<S>,
) -> (FeedPass<S>, Result<(), Refused<S>>)
    requires station { pass.station ≡ J.site }
    requires value { S.stands (arc_value value) (pass.entries ++ entries.now) }
    requires room { length (pass.entries ++ entries.now) ≤ 2 ^ 57 }
    ensures { MatchResult result.1 (λ _. Published pass entries.now result.0 (note_to result.0)) (λ r. (result.0 ≡ pass) × (handed_back r ≡ arc_value value)) }
{
    within(rt, lock, (pass, value), |desk, (pass, value)| {
        desk.publish_unnoted(rt, alloc, pass, entries, value)
    })
}

fn publish_by<S: Subject + Drop, J: Naming, R: Wait>(
    rt: &R,
    alloc: Global,
    lock: &Mutex<Desk<S, J, CellWriter<S>>>,
    pass: FeedPass<S>,
    entries: &[S::Entry],
    value: Arc<S>,
) -> (FeedPass<S>, Result<Note<S>, Refused<S>>)
    requires station { pass.station ≡ J.site }
    requires value { S.stands (arc_value value) (pass.entries ++ entries.now) }
    requires room { length (pass.entries ++ entries.now) ≤ 2 ^ 57 }
    ensures { MatchResult result.1 (λ n. Published pass entries.now result.0 n) (λ r. (result.0 ≡ pass) × (handed_back r ≡ arc_value value)) }
{
    within(rt, lock, (pass, value), |desk, (pass, value)| {
        desk.publish(rt, alloc, pass, entries, value)
    })
}

impl<S: Subject + Drop, J: Naming> Desk<S, J, CellWriter<S>> {
    // Publishes, and lets the note go here, where the cut has other owners.
    fn publish_unnoted<R: Wait>(
        self,
        rt: &R,
        alloc: Global,
        pass: FeedPass<S>,
        entries: &[S::Entry],
        value: Arc<S>,
    ) -> (
        Desk<S, J, CellWriter<S>>,
        (FeedPass<S>, Result<(), Refused<S>>),
    )
        requires station { pass.station ≡ J.site }
        requires value { S.stands (arc_value value) (pass.entries ++ entries.now) }
        requires room { length (pass.entries ++ entries.now) ≤ 2 ^ 57 }
        ensures { MatchResult result.1.1 (λ _. Published pass entries.now result.1.0 (note_to result.1.0)) (λ r. (result.1.0 ≡ pass) × (handed_back r ≡ arc_value value)) }
    {
        let (desk, (pass, published)) = self.publish(rt, alloc, pass, entries, value);
        match published {
            Ok(_) => (desk, (pass, Ok(()))),
            Err(refused) => (desk, (pass, Err(refused))),
        }
    }

    // Publishes, where the numbers are those of the pass.
    fn publish<R: Wait>(
        self,
        rt: &R,
        alloc: Global,
        pass: FeedPass<S>,
        entries: &[S::Entry],
        value: Arc<S>,
    ) -> (
        Desk<S, J, CellWriter<S>>,
        (FeedPass<S>, Result<Note<S>, Refused<S>>),
    )
        requires station { pass.station ≡ J.site }
        requires value { S.stands (arc_value value) (pass.entries ++ entries.now) }
        requires room { length (pass.entries ++ entries.now) ≤ 2 ^ 57 }
        ensures { MatchResult result.1.1 (λ n. Published pass entries.now result.1.0 n) (λ r. (result.1.0 ≡ pass) × (handed_back r ≡ arc_value value)) }
    {
        let Desk {
            head,
            writer,
            shown,
            spare,
            of,
        } = self;
        if shown.steps >= MOST_STEPS {
            match never(rt) {}
        }
        if shown.cut.rev() >= MOST_REVISION {
            match never(rt) {}
        }
        if !follows(&shown, &pass) {
            match never(rt) {}
        }
        let (writer, shown, spare, note) = extend(
            rt, alloc, &head, writer, shown, spare, pass.lane, entries, &value,
        );
        let desk = Desk {
            head,
            writer,
            shown,
            spare,
            of,
        };
        match note {
            None => (desk, (pass, Err(Refused::NoMemory { value }))),
            Some(note) => {
                let pass = FeedPass {
                    lane: pass.lane,
                    lanes: pass.lanes,
                    count: pass.count + entries.len() as u64,
                    value,
                    seen: note.seen.again(),
                    steps: note.steps,
                };
                (desk, (pass, Ok(Note::of(note))))
            }
        }
    }
}

// Whether the pass's numbers are those of its lane here, and its log is no longer. Then its entries
// are all that the lane has published.
pub(crate) fn follows<S: Subject + Drop>(shown: &Shown<S>, pass: &FeedPass<S>) -> bool
    requires station { pass.now.station ≡ site_of shown.now }
    requires good { Good S.stands shown.now }
    ensures { IsTrue result → IsFollowed pass.now (arc_value shown.now.cut) (told shown.now.seen.log) }
{
    let mut both = shown.seen.again();
    both.learn(&pass.seen);
    if pass.lane >= shown.cut.lanes() {
        return false;
    }
    if shown.cut.count(pass.lane) != pass.count {
        return false;
    }
    if pass.steps > shown.steps {
        return false;
    }
    true
}

// A cut that nobody else has, with this value for a lane. None where somebody has it.
fn written<S: Drop>(cut: Arc<Cut<S>>, lane: u32, value: &Arc<S>, more: u64) -> Option<Arc<Cut<S>>>
    requires lane { lane < length (arc_value cut) }
    requires count { (slice_index_or (arc_value cut) lane (arc_value value.now, 0)).1 + more < 2 ^ 64 }
    requires rev { total (arc_value cut) + more < 2 ^ 64 }
    ensures { IfSome result (λ c. arc_value c ≡ with_value (arc_value cut) lane (arc_value value.now) more) }
{
    let mut cut = cut;
    match Arc::get_mut(&mut cut) {
        Some(lanes) => lanes.put(lane, value, more).ok()?,
        None => return None,
    }
    Some(cut)
}

// The cut in which the lane has this value: the spare one where that can be written, else a new one.
fn next_cut<S: Drop>(
    alloc: Global,
    cut: &Cut<S>,
    spare: Option<Arc<Cut<S>>>,
    lane: u32,
    value: &Arc<S>,
    more: u64,
) -> Option<Arc<Cut<S>>>
    requires spare { IfSome spare (λ c. arc_value c ≡ cut.now) }
    requires lane { lane < length cut.now }
    requires count { (slice_index_or cut.now lane (arc_value value.now, 0)).1 + more < 2 ^ 64 }
    requires rev { total cut.now + more < 2 ^ 64 }
    ensures { IfSome result (λ c. arc_value c ≡ with_value cut.now lane (arc_value value.now) more) }
{
    if let Some(spare) = spare
        && let Some(next) = written(spare, lane, value, more)
    {
        return Some(next);
    }
    cut.with(alloc, lane, value, more).ok()
}

// Three owners of the cut in which the lane has this value: for the cell, the note and the lock.
fn three_owners<S: Drop>(
    alloc: Global,
    cut: &Cut<S>,
    spare: Option<Arc<Cut<S>>>,
    lane: u32,
    value: &Arc<S>,
    more: u64,
) -> Option<(Arc<Cut<S>>, Arc<Cut<S>>, Arc<Cut<S>>)>
    requires spare { IfSome spare (λ c. arc_value c ≡ cut.now) }
    requires lane { lane < length cut.now }
    requires count { (slice_index_or cut.now lane (arc_value value.now, 0)).1 + more < 2 ^ 64 }
    requires rev { total cut.now + more < 2 ^ 64 }
    ensures items { IfSome result (λ t. arc_value t.0 ≡ with_value cut.now lane (arc_value value.now) more) }
    ensures alike { IfSome result (λ t. (arc_value t.1 ≡ arc_value t.0) × (arc_value t.2 ≡ arc_value t.0)) }
{
    let one = next_cut(alloc, cut, spare, lane, value, more)?;
    let two = Arc::try_clone(&one).ok()?;
    let three = Arc::try_clone(&one).ok()?;
    Some((one, two, three))
}

// Adds the entries to the log, and shows the cut in which the lane has the value. What was shown
// becomes the spare cut, if nobody else has it. Without a note there was no memory, and nothing
// changed.
fn extend<S: Subject + Drop, R: Wait>(
    rt: &R,
    alloc: Global,
    head: &LogWord<S::Entry>,
    mut writer: CellWriter<S>,
    shown: Shown<S>,
    spare: Option<Arc<Cut<S>>>,
    lane: u32,
    entries: &[S::Entry],
    value: &Arc<S>,
) -> (
    CellWriter<S>,
    Shown<S>,
    Option<Arc<Cut<S>>>,
    Option<Shown<S>>,
)
    requires head { head.now ≡ head_of shown.seen.book }
    requires cell { IsAlike writer.desk.shown.value shown }
    requires good { Good S.stands shown }
    requires unmarked { IsOpen shown.seen.log }
    requires steps { shown.steps < 2 ^ 62 }
    requires revision { total (arc_value shown.cut) < 2 ^ 63 }
    requires spare { IfSome spare (λ c. arc_value c ≡ arc_value shown.cut) }
    requires lane { lane < length (arc_value shown.cut) }
    requires value { S.stands (arc_value value.now) (part lane (told shown.seen.log) ++ entries.now) }
    requires room { length (part lane (told shown.seen.log) ++ entries.now) ≤ 2 ^ 57 }
    ensures cell { IsAlike result.0.desk.shown.value result.1 }
    ensures shown { Good S.stands result.1 × (site_of result.1 ≡ site_of shown) × IsOpen result.1.seen.log }
    ensures spare { IfSome result.2 (λ c. arc_value c ≡ arc_value result.1.cut) }
    ensures none { IfNone result.3 (result.1 ≡ shown) }
    ensures some { IfSome result.3 (λ n. IsLive S.stands n × (site_of n ≡ site_of shown) × (n.seen.log ≡ shown.seen.log ++ Batch lane entries.now ∷ [])) }
{
    let more = entries.len() as u64;
    let Some((cut, noted, kept)) = three_owners(alloc, &shown.cut, spare, lane, value, more) else {
        return (writer, shown, None, None);
    };
    if !make_room(&mut writer, &shown) {
        return (writer, shown, None, None);
    }
    let Shown {
        cut: before,
        mut seen,
        steps,
    } = shown;
    if !add_batch(head, &mut seen, steps, lane, entries) {
        match never(rt) {}
    }
    let steps = steps + 1;
    let writer = show(
        rt,
        writer,
        Shown {
            cut,
            seen: seen.again(),
            steps,
        },
    );
    let note = Shown {
        cut: noted,
        seen: seen.again(),
        steps,
    };
    let shown = Shown {
        cut: kept,
        seen,
        steps,
    };
    let spare = written(before, lane, value, more);
    (writer, shown, spare, Some(note))
}
