//! How the cell's writer shows a cut: in both copies, one after the other.
ghost use Rattle.std.specs.Prelude.{◌≡◌, IfErr, IfOk, List, ◌∷◌, ◌++◌, [], drop};
ghost use Rattle.cut_publisher.specs.declared.cell.Shown.{Shown};
ghost use Rattle.cut_publisher.specs.Rule.{IsAlike, IsIdle, IsLive, IsReady, site_of};

use crate::cell::{CellWriter, Passes, Shown};
use crate::subject::Subject;
use std::sync::Wait;

// Takes the room for one more place in the writer's queue, and says whether there was memory. It
// queues what is shown already, which what is queued later hides. The queue is empty before, and
// grows by four places at least, so what is queued next has its place too.
pub(crate) fn make_room<S: Subject + Drop>(writer: &mut CellWriter<S>, shown: &Shown<S>) -> bool
    ensures { writer.new.desk ≡ writer.old.desk }
{
    match shown.copy() {
        Some(copy) => writer.append(copy).is_ok(),
        None => false,
    }
}

// Queues what is to be shown.
fn queue<S: Subject + Drop, R: Wait>(rt: &R, writer: &mut CellWriter<S>, shown: Shown<S>)
    ensures desk { writer.new.desk ≡ writer.old.desk }
    ensures pending { drop writer.new.behind writer.new.log.items ≡ drop writer.old.behind writer.old.log.items ++ shown ∷ [] }
{
    let mut shown = shown;
    for _ in rt.forever() {
        match writer.append(shown) {
            Ok(()) => return,
            Err(back) => shown = back,
        }
    }
    // the loop is left by its `return` alone
    unreachable!()
}

// Shows what was queued last, or in the other copy the same again where nothing was. It waits for the askers that are
// inside that copy.
fn turn<S: Subject + Drop, R: Wait>(rt: &R, writer: CellWriter<S>) -> CellWriter<S>
    requires { IsReady S.stands writer.desk.shown.value (drop writer.behind writer.log.items) }
    ensures shown { (before : List (Shown S S.Entry)) (x : Shown S S.Entry) → drop writer.behind writer.log.items ≡ before ++ x ∷ [] → IsAlike result.desk.shown.value x }
    ensures again { drop writer.behind writer.log.items ≡ [] → IsAlike result.desk.shown.value writer.desk.shown.value }
    ensures idle { IsIdle S.stands result.desk.shown.value (drop result.behind result.log.items) }
{
    let mut writer = writer;
    for _ in rt.forever() {
        match try_turn(rt, writer) {
            Ok(turned) => return turned,
            Err(back) => writer = back,
        }
    }
    // the loop is left by its `return` alone
    unreachable!()
}

// The same, where there is memory. Else the writer comes back as it was.
fn try_turn<S: Subject + Drop, R: Wait>(
    rt: &R,
    writer: CellWriter<S>,
) -> Result<CellWriter<S>, CellWriter<S>>
    requires { IsReady S.stands writer.desk.shown.value (drop writer.behind writer.log.items) }
    ensures shown { IfOk result (λ w. (before : List (Shown S S.Entry)) (x : Shown S S.Entry) → drop writer.behind writer.log.items ≡ before ++ x ∷ [] → IsAlike w.desk.shown.value x) }
    ensures again { IfOk result (λ w. drop writer.behind writer.log.items ≡ [] → IsAlike w.desk.shown.value writer.desk.shown.value) }
    ensures idle { IfOk result (λ w. IsIdle S.stands w.desk.shown.value (drop w.behind w.log.items)) }
    ensures back { IfErr result (λ w. (w.desk.shown.value ≡ writer.desk.shown.value) × (drop w.behind w.log.items ≡ drop writer.behind writer.log.items)) }
{
    let (back, done) = writer.publish_as::<Passes, R>(rt);
    match done {
        Ok(()) => Ok(back),
        Err(_) => Err(back),
    }
}

// Shows it in both copies: whoever enters the cell from then on finds it.
pub(crate) fn show<S: Subject + Drop, R: Wait>(
    rt: &R,
    mut writer: CellWriter<S>,
    shown: Shown<S>,
) -> CellWriter<S>
    requires live { IsLive S.stands shown }
    requires book { site_of shown ≡ site_of writer.desk.shown.value }
    ensures { IsAlike result.desk.shown.value shown }
{
    queue(rt, &mut writer, shown);
    let writer = turn(rt, writer);
    turn(rt, writer)
}
