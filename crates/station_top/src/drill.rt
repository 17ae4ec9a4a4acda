//! The replies of a drill.
ghost use Rattle.std.specs.Prelude.{◌≡◌, ℕ, [], List, OnOk, length};
ghost use Rattle.std.specs.Arc.{arc_value};
ghost use Rattle.std.specs.Io.KnownBytes.{append_known};
ghost use Rattle.cut_publisher.specs.declared.history.Event.{Event};
ghost use Rattle.query_eval.specs.Replies.{PutsReply, StandsForHistory, lanes_of};
ghost use Rattle.rib_model.specs.declared.entry.Entry.{Entry};
ghost use Rattle.station_run.specs.Drill.{IsDrillCut};
ghost use Rattle.station_top.specs.Drill.{AreReplies, IsDrillText};
ghost use Rattle.wire_io.specs.Aside.{laid_over};

use cut_publisher::Cut;
use query_eval::answer;
use query_lang::{Ask, Query, Select};
use router_tables::RouterTables;
use std::sync::Arc;
use wire_io::{BufferedSink, Failed, Puts, Sink, through_buffer};

// The replies of `cut`, `routers` and `count` on a cut, one after another.
struct DrillReplies<'a> {
    cut: &'a Cut<RouterTables>,
}

impl<O: Sink> Puts<O> for DrillReplies<'_> {
    ghost leaves = { λ replies old result new. (history : List (Event Entry)) → StandsForHistory replies.cut.now history
        → PutsReply (λ p. O.faults p.below) (λ p. append_known (O.told p.below) p.held) (λ p. laid_over (O.told p.first) (O.aside p.below))
        (AreReplies (lanes_of (length replies.cut.now) history)) old result new };

    fn put(self, buffer: &mut BufferedSink<O>) -> Result<(), Failed> {
        let DrillReplies { cut } = self;
        answer(cut, &Ask::Query(Query::Cut), buffer)?;
        answer(cut, &Ask::Query(Query::Routers), buffer)?;
        answer(cut, &Ask::Query(Query::Count(Select::all())), buffer)
    }
}

/// Writes the replies of `cut`, `routers` and `count` on the cut of a drill, one after another.
///
/// The lines go through one buffer, which is handed on once at the end. A write that fails ends the call; a front of
/// the replies was then written.
pub fn write_drill<O: Sink>(out: &mut O, cut: &Arc<Cut<RouterTables>>) -> Result<(), Failed>
    ensures { (seed lanes messages : ℕ) → IsDrillCut seed lanes messages (arc_value cut.now) → PutsReply O.faults O.told O.aside (IsDrillText seed lanes messages) out.old result out.new }
{
    through_buffer(out, DrillReplies { cut })
}
