//! Many works side by side.
ghost use Rattle.std.specs.Prelude.{◌≡◌};
ghost use Rattle.station_run.specs.Works.{AreReady, AreDone};

use cut_publisher::{Naming, Publisher, Subject};
use std::alloc::Global;
use std::sync::Wait;
use std::thread::{Threads, for_each_mut};

/// The whole work of one lane or of one asker, by the publisher that `J` names.
pub trait Work<S: Subject + Drop, J: Naming + Send + Sync> {
    ghost use Rattle.cut_publisher.specs.History.{Site};

    /// The station that it is of.
    ghost station: { Self → Site };

    /// It can be begun.
    ghost ready: { Self → Type 0 };

    /// What it is before a call, and after it.
    ghost done: { Self → Self → Type 0 };

    /// Does it. How it ended, `done` says.
    fn work<R: Threads + Wait + Sync>(&mut self, rt: &R, alloc: Global, publisher: &Publisher<S, J>)
        requires station { station self.old ≡ J.site }
        requires ready { ready self.old }
        ensures { done self.old self.new };
}

/// Does all works side by side, each in a thread of its own where one can be started. Each work stands at its place
/// afterwards.
pub fn run_all<
    S: Subject + Drop + Send + Sync,
    J: Naming + Send + Sync,
    W: Work<S, J> + Send,
    R: Threads + Wait + Sync,
>(rt: &R, alloc: Global, publisher: &Publisher<S, J>, works: &mut [W])
where
    S::Entry: Sync,
    requires { AreReady W.station W.ready J.site works.old }
    ensures { AreDone W.done works.old works.new }
{
    let threads = works.len().max(1);
    let each = move |_: usize, work: &mut W|
        requires { W.station work.now ≡ J.site × W.ready work.now }
        ensures { W.done work.entry.now work.exit.now }
    { work.work(rt, alloc, publisher) };
    for_each_mut(rt, works, threads, &each);
}
