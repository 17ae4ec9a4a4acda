//! All connections, served at once.
ghost use Rattle.std.specs.Prelude.{◌≡◌, ◌≤◌, ◌+◌, [], List, length};
ghost use Rattle.std.specs.Vec.{vec_capacity};
ghost use Rattle.cut_publisher.specs.Opening.{AreFreshAsks, AreFreshFeeds, AreSeated};
ghost use Rattle.cut_publisher.specs.History.{Asker};
ghost use Rattle.rib_model.specs.declared.entry.Entry.{Entry};
ghost use Rattle.station_run.specs.Handed.{link_shows, numbered, numbered_links};
ghost use Rattle.station_run.specs.Served.{HaveServed};
ghost use Rattle.station_run.specs.Tasks.{IsDone, MayBegin, station_of};
ghost use Rattle.station_run.specs.Works.{AreDone, AreReady};

use crate::outcome::Outcome;
use crate::pairing::{outcome_after, pair, part};
use crate::tasks::Task;
use crate::works::run_all;
use bmp_message::BodyReading;
use cut_publisher::{AskList, FeedList, Naming, Publisher};
use feed_worker::FeedPort;
use router_tables::RouterTables;
use station_doors::Link;
use std::alloc::Global;
use std::sync::Wait;
use std::thread::Threads;

// Does all works.
fn do_all<
    B: BodyReading + Drop + Send,
    J: Naming + Send + Sync,
    P: FeedPort<B, J> + Drop + Send,
    K: Link + Drop + Send,
    R: Threads + Wait + Sync,
>(rt: &R, alloc: Global, publisher: &Publisher<RouterTables, J>, tasks: &mut Vec<Task<B, P, K>>)
    requires { AreReady station_of MayBegin J.site tasks.old.items }
    ensures { AreDone (IsDone B.meaning P.aside K.aside K.told K.faults) tasks.old.items tasks.new.items }
{
    run_all(rt, alloc, publisher, tasks.as_mut_slice());
}

/// Serves the connections of all ports and links at once, by the passes of a station that was just opened. The ports, the
/// links and the passes come back; false where there is no memory for the lists of the passes.
pub fn serve_doors<
    B: BodyReading + Drop + Send,
    J: Naming + Send + Sync,
    P: FeedPort<B, J> + Drop + Send,
    K: Link + Drop + Send,
    R: Threads + Wait + Sync,
>(
    rt: &R,
    alloc: Global,
    publisher: &Publisher<RouterTables, J>,
    feeds: &mut FeedList<RouterTables>,
    asks: &mut AskList<RouterTables>,
    ports: &mut Vec<P>,
    links: &mut Vec<K>,
    mut tasks: Vec<Task<B, P, K>>,
    rounds: u32,
) -> (Outcome, bool)
    requires feeds { AreFreshFeeds J.site (length ports.old.items) feeds.old }
    requires asks { (first : List (Asker Entry)) × AreFreshAsks J.site (length links.old.items) first × AreSeated first asks.old }
    requires ports { length ports.old.items ≤ vec_capacity ports.old }
    requires links { length links.old.items ≤ vec_capacity links.old }
    requires tasks { (tasks.items ≡ []) × (length ports.old.items + length links.old.items ≤ vec_capacity tasks) }
    ensures { HaveServed B.meaning rounds J.site
        (numbered P.aside 0 ports.old.items) (numbered P.aside 0 ports.new.items)
        (numbered_links (link_shows K.aside K.told K.faults) 0 links.old.items) (numbered_links (link_shows K.aside K.told K.faults) 0 links.new.items)
        result.1 feeds.new asks.new result.0 }
{
    pair(feeds, asks, ports, links, rounds, &mut tasks);
    do_all(rt, alloc, publisher, &mut tasks);
    let outcome = outcome_after(tasks.as_slice());
    let kept = part(tasks, ports, links, feeds, asks);
    (outcome, kept)
}
