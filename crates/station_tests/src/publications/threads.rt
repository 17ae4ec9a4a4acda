//! Lanes and askers on threads of their own.
ghost use Rattle.std.specs.Prelude.{◌≡◌};

use super::numbers::{Numbers, tell};
use cut_publisher::*;
use std::alloc::Global;
use std::sync::Wait;
use std::thread::{Threads, join};

/// Both lanes publish, and two askers look, on four threads. All passes as they are then, and whether no asker ever saw
/// less.
pub(crate) fn on_threads<J: Naming + Send + Sync, R: Threads + Wait + Sync>(
    rt: &R,
    alloc: Global,
    publisher: &Publisher<Numbers, J>,
    lanes: (FeedPass<Numbers>, FeedPass<Numbers>),
    askers: (AskPass<Numbers>, AskPass<Numbers>),
) -> (
    (FeedPass<Numbers>, FeedPass<Numbers>),
    ((AskPass<Numbers>, AskPass<Numbers>), bool),
)
    requires lanes { (lanes.0.station ≡ J.site) × (lanes.1.station ≡ J.site) }
    requires askers { (askers.0.station ≡ J.site) × (askers.1.station ≡ J.site) }
    ensures lanes { (result.0.0.station ≡ J.site) × (result.0.1.station ≡ J.site) }
    ensures askers { (result.1.0.0.station ≡ J.site) × (result.1.0.1.station ≡ J.site) }
{
    join(
        rt,
        || -> (FeedPass<Numbers>, FeedPass<Numbers>)
            requires { (lanes.0.station ≡ J.site) × (lanes.1.station ≡ J.site) }
        { both_lanes(rt, alloc, publisher, lanes) },
        || -> ((AskPass<Numbers>, AskPass<Numbers>), bool) { both_askers(rt, askers) },
    )
}

fn both_lanes<J: Naming + Send + Sync, R: Threads + Wait + Sync>(
    rt: &R,
    alloc: Global,
    publisher: &Publisher<Numbers, J>,
    lanes: (FeedPass<Numbers>, FeedPass<Numbers>),
) -> (FeedPass<Numbers>, FeedPass<Numbers>)
    requires lanes { (lanes.0.station ≡ J.site) × (lanes.1.station ≡ J.site) }
    ensures { (result.0.station ≡ J.site) × (result.1.station ≡ J.site) }
{
    let (zero, one) = lanes;
    join(
        rt,
        || -> FeedPass<Numbers>
            requires { zero.station ≡ J.site }
        { run_lane(rt, alloc, publisher, zero) },
        || -> FeedPass<Numbers>
            requires { one.station ≡ J.site }
        { run_lane(rt, alloc, publisher, one) },
    )
}

fn run_lane<J: Naming, R: Wait>(
    rt: &R,
    alloc: Global,
    publisher: &Publisher<Numbers, J>,
    mut feed: FeedPass<Numbers>,
) -> FeedPass<Numbers>
    requires { feed.station ≡ J.site }
    ensures { result.station ≡ J.site }
{
    for number in 0..100 {
        let _ = tell(rt, alloc, publisher, &mut feed, &[number]);
    }
    feed
}

fn both_askers<R: Threads + Sync>(
    rt: &R,
    askers: (AskPass<Numbers>, AskPass<Numbers>),
) -> ((AskPass<Numbers>, AskPass<Numbers>), bool)
    ensures zero { result.0.0.station ≡ askers.0.station }
    ensures one { result.0.1.station ≡ askers.1.station }
{
    let (first, second) = askers;
    let ((first, rises), (second, rises_too)) = join(
        rt,
        || -> (AskPass<Numbers>, bool) { run_asker(first) },
        || -> (AskPass<Numbers>, bool) { run_asker(second) },
    );
    ((first, second), rises && rises_too)
}

// Looks again and again, and says whether it never saw less.
fn run_asker(mut ask: AskPass<Numbers>) -> (AskPass<Numbers>, bool)
    ensures { result.0.station ≡ ask.station }
{
    let mut rises = true;
    let mut last = 0;
    for _ in 0..1000 {
        snapshot(&mut ask);
        let rev = ask.cut().rev();
        rises = rises && last <= rev;
        last = rev;
    }
    (ask, rises)
}
