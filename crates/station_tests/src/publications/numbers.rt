//! A subject whose values are lists of numbers, and the calls of the crate over it.
ghost use Rattle.std.specs.Prelude.{◌≡◌, ◌++◌, [], IfOk};
ghost use Rattle.std.specs.Arc.{arc_value};
ghost use Rattle.cut_publisher.specs.Opening.{AreAsksOf, AreFeedsOf};

use cut_publisher::*;
use std::alloc::Global;
use std::sync::{Arc, Wait};

/// A list of numbers, which stands for these numbers.
#[derive(Drop)]
pub struct Numbers {
    pub items: Vec<u64>,
}

impl Subject for Numbers {
    type Entry = u64;

    ghost use Rattle.std.specs.Prelude.{◌≡◌};

    ghost stands = { λ v es. v.items.items ≡ es };
}

impl Numbers {
    pub fn none(alloc: Global) -> Result<Arc<Numbers>, NoMemory>
        ensures { IfOk result (λ v. (arc_value v).items.items ≡ []) }
    {
        let items = Vec::new(alloc);
        shared(alloc, Numbers { items })
    }

    // The list with these appended.
    pub fn with(&self, alloc: Global, more: &[u64]) -> Result<Arc<Numbers>, NoMemory>
        ensures { IfOk result (λ v. (arc_value v).items.items ≡ self.now.items.items ++ more.now) }
    {
        let mut items = Vec::from_slice(alloc, self.items.as_slice())?;
        items.extend_from_slice(more)?;
        shared(alloc, Numbers { items })
    }
}

// The list after a counter.
fn shared(alloc: Global, numbers: Numbers) -> Result<Arc<Numbers>, NoMemory>
    ensures { IfOk result (λ v. arc_value v ≡ numbers) }
{
    match Arc::new(alloc, numbers) {
        Ok(numbers) => Ok(numbers),
        Err(_) => Err(NoMemory),
    }
}

// Takes the last pass out of the list.
fn take_feed<J: Naming>(feeds: &mut FeedList<Numbers>) -> Result<FeedPass<Numbers>, NoMemory>
    requires { AreFeedsOf J.site feeds.old }
    ensures left { AreFeedsOf J.site feeds.new }
    ensures taken { IfOk result (λ f. f.station ≡ J.site) }
{
    feeds.pop().ok_or(NoMemory)
}

// Takes the passes of lanes 0 and 1 out of the list.
pub fn take_lanes<J: Naming>(
    feeds: &mut FeedList<Numbers>,
) -> Result<(FeedPass<Numbers>, FeedPass<Numbers>), NoMemory>
    requires { AreFeedsOf J.site feeds.old }
    ensures left { AreFeedsOf J.site feeds.new }
    ensures taken { IfOk result (λ f. (f.0.station ≡ J.site) × (f.1.station ≡ J.site)) }
{
    let one = take_feed::<J>(feeds)?;
    let zero = take_feed::<J>(feeds)?;
    Ok((zero, one))
}

// Takes the last asker out of the list.
fn take_ask<J: Naming>(asks: &mut AskList<Numbers>) -> Result<AskPass<Numbers>, NoMemory>
    requires { AreAsksOf J.site asks.old }
    ensures left { AreAsksOf J.site asks.new }
    ensures taken { IfOk result (λ a. a.station ≡ J.site) }
{
    asks.pop().ok_or(NoMemory)
}

// Takes two askers out of the list.
pub fn take_askers<J: Naming>(
    asks: &mut AskList<Numbers>,
) -> Result<(AskPass<Numbers>, AskPass<Numbers>), NoMemory>
    requires { AreAsksOf J.site asks.old }
    ensures left { AreAsksOf J.site asks.new }
    ensures taken { IfOk result (λ a. (a.0.station ≡ J.site) × (a.1.station ≡ J.site)) }
{
    let first = take_ask::<J>(asks)?;
    let second = take_ask::<J>(asks)?;
    Ok((first, second))
}

// Puts a pass into the list.
fn put_feed<J: Naming>(
    feeds: &mut FeedList<Numbers>,
    feed: FeedPass<Numbers>,
) -> Result<(), NoMemory>
    requires feeds { AreFeedsOf J.site feeds.old }
    requires feed { feed.station ≡ J.site }
    ensures { AreFeedsOf J.site feeds.new }
{
    match feeds.push(feed) {
        Ok(()) => Ok(()),
        Err(_) => Err(NoMemory),
    }
}

// Puts the passes of lanes 0 and 1 into the list.
pub fn put_lanes<J: Naming>(
    feeds: &mut FeedList<Numbers>,
    lanes: (FeedPass<Numbers>, FeedPass<Numbers>),
) -> Result<(), NoMemory>
    requires feeds { AreFeedsOf J.site feeds.old }
    requires lanes { (lanes.0.station ≡ J.site) × (lanes.1.station ≡ J.site) }
    ensures { AreFeedsOf J.site feeds.new }
{
    let (zero, one) = lanes;
    put_feed::<J>(feeds, zero)?;
    put_feed::<J>(feeds, one)
}

// Puts an asker into the list.
fn put_ask<J: Naming>(asks: &mut AskList<Numbers>, ask: AskPass<Numbers>) -> Result<(), NoMemory>
    requires asks { AreAsksOf J.site asks.old }
    requires ask { ask.station ≡ J.site }
    ensures { AreAsksOf J.site asks.new }
{
    match asks.push(ask) {
        Ok(()) => Ok(()),
        Err(_) => Err(NoMemory),
    }
}

// Puts two askers into the list.
pub fn put_askers<J: Naming>(
    asks: &mut AskList<Numbers>,
    askers: (AskPass<Numbers>, AskPass<Numbers>),
) -> Result<(), NoMemory>
    requires asks { AreAsksOf J.site asks.old }
    requires askers { (askers.0.station ≡ J.site) × (askers.1.station ≡ J.site) }
    ensures { AreAsksOf J.site asks.new }
{
    let (first, second) = askers;
    put_ask::<J>(asks, first)?;
    put_ask::<J>(asks, second)
}

// Publishes these numbers after those that the lane has published.
pub fn tell<J: Naming, R: Wait>(
    rt: &R,
    alloc: Global,
    publisher: &Publisher<Numbers, J>,
    pass: &mut FeedPass<Numbers>,
    numbers: &[u64],
) -> Result<Note<Numbers>, NoMemory>
    requires { pass.old.station ≡ J.site }
    ensures pass { pass.new.station ≡ J.site }
    ensures note { IfOk result (λ n. n.station ≡ J.site) }
{
    if pass.count() > 1000 || numbers.len() > 1000 {
        return Err(NoMemory);
    }
    let value = pass.value().with(alloc, numbers)?;
    match publish(rt, alloc, publisher, pass, numbers, value) {
        Ok(note) => Ok(note),
        Err(_) => Err(NoMemory),
    }
}

// Whether the lane of the cut has so many numbers, these first.
pub fn has(cut: &Cut<Numbers>, lane: u32, count: u64, numbers: &[u64]) -> bool {
    if lane >= cut.lanes() {
        return false;
    }
    cut.count(lane) == count && cut.value(lane).items.as_slice().starts_with(numbers)
}
