//! The end of a station: the mark joins its history, and all its passes see the whole.
ghost use Rattle.std.specs.Prelude.{◌≡◌, ◌+◌, ◌<◌, ◌^◌, ◌++◌, ◌∷◌, [], length, All, IsTrue, IfOk, MatchResult};
ghost use Rattle.std.specs.Arc.{arc_value};
ghost use Rattle.cut_publisher.specs.History.{told};
ghost use Rattle.cut_publisher.specs.declared.history.Step.TheVariants.{End};
ghost use Rattle.cut_publisher.specs.Logs.{head_of, IsOpen, IsEnded};
ghost use Rattle.cut_publisher.specs.Rule.{Good, site_of};
ghost use Rattle.cut_publisher.specs.Opening.{AreAsksOf, AreFeedsOf};
ghost use Rattle.cut_publisher.specs.Ending.{AllFollow, AllSame, FeedsEnded, AsksEnded, IsEnding};
ghost use Rattle.cut_publisher.specs.Refusals.{HandsBack};

use crate::ask::AskPass;
use crate::cell::{CellWriter, Shown};
use crate::cut::Cut;
use crate::desk::{Desk, MOST_STEPS, Publisher, Writes, never};
use crate::feed::FeedPass;
use crate::lists::{AskList, FeedList};
use crate::log::{LogWord, add_end};
use crate::publication::follows;
use crate::subject::{Naming, Subject};
use std::alloc::{AllocError, Global};
use std::sync::{Arc, Mutex, Wait};

/// What is left of a station: its last cut, and all its passes, which have seen one history. The
/// last event of that history is the mark, which no revision counts, and no other event is.
#[derive(Drop)]
pub struct Ending<S: Subject + Drop> {
    pub cut: Arc<Cut<S>>,
    pub feeds: FeedList<S>,
    pub asks: AskList<S>,
}

/// A station that was not finished. It is not `Drop`, as the publisher is not.
pub enum Unfinished<S: Subject + Drop, J: Naming, W: Writes<S> = CellWriter<S>> {
    /// There was no memory. All comes back untouched.
    NoMemory {
        publisher: Publisher<S, J, W>,
        feeds: FeedList<S>,
        asks: AskList<S>,
    },
}

/// Ends the history with the mark, and shows the whole to all passes.
///
/// It takes its memory before the mark joins. It waits for the askers that are inside the cell, and
/// compares each lane's numbers with its pass's as `publish` does.
pub fn finish<S: Subject + Drop, J: Naming, R: Wait>(
    rt: &R,
    alloc: Global,
    publisher: Publisher<S, J>,
    mut feeds: FeedList<S>,
    mut asks: AskList<S>,
) -> Result<Ending<S>, Unfinished<S, J>>
    requires feeds { AreFeedsOf J.site feeds }
    requires asks { AreAsksOf J.site asks }
    ensures { MatchResult result (λ e. IsEnding S.stands J.site.lanes feeds asks (arc_value e.cut) e.feeds e.asks) (HandsBack feeds asks) }
{
    let Publisher { desk } = publisher;
    let Desk {
        head,
        writer,
        shown,
        spare,
        of,
    } = desk.into_inner();
    let Ok((cut, owners)) = all_owners(alloc, &shown.cut, asks.as_slice().len()) else {
        let desk = Desk {
            head,
            writer,
            shown,
            spare,
            of,
        };
        let publisher = Publisher {
            desk: Mutex::new(desk),
        };
        return Err(Unfinished::NoMemory {
            publisher,
            feeds,
            asks,
        });
    };
    if shown.steps >= MOST_STEPS {
        match never(rt) {}
    }
    if !feeds.follow(&shown) {
        match never(rt) {}
    }
    let end = marked(rt, &head, shown);
    drop(writer.take(rt));
    feeds.end(&end);
    asks.end(&end, owners);
    Ok(Ending { cut, feeds, asks })
}

// An owner of the cut for the ending, and one for each asker.
fn all_owners<S: Drop>(
    alloc: Global,
    cut: &Arc<Cut<S>>,
    askers: usize,
) -> Result<(Arc<Cut<S>>, Vec<Arc<Cut<S>>>), AllocError>
    ensures cut { IfOk result (λ t. arc_value t.0 ≡ arc_value cut.now) }
    ensures owners { IfOk result (λ t. (length t.1.items ≡ askers) × All (λ c. arc_value c ≡ arc_value cut.now) t.1.items) }
{
    let mut owners = Vec::new(alloc);
    for _asker in 0..askers {
        owners.push(Arc::try_clone(cut)?)?;
    }
    Ok((Arc::try_clone(cut)?, owners))
}

impl<S: Subject + Drop> FeedList<S> {
    // Whether each pass's numbers are those of its lane here.
    fn follow(&self, shown: &Shown<S>) -> bool
        requires feeds { AreFeedsOf (site_of shown.now) self.now }
        requires good { Good S.stands shown.now }
        ensures { IsTrue result → AllFollow self.now (arc_value shown.now.cut) (told shown.now.seen.log) }
    {
        all_follow(shown, self.items.as_slice())
    }

    // Shows the end of the history to each.
    fn end(&mut self, end: &Shown<S>)
        requires feeds { AreFeedsOf (site_of end.now) self.old }
        requires good { Good S.stands end.now }
        requires same { AllSame (told end.now.seen.log) self.old }
        ensures { FeedsEnded (told end.now.seen.log) self.old self.new }
    {
        end_feeds(self.items.as_mut_slice(), end);
    }
}

impl<S: Subject + Drop> AskList<S> {
    // Shows the end of the history to each, which takes an owner of the last cut.
    fn end(&mut self, end: &Shown<S>, owners: Vec<Arc<Cut<S>>>)
        requires asks { AreAsksOf (site_of end.now) self.old }
        requires good { Good S.stands end.now }
        requires marked { IsEnded end.now.seen.log }
        requires count { length owners.items ≡ length self.old }
        requires owners { All (λ c. arc_value c ≡ arc_value end.now.cut) owners.items }
        ensures { AsksEnded (told end.now.seen.log) self.old self.new }
    {
        end_asks(self.items.as_mut_slice(), end, owners);
    }
}

fn all_follow<S: Subject + Drop>(shown: &Shown<S>, feeds: &[FeedPass<S>]) -> bool
    requires feeds { AreFeedsOf (site_of shown.now) feeds.now }
    requires good { Good S.stands shown.now }
    ensures { IsTrue result → AllFollow feeds.now (arc_value shown.now.cut) (told shown.now.seen.log) }
{
    for feed in feeds {
        if !follows(shown, feed) {
            return false;
        }
    }
    true
}

// Adds the mark to the log.
fn marked<S: Subject + Drop, R: Wait>(rt: &R, head: &LogWord<S::Entry>, shown: Shown<S>) -> Shown<S>
    requires head { head.now ≡ head_of shown.seen.book }
    requires good { Good S.stands shown }
    requires unmarked { IsOpen shown.seen.log }
    requires steps { shown.steps < 2 ^ 62 }
    ensures good { Good S.stands result }
    ensures book { site_of result ≡ site_of shown }
    ensures cut { result.cut ≡ shown.cut }
    ensures log { result.seen.log ≡ shown.seen.log ++ End ∷ [] }
{
    let Shown {
        cut,
        mut seen,
        steps,
    } = shown;
    if !add_end(head, &mut seen, steps) {
        match never(rt) {}
    }
    Shown {
        cut,
        seen,
        steps: steps + 1,
    }
}

fn end_feeds<S: Subject + Drop>(feeds: &mut [FeedPass<S>], end: &Shown<S>)
    requires feeds { AreFeedsOf (site_of end.now) feeds.old }
    requires good { Good S.stands end.now }
    requires same { AllSame (told end.now.seen.log) feeds.old }
    ensures { FeedsEnded (told end.now.seen.log) feeds.old feeds.new }
{
    for feed in feeds.iter_mut() {
        feed.end(end);
    }
}

fn end_asks<S: Subject + Drop>(
    asks: &mut [AskPass<S>],
    end: &Shown<S>,
    mut owners: Vec<Arc<Cut<S>>>,
)
    requires asks { AreAsksOf (site_of end.now) asks.old }
    requires good { Good S.stands end.now }
    requires marked { IsEnded end.now.seen.log }
    requires count { length owners.items ≡ length asks.old }
    requires owners { All (λ c. arc_value c ≡ arc_value end.now.cut) owners.items }
    ensures { AsksEnded (told end.now.seen.log) asks.old asks.new }
{
    for ask in asks.iter_mut() {
        let cut = owners.pop().unwrap();
        ask.end(cut, end);
    }
}
