//! A port beside which an asker looks at what is published, and lanes that serve such a port.
ghost use Rattle.std.specs.Prelude.{◌≡◌, ◌<◌, ◌≤◌, [], length, IfSome, OnErr, IsTrue};
ghost use Rattle.std.specs.Io.{ReadsAtMost};
ghost use Rattle.cut_publisher.specs.Opening.{IsOpened};
ghost use Rattle.station_doors.specs.Doors.{Opens, Reads, Closes, AsPlanned, read_size};

use super::shown::{Shown, shows};
use crate::opened::{named, opened};
use bmp_message::Reading;
use cut_publisher::{AskList, AskPass, FeedPass, Naming, Publisher, Station, snapshot};
use feed_worker::{LaneEnd, LanePort, serve_feed};
use router_tables::RouterTables;
use station_doors::{Ended, MemPort, Port, Told};
use std::alloc::Global;
use std::marker::Brand;
use std::sync::Wait;
use wire_io::Failed;

// What the lane asks of its port.
#[derive(Clone, Copy, PartialEq, Eq)]
pub(crate) enum Call {
    Next,
    Read,
    Close,
}

// What the asker sees in front of a call, and how many bytes the present connection gave before it.
#[derive(Clone, Copy, PartialEq, Eq)]
pub(crate) struct Look {
    pub(crate) call: Call,
    pub(crate) taken: u64,
    pub(crate) revision: u64,
    pub(crate) shown: Shown,
}

// A port whose asker looks in front of each call. Whether memory ran out for a look.
#[derive(Drop)]
struct Watch {
    port: MemPort,
    asker: AskPass<RouterTables>,
    taken: u64,
    looks: Vec<Look>,
    has_lost: bool,
}

// What the asker saw of a lane, in order; how the lane's work ended, how many entries it published, and what it left.
#[derive(Drop)]
pub(crate) struct Seen {
    pub(crate) looks: Vec<Look>,
    pub(crate) end: LaneEnd,
    pub(crate) entries: u64,
    pub(crate) tables: RouterTables,
}

impl Watch {
    fn new(alloc: Global, asks: &mut AskList<RouterTables>, port: MemPort) -> Option<Watch> {
        let asker = asks.pop()?;
        Some(Watch {
            port,
            asker,
            taken: 0,
            looks: Vec::new(alloc),
            has_lost: false,
        })
    }

    // What it saw of a lane that ended so. None where a look was lost.
    fn seen(&self, end: LaneEnd, pass: &FeedPass<RouterTables>) -> Option<Seen> {
        if self.has_lost {
            return None;
        }
        Some(Seen {
            looks: self.looks.clone().ok()?,
            end,
            entries: pass.count(),
            tables: pass.value().share().ok()?,
        })
    }

    fn look(&mut self, call: Call)
        ensures { self.new.port ≡ self.old.port }
    {
        snapshot(&mut self.asker);
        let cut = self.asker.cut();
        if cut.lanes() == 0 {
            return;
        }
        let look = Look {
            call,
            taken: self.taken,
            revision: cut.rev(),
            shown: shows(cut.value(0)),
        };
        if self.looks.push(look).is_err() {
            self.has_lost = true;
        }
    }
}

impl Port for Watch {
    ghost aside = { λ w. w.port.shows };

    ghost calls = { λ w. w.port.reads };

    fn next_connection(&mut self) -> Result<bool, Failed> {
        self.look(Call::Next);
        self.taken = 0;
        self.port.next_connection()
    }

    fn read(&mut self, buf: &mut [u8]) -> Result<usize, Failed>
        requires some { 0 < length buf.old }
        requires size { length buf.old ≡ read_size self.old.port.shows.taken }
        requires is_open { IsTrue self.old.port.shows.is_open }
        ensures bound { ReadsAtMost result buf.new }
        ensures reads { Reads self.old.port.shows self.new.port.shows result buf.new }
        ensures planned { AsPlanned self.old.port.shows.plan self.old.port.reads self.new.port.reads result }
    {
        self.look(Call::Read);
        let given = self.port.read(buf);
        self.taken = self.taken.saturating_add(given.unwrap_or(0) as u64);
        given
    }

    fn close(&mut self) {
        self.look(Call::Close);
        self.port.close();
    }

    fn told(&self) -> Told {
        Told::nothing()
    }

    fn ended(&mut self, _end: &Ended<'_>) {}
}

// What an asker sees of the lane of a new station that serves up to so many connections of this port.
pub(crate) fn look_on<R: Wait>(rt: &R, alloc: Global, port: MemPort, rounds: u32) -> Option<Seen> {
    let station = opened(alloc)?;
    watched::<Brand, R>(rt, alloc, station, port, rounds)
}

fn watched<J: Naming, R: Wait>(
    rt: &R,
    alloc: Global,
    station: Station<RouterTables>,
    port: MemPort,
    rounds: u32,
) -> Option<Seen>
    requires named { station.publisher.station ≡ J.site }
    requires opened { IsOpened 1 1 station.publisher station.feeds station.asks }
{
    let (publisher, mut feeds, mut asks) = named::<RouterTables, J, R>(rt, station);
    let watch = Watch::new(alloc, &mut asks, port);
    let seen = served::<J, R>(rt, alloc, &publisher, feeds.pop(), watch, rounds);
    publisher.close(rt);
    seen
}

fn served<J: Naming, R: Wait>(
    rt: &R,
    alloc: Global,
    publisher: &Publisher<RouterTables, J>,
    pass: Option<FeedPass<RouterTables>>,
    watch: Option<Watch>,
    rounds: u32,
) -> Option<Seen>
    requires { IfSome pass (λ f. f.station ≡ J.site) }
{
    let (Some(mut pass), Some(watch)) = (pass, watch) else {
        return None;
    };
    // the pass of a new station
    if pass.count() > 0 {
        return None;
    }
    let mut port = LanePort::new(watch);
    let end = serve_feed::<Reading, J, LanePort<Watch>, R>(
        rt, alloc, publisher, &mut pass, &mut port, rounds,
    );
    port.as_port().seen(end, &pass)
}
