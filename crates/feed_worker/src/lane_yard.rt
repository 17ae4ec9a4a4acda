//! A yard as a station that serves sees it: it hands out the ports of lanes, and no other.
ghost use Rattle.std.specs.Prelude.{◌≡◌, ◌<◌, ℕ, Some};
ghost use Rattle.wire_io.specs.Faults.{HasCause};
ghost use Rattle.station_doors.specs.Doors.{CountsCall, HandsOut, HandsOutLink, IsLane, KeepsEnding, LeavesRest, Listens, TakesBack, TakesLinkBack, YardSeen, askers_of, one_more};

use crate::lane_port::LanePort;
use station_doors::{Link, Listening, Port, Yard};
use wire_io::Failed;

/// A yard whose ports are handed out as those of lanes, and as nothing else. Whoever is written over any such yard comes to
/// the bytes of a router's connection through a `FeedPort` alone, so only once all earlier messages are published. What its
/// calls do, a `Yard` says.
pub trait LaneYard {
    type Port: Port + Send + Drop;

    type Link: Link + Send + Drop;

    type Ending: Drop;

    /// What contracts see of it but its count of faults.
    ghost seen: { Self → YardSeen Self.Ending };

    /// The count of faults. It never falls.
    ghost faults: { Self → ℕ };

    /// Listens for so many routers and clients, where and how these values say.
    fn listen(&mut self, at: &Listening) -> Result<(), Failed>
        ensures told { Listens (seen self.old).calls (seen self.old).told (seen self.new).told result }
        ensures listened { (seen self.new).listened ≡ Some at.now }
        ensures calls { (seen self.new).calls ≡ one_more (seen self.old).calls }
        ensures cause { HasCause (faults self.old) (faults self.new) result }
        ensures endings { (seen self.new).endings ≡ (seen self.old).endings }
        ensures ending { (seen self.new).last_ending ≡ (seen self.old).last_ending };

    /// Hands out the port of this lane.
    fn port(&mut self, lane: u32) -> Result<LanePort<Self::Port>, Failed>
        requires { IsLane (seen self.old).listened lane }
        ensures told { HandsOut Self.Port.aside Self.Port.calls lane (seen self.old).calls (seen self.old).told (seen self.new).told result }
        ensures counted { CountsCall (seen self.old) (seen self.new) }
        ensures cause { HasCause (faults self.old) (faults self.new) result };

    /// Hands out the link of this asker.
    fn link(&mut self, number: u32) -> Result<Self::Link, Failed>
        requires { number < askers_of (seen self.old).listened }
        ensures told { HandsOutLink Self.Link.aside Self.Link.told Self.Link.faults Self.Link.calls number (seen self.old).calls (seen self.old).told (seen self.new).told result }
        ensures counted { CountsCall (seen self.old) (seen self.new) }
        ensures cause { HasCause (faults self.old) (faults self.new) result };

    /// Takes back the port of this lane. It raises no count.
    fn take_port(&mut self, lane: u32, port: LanePort<Self::Port>)
        ensures told { TakesBack lane (Self.Port.aside port) (seen self.old).told (seen self.new).told }
        ensures rest { LeavesRest (seen self.old) (seen self.new) }
        ensures calm { faults self.new ≡ faults self.old };

    /// Takes back the link that was handed out under this number. It raises no count.
    fn take_link(&mut self, number: u32, link: Self::Link)
        ensures told { TakesLinkBack (record {
          number = number;
          shows = Self.Link.aside link;
          written = Self.Link.told link;
          faults = Self.Link.faults link;
        }) (seen self.old).told (seen self.new).told }
        ensures rest { LeavesRest (seen self.old) (seen self.new) }
        ensures calm { faults self.new ≡ faults self.old };

    /// Takes what the end of a station gave, in the place of an earlier ending. It raises no count.
    fn take_ending(&mut self, ending: Self::Ending)
        ensures ending { KeepsEnding (seen self.old).told ending (seen self.new).last_ending }
        ensures endings { (seen self.new).endings ≡ one_more (seen self.old).endings }
        ensures told { (seen self.new).told ≡ (seen self.old).told }
        ensures listened { (seen self.new).listened ≡ (seen self.old).listened }
        ensures calls { (seen self.new).calls ≡ (seen self.old).calls }
        ensures calm { faults self.new ≡ faults self.old };
}

impl<Y: Yard> LaneYard for Y {
    type Port = Y::Port;

    type Link = Y::Link;

    type Ending = Y::Ending;

    ghost seen = { Y.seen };

    ghost faults = { Y.faults };

    fn listen(&mut self, at: &Listening) -> Result<(), Failed> {
        <Y as Yard>::listen(self, at)
    }

    fn port(&mut self, lane: u32) -> Result<LanePort<Y::Port>, Failed> {
        match <Y as Yard>::port(self, lane) {
            Ok(port) => Ok(LanePort::new(port)),
            Err(failed) => Err(failed),
        }
    }

    fn link(&mut self, number: u32) -> Result<Y::Link, Failed> {
        <Y as Yard>::link(self, number)
    }

    fn take_port(&mut self, lane: u32, port: LanePort<Y::Port>)
        ensures told { TakesBack lane (Y.Port.aside port) (Y.seen self.old).told (Y.seen self.new).told }
        ensures rest { LeavesRest (Y.seen self.old) (Y.seen self.new) }
        ensures calm { Y.faults self.new ≡ Y.faults self.old }
    {
        <Y as Yard>::take_port(self, lane, port.into_port())
    }

    fn take_link(&mut self, number: u32, link: Y::Link) {
        <Y as Yard>::take_link(self, number, link)
    }

    fn take_ending(&mut self, ending: Y::Ending) {
        <Y as Yard>::take_ending(self, ending)
    }
}
