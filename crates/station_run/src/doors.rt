//! The ports and links of a station: all are asked for before anything is served, and all are given back.
ghost use Rattle.std.specs.Prelude.{◌≡◌, ◌+◌, ◌≤◌, ℕ, Some, [], length, vec_len, IfOk, OnOk, OnErr, MatchResult};
ghost use Rattle.std.specs.Vec.{vec_capacity};
ghost use Rattle.wire_io.specs.Faults.{HasCause};
ghost use Rattle.station_doors.specs.Doors.{LeavesRest, most_places};
ghost use Rattle.station_run.specs.Handed.{AllComeBack, FailsAt, Lends, LendsButRefuses, LinksComeBack, PortsComeBack, Refuses, call_after, link_shows, numbered, numbered_links};
ghost use Rattle.station_run.specs.Serve.{TakesNone};

use crate::room::place;
use feed_worker::{LanePort, LaneYard};
use station_doors::{Link, Listening, Port};
use wire_io::Failed;

/// Ports and links that a yard handed out, in order of number. The ports are those of lanes.
#[derive(Drop)]
pub struct Doors<P: Port + Drop, K: Link + Drop> {
    pub ports: Vec<LanePort<P>>,
    pub links: Vec<K>,
}

// Asks for all: to listen, then for the ports, then for the links, until a call fails. The lists have what was handed out.
fn ask_all<Y: LaneYard>(
    at: &Listening,
    yard: &mut Y,
    ports: &mut Vec<LanePort<Y::Port>>,
    links: &mut Vec<Y::Link>,
) -> Result<(), Failed>
    requires ports { (ports.old.items ≡ []) × (at.now.feeds ≤ vec_capacity ports.old) }
    requires links { (links.old.items ≡ []) × (at.now.askers ≤ vec_capacity links.old) }
    ensures asked { OnOk result ((length ports.new.items ≡ at.now.feeds) × (length links.new.items ≡ at.now.askers)) }
    ensures lends { OnOk result (Lends (Y.seen yard.old).told (Y.seen yard.new).told (Y.seen yard.old).calls (1 + (at.now.feeds + at.now.askers))
        (numbered Y.Port.aside 0 ports.new.items) (numbered_links (link_shows Y.Link.aside Y.Link.told Y.Link.faults) 0 links.new.items)) }
    ensures calls { OnOk result ((Y.seen yard.new).calls ≡ call_after (Y.seen yard.old).calls (1 + (at.now.feeds + at.now.askers))) }
    ensures refused { OnErr result ((before : ℕ) × FailsAt at.now before (length ports.new.items) (length links.new.items)
        × LendsButRefuses at.now (Y.seen yard.old).told (Y.seen yard.new).told (Y.seen yard.old).calls before
        (numbered Y.Port.aside 0 ports.new.items) (numbered_links (link_shows Y.Link.aside Y.Link.told Y.Link.faults) 0 links.new.items)
        × ((Y.seen yard.new).calls ≡ call_after (Y.seen yard.old).calls (before + 1))) }
    ensures room { (vec_capacity ports.old ≤ vec_capacity ports.new) × (vec_capacity links.old ≤ vec_capacity links.new) }
    ensures cause { HasCause (Y.faults yard.old) (Y.faults yard.new) result }
    ensures listened { (Y.seen yard.new).listened ≡ Some at.now }
    ensures none { TakesNone (Y.seen yard.old) (Y.seen yard.new) }
{
    let Ok(()) = yard.listen(at) else {
        return Err(Failed);
    };
    for lane in 0..at.feeds {
        let Ok(port) = yard.port(lane) else {
            return Err(Failed);
        };
        place(ports, port);
    }
    for number in 0..at.askers {
        let Ok(link) = yard.link(number) else {
            return Err(Failed);
        };
        place(links, link);
    }
    Ok(())
}

// Gives the ports back.
fn give_ports<Y: LaneYard>(yard: &mut Y, mut ports: Vec<LanePort<Y::Port>>)
    requires few { length ports.items ≤ most_places }
    ensures told { PortsComeBack (Y.seen yard.old).told (Y.seen yard.new).told (numbered Y.Port.aside 0 ports.items) 0 }
    ensures rest { LeavesRest (Y.seen yard.old) (Y.seen yard.new) }
    ensures calm { Y.faults yard.new ≡ Y.faults yard.old }
{
    ports.reverse();
    let mut lane = 0;
    while let Some(port) = ports.pop() {
        yard.take_port(lane, port);
        lane += 1;
    }
}

// Gives the links back.
fn give_links<Y: LaneYard>(yard: &mut Y, mut links: Vec<Y::Link>)
    requires few { length links.items ≤ most_places }
    ensures told { LinksComeBack (Y.seen yard.old).told (Y.seen yard.new).told (numbered_links (link_shows Y.Link.aside Y.Link.told Y.Link.faults) 0 links.items) 0 }
    ensures rest { LeavesRest (Y.seen yard.old) (Y.seen yard.new) }
    ensures calm { Y.faults yard.new ≡ Y.faults yard.old }
{
    links.reverse();
    let mut number = 0;
    while let Some(link) = links.pop() {
        yard.take_link(number, link);
        number += 1;
    }
}

/// Gives all ports and links back, each under its number. It raises no count.
pub fn give_back<Y: LaneYard>(yard: &mut Y, doors: Doors<Y::Port, Y::Link>)
    requires few { (length doors.ports.items ≤ most_places) × (length doors.links.items ≤ most_places) }
    ensures told { AllComeBack (Y.seen yard.old).told (Y.seen yard.new).told
        (numbered Y.Port.aside 0 doors.ports.items) (numbered_links (link_shows Y.Link.aside Y.Link.told Y.Link.faults) 0 doors.links.items) }
    ensures rest { LeavesRest (Y.seen yard.old) (Y.seen yard.new) }
    ensures calm { Y.faults yard.new ≡ Y.faults yard.old }
{
    let Doors { ports, links } = doors;
    give_ports(yard, ports);
    give_links(yard, links);
}

/// Asks the yard to listen, then for the port of each lane, then for the link of each asker, and stops at the first call
/// that fails. Then what was handed out is given back as it is.
pub fn open_doors<Y: LaneYard>(
    at: &Listening,
    yard: &mut Y,
    doors: Doors<Y::Port, Y::Link>,
) -> Result<Doors<Y::Port, Y::Link>, Failed>
    requires ports { (doors.ports.items ≡ []) × (at.now.feeds ≤ vec_capacity doors.ports) × (at.now.feeds ≤ most_places) }
    requires links { (doors.links.items ≡ []) × (at.now.askers ≤ vec_capacity doors.links) × (at.now.askers ≤ most_places) }
    ensures asked { IfOk result (λ d. (length d.ports.items ≡ at.now.feeds) × (length d.links.items ≡ at.now.askers)) }
    ensures lends { IfOk result (λ d. Lends (Y.seen yard.old).told (Y.seen yard.new).told (Y.seen yard.old).calls (1 + (at.now.feeds + at.now.askers))
        (numbered Y.Port.aside 0 d.ports.items) (numbered_links (link_shows Y.Link.aside Y.Link.told Y.Link.faults) 0 d.links.items)) }
    ensures calls { OnOk result ((Y.seen yard.new).calls ≡ call_after (Y.seen yard.old).calls (1 + (at.now.feeds + at.now.askers))) }
    ensures refused { OnErr result ((before : ℕ) × Refuses at.now (Y.seen yard.old).told (Y.seen yard.new).told (Y.seen yard.old).calls before
        × ((Y.seen yard.new).calls ≡ call_after (Y.seen yard.old).calls (before + 1))) }
    ensures room { IfOk result (λ d. (at.now.feeds ≤ vec_capacity d.ports) × (at.now.askers ≤ vec_capacity d.links)) }
    ensures cause { HasCause (Y.faults yard.old) (Y.faults yard.new) result }
    ensures listened { (Y.seen yard.new).listened ≡ Some at.now }
    ensures none { TakesNone (Y.seen yard.old) (Y.seen yard.new) }
{
    let Doors {
        mut ports,
        mut links,
    } = doors;
    match ask_all(at, yard, &mut ports, &mut links) {
        Ok(()) => Ok(Doors { ports, links }),
        Err(failed) => {
            give_back(yard, Doors { ports, links });
            Err(failed)
        }
    }
}
