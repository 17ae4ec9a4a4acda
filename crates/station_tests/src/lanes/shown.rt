//! What the tables of the worked session show of it.
ghost use Rattle.std.specs.Prelude.{◌≡◌};

use bmp_frames::PeerKey;
use bmp_specs::{Family, View};
use ip_prefix::{Addr, Nlri, Prefix};
use router_tables::{LaneState, RouterTables};
use stats_book::Counts;

// The state of the lane, what its session counts, how many bytes the router's sysDescr and sysName have; of the peer
// 192.0.2.1 whether it is up, of which families its table is complete, how many routes it has, the origin AS of that
// of 10.16.0.0/12, and the value of its first statistic; and how many steps the lane made.
#[derive(Clone, Copy, PartialEq, Eq)]
pub(crate) struct Shown {
    pub(crate) state: LaneState,
    pub(crate) counts: Counts,
    pub(crate) texts: (usize, usize),
    pub(crate) is_up: bool,
    pub(crate) is_complete: (bool, bool),
    pub(crate) routes: u64,
    pub(crate) origin: Option<u32>,
    pub(crate) statistic: Option<u64>,
    pub(crate) steps: u64,
}

fn peer() -> PeerKey {
    PeerKey {
        kind: 0,
        distinguisher: 0,
        address: Addr::v4([192, 0, 2, 1]),
    }
}

// The origin AS of the route of 10.16.0.0/12.
fn origin(tables: &RouterTables) -> Option<u32> {
    let prefix = Prefix::new(Addr::v4([10, 16, 0, 0]), 12)?;
    let table = tables.table(&peer(), View::InPre)?;
    let route = table.get(&Nlri { prefix, id: None })?;
    match &route.path {
        Some(path) => path.origin(),
        None => None,
    }
}

fn routes(tables: &RouterTables) -> u64 {
    match tables.table(&peer(), View::InPre) {
        Some(table) => table.count(),
        None => 0,
    }
}

fn statistic(tables: &RouterTables) -> Option<u64> {
    match tables.stats().after(&peer(), None) {
        Some(stat) => Some(stat.value),
        None => None,
    }
}

fn is_complete(tables: &RouterTables, family: Family) -> bool {
    tables.peers().is_complete(&peer(), View::InPre, family)
}

pub(crate) fn shows(tables: &RouterTables) -> Shown {
    Shown {
        state: tables.state(),
        counts: tables.counts(),
        texts: (tables.descr().len(), tables.name().len()),
        is_up: tables.peers().is_up(&peer()),
        is_complete: (
            is_complete(tables, Family::V4),
            is_complete(tables, Family::V6),
        ),
        routes: routes(tables),
        origin: origin(tables),
        statistic: statistic(tables),
        steps: tables.recent().total(),
    }
}

// What a lane shows without a connection.
pub(crate) fn nothing(state: LaneState, steps: u64) -> Shown {
    Shown {
        state,
        counts: Counts::none(),
        texts: (0, 0),
        is_up: false,
        is_complete: (false, false),
        routes: 0,
        origin: None,
        statistic: None,
        steps,
    }
}
