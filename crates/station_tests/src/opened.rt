//! Stations that are opened and named.
ghost use Rattle.std.specs.Prelude.{◌≡◌, [], IfSome};
ghost use Rattle.std.specs.Arc.{arc_value};
ghost use Rattle.cut_publisher.specs.Opening.{AreAsksOf, AreFeedsOf, IsOpened};
ghost use Rattle.rib_model.specs.Entries.{entry_values};
ghost use Rattle.router_tables.specs.Tables.{StandsFor};

use cut_publisher::{AskList, FeedList, Naming, Publisher, Station, Subject, name, open_station};
use router_tables::RouterTables;
use std::alloc::Global;
use std::sync::{Arc, Wait};

/// The publisher of a station and its passes.
pub(crate) fn named<S: Subject + Drop, J: Naming, R: Wait>(
    rt: &R,
    station: Station<S>,
) -> (Publisher<S, J>, FeedList<S>, AskList<S>)
    requires named { station.publisher.station ≡ J.site }
    requires feeds { AreFeedsOf J.site station.feeds }
    requires asks { AreAsksOf J.site station.asks }
    ensures feeds { AreFeedsOf J.site result.1 }
    ensures asks { AreAsksOf J.site result.2 }
{
    let Station {
        publisher,
        feeds,
        mut asks,
    } = station;
    let publisher = name::<S, J, R>(rt, publisher, &mut asks);
    (publisher, feeds, asks)
}

/// A station of one lane and one asker, where nothing was published.
pub(crate) fn opened(alloc: Global) -> Option<Station<RouterTables>>
    ensures { IfSome result (λ s. IsOpened 1 1 s.publisher s.feeds s.asks) }
{
    open_station(alloc, no_tables(alloc)?, 1, 1).ok()
}

// What every lane has until it publishes.
fn no_tables(alloc: Global) -> Option<Arc<RouterTables>>
    ensures { IfSome result (λ t. StandsFor (arc_value t) (entry_values [])) }
{
    let tables = RouterTables::new(alloc).ok()?;
    Arc::new(alloc, tables).ok()
}
