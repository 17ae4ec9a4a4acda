//! Tables as the value of a lane in a history of all lanes.

use crate::tables::RouterTables;
use cut_publisher::Subject;
use rib_model::Entry;

impl Subject for RouterTables {
    type Entry = Entry;

    ghost use Rattle.rib_model.specs.Entries.{entry_values};
    ghost use Rattle.router_tables.specs.Tables.{StandsFor};

    // Tables stand for the entries that they are the tables of.
    ghost stands = { λ tables entries. StandsFor tables (entry_values entries) };
}
