ghost use Rattle.std.specs.Prelude.{◌≡◌, length, map};
ghost use Rattle.bmp_specs.specs.Reply.{told_count};
ghost use Rattle.query_lang.specs.TraitValues.{traits_value};
ghost use Rattle.query_eval.specs.declared.run.Part.{Part};
ghost use Rattle.query_eval.specs.Puts.{WritesLines};
ghost use Rattle.query_eval.specs.Rows.{asked_of, asks_run, kept};
ghost use Rattle.query_eval.specs.RowTables.{table_value};
ghost use Rattle.query_eval.specs.TraitTests.{has_traits};

use crate::front::put_while_in_run;
use crate::run::ALL;
use crate::tables::PeerTable;
use crate::tells::TellsRow;
use crate::traits::passes;
use bmp_specs::Family;
use path_attrs::Attrs;
use query_lang::Traits;
use route_runs::RouteTest;
use wire_io::{Failed, Sink};

// Whether a route has what is asked of it.
#[derive(Clone, Copy)]
struct Asked<'t> {
    traits: &'t Traits,
}

impl<'t> RouteTest for Asked<'t> {
    ghost passes = { λ asked. has_traits (traits_value asked.traits.now) };

    fn test(&self, attrs: &Attrs) -> bool {
        passes(attrs, self.traits)
    }
}

/// Writes the lines of a table's rows of a family, where one is named, of which those whose routes have what is asked, and
/// answers how many. The table finds them (`RouteTable::sift`).
pub(crate) fn put_sifted<O: Sink, T: TellsRow>(
    out: &mut O,
    lane: u32,
    table: &PeerTable<'_>,
    family: Option<Family>,
    traits: &Traits,
    tells: &T,
) -> Result<u64, Failed>
    ensures { WritesLines O.faults O.told O.aside out.old (map (T.line tells.now lane) (asked_of (kept (traits_value traits.now) (asks_run (record { family = family; part = Part.Whole }))) (table_value table.now))) result out.new }
{
    let routes = table.table;
    // for the proof: the pairs stand in the order of NLRI
    routes.see_order();
    let asked = Asked { traits };
    put_while_in_run(out, lane, table, routes.sift(family, &asked), &ALL, tells)
}

/// How many routes of a table are of a family, where one is named, and have what is asked, or 2^64 - 1 where there are more.
/// The table finds them.
pub(crate) fn count_sifted(table: &PeerTable<'_>, family: Option<Family>, traits: &Traits) -> u64
    ensures { result ≡ told_count (length (asked_of (kept (traits_value traits.now) (asks_run (record { family = family; part = Part.Whole }))) (table_value table.now))) }
{
    let routes = table.table;
    // for the proof: the pairs stand in the order of NLRI
    routes.see_order();
    let asked = Asked { traits };
    routes.sift(family, &asked).count()
}
