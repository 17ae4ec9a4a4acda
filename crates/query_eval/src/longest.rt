ghost use Rattle.std.specs.Prelude.{◌≡◌, ◌<◌, map};
ghost use Rattle.bmp_specs.specs.Query.{longest as longest_query};
ghost use Rattle.bmp_specs.specs.QueryReply.{AreLaneLines};
ghost use Rattle.route_runs.specs.Longest.{IsLongest};
ghost use Rattle.query_lang.specs.TraitValues.{traits_value};
ghost use Rattle.router_tables.specs.Tables.{StandsFor};
ghost use Rattle.query_eval.specs.Puts.{AreKeptLines, PutsLines, WritesLines};
ghost use Rattle.query_eval.specs.Rows.{asked_of, asks_longest, kept};
ghost use Rattle.query_eval.specs.RowTables.{table_value};

use crate::asks::{Asks, put_rows};
use crate::run::{Part, Run};
use crate::run_rows::put_run;
use crate::tables::PeerTable;
use crate::tells::{AsRoutes, TellsRow};
use bmp_specs::Family;
use ip_prefix::{Addr, Prefix};
use prefix_trie::Steps;
use query_lang::{Select, Traits};
use route_runs::RouteTable;
use router_tables::RouterTables;
use std::marker::Brand;
use std::sync::ledger::{Blank, Ledger};
use wire_io::{Failed, Sink};

/// The routes of a family, where one is named, whose prefix is the longest of all their table that holds an address, of which
/// those that have what is asked, each told in this way.
#[derive(Drop)]
pub(crate) struct LongestRows<'a, T> {
    address: Addr,
    family: Option<Family>,
    traits: &'a Traits,
    tells: &'a T,
}

// The longest prefix of a table that holds the address.
fn longest_prefix(routes: &RouteTable, address: &Addr) -> Option<Prefix>
    ensures { IsLongest address.now routes.now result }
{
    longest_counted::<Brand>(routes, address, Blank::new(1))
}

// The same. The looks are counted for a proof alone.
fn longest_counted<L: Ledger>(routes: &RouteTable, address: &Addr, blank: Blank) -> Option<Prefix>
    requires name { blank.name ≡ L.name }
    requires parts { blank.parts ≡ L.parts }
    requires some { 0 < blank.parts }
    ensures { IsLongest address.now routes.now result }
{
    let mut steps = Steps::<L>::new(blank);
    routes.longest(address, &mut steps)
}

// Writes the lines of the rows of a prefix that was found, all those with a path identifier too.
fn put_found<O: Sink, T: TellsRow>(
    out: &mut O,
    lane: u32,
    table: &PeerTable<'_>,
    asks: &LongestRows<'_, T>,
    found: Option<Prefix>,
) -> Result<u64, Failed>
    requires { IsLongest asks.now.address table.now.table.now found }
    ensures { WritesLines O.faults O.told O.aside out.old (map (T.line asks.now.tells.now lane) (asked_of (kept (traits_value asks.now.traits.now) (asks_longest asks.now.address asks.now.family)) (table_value table.now))) result out.new }
{
    // for the proof: the pairs stand in the order of NLRI
    table.table.see_order();
    match found {
        Some(prefix) => {
            let run = Run {
                family: asks.family,
                part: Part::Exact(prefix),
            };
            put_run(out, lane, table, &run, asks.traits, asks.tells)
        }
        None => Ok(0),
    }
}

impl<'a, T: TellsRow> Asks for LongestRows<'a, T> {
    ghost asking = { λ asks. kept (traits_value asks.traits.now) (asks_longest asks.address asks.family) };

    ghost line = { λ asks. T.line asks.tells.now };

    fn put_asked<O: Sink>(
        &self,
        out: &mut O,
        lane: u32,
        table: &PeerTable<'_>,
    ) -> Result<u64, Failed> {
        let found = longest_prefix(table.table, &self.address);
        put_found(out, lane, table, self, found)
    }
}

/// Writes the lines of `match A` of one lane, of which those whose routes have what is asked, each told in this way, and
/// answers how many. A table is searched for the longest prefix of all its rows, and rows of that very prefix are told: where they lack what is asked
/// none is told, and no shorter one in its place.
pub(crate) fn put_kept_longest<O: Sink, T: TellsRow>(
    out: &mut O,
    lane: u32,
    tables: &RouterTables,
    address: &Addr,
    select: &Select,
    traits: &Traits,
    tells: &T,
) -> Result<u64, Failed>
    ensures { PutsLines O.faults O.told O.aside (StandsFor tables.now) (AreKeptLines (T.line tells.now) (longest_query address.now select.now) (traits_value traits.now) lane) out.old result out.new }
{
    let rows = LongestRows {
        address: *address,
        family: select.family,
        traits,
        tells,
    };
    put_rows(out, lane, tables, select, &rows)
}

/// Writes the lines of `match A` of one lane, and answers how many.
pub(crate) fn put_longest<O: Sink>(
    out: &mut O,
    lane: u32,
    tables: &RouterTables,
    address: &Addr,
    select: &Select,
) -> Result<u64, Failed>
    ensures { PutsLines O.faults O.told O.aside (StandsFor tables.now) (AreLaneLines (longest_query address.now select.now) lane) out.old result out.new }
{
    let traits = Traits::none();
    put_kept_longest(out, lane, tables, address, select, &traits, &AsRoutes)
}
