ghost use Rattle.std.specs.Prelude.{◌≡◌, length};
ghost use Rattle.bmp_specs.specs.Query.{count as count_query};
ghost use Rattle.bmp_specs.specs.Reply.{told_count};
ghost use Rattle.query_lang.specs.TraitValues.{traits_value};
ghost use Rattle.route_runs.specs.Nlri.{with_family};
ghost use Rattle.router_tables.specs.Tables.{StandsFor};
ghost use Rattle.query_eval.specs.declared.run.Part.{Part};
ghost use Rattle.query_eval.specs.Puts.{CountsKeptRows};
ghost use Rattle.query_eval.specs.Rows.{asked_of, asks_run, kept};
ghost use Rattle.query_eval.specs.RowTables.{table_value};

use crate::sifted::count_sifted;
use crate::tables::{AskedTables, PeerTable};
use crate::traits::asks_nothing;
use bmp_specs::Family;
use query_lang::{Select, Traits};
use router_tables::RouterTables;

// How many routes a table has, or 2^64 - 1 where there are more.
fn count_all(table: &PeerTable<'_>) -> u64
    ensures { result ≡ told_count (length (table_value table.now).pairs) }
{
    // for the proof: the pairs stand in the order of NLRI
    table.table.see_order();
    table.table.count()
}

/// How many of them are of a family.
pub(crate) fn count_family(table: &PeerTable<'_>, family: Family) -> u64
    ensures { result ≡ told_count (length (with_family family (table_value table.now).pairs)) }
{
    // for the proof: the pairs stand in the order of NLRI
    table.table.see_order();
    table.table.count_of(family)
}

// How many of them are of a family, where one is named, and have what is asked.
fn count_table(table: &PeerTable<'_>, family: Option<Family>, traits: &Traits) -> u64
    ensures { result ≡ told_count (length (asked_of (kept (traits_value traits.now) (asks_run (record { family = family; part = Part.Whole }))) (table_value table.now))) }
{
    if asks_nothing(traits) {
        return match family {
            Some(family) => count_family(table, family),
            None => count_all(table),
        };
    }
    count_sifted(table, family, traits)
}

/// How many rows `table` has of one lane with the same selectors, of which those whose routes have what is asked, or
/// 2^64 - 1 where there are more. No row is written.
pub(crate) fn count_kept_rows(
    lane: u32,
    tables: &RouterTables,
    select: &Select,
    traits: &Traits,
) -> u64
    ensures { CountsKeptRows (StandsFor tables.now) (count_query select.now) (traits_value traits.now) lane result }
{
    let family = select.family;
    let mut count: u64 = 0;
    let mut asked = AskedTables::new(lane, tables, select);
    while let Some(table) = asked.next() {
        count = count.saturating_add(count_table(&table, family, traits));
    }
    count
}
