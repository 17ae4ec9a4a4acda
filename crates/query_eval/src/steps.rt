//! The rows that a query with further words asks of a lane, and the number of the lane's steps before them.
ghost use Rattle.std.specs.Prelude.{◌≡◌};
ghost use Rattle.ask_specs.specs.AskReply.{AreAskedRowLines, row_line, selection};
ghost use Rattle.query_lang.specs.Asks.{row_query_value};
ghost use Rattle.query_lang.specs.TraitValues.{traits_value};
ghost use Rattle.router_tables.specs.Tables.{StandsFor};
ghost use Rattle.query_eval.specs.Puts.{AreKeptLines, PutsLines, WritesLines};
ghost use Rattle.query_eval.specs.RowSteps.{total_lines};

use crate::longest::put_kept_longest;
use crate::origin::put_kept_origin;
use crate::parts::put_kept_part;
use crate::run::Part;
use crate::selection::is_lane_named;
use crate::tells::{AsFull, AsRoutes, TellsRow};
use query_lang::{RowQuery, RowsAsk, Select, Traits};
use reply_text::put_steps;
use router_tables::RouterTables;
use wire_io::{Failed, Sink};

// The selectors of a query that tells rows.
fn selectors(rows: &RowQuery) -> &Select
    ensures { result.now ≡ selection (row_query_value rows.now) }
{
    match rows {
        RowQuery::Table(select) => select,
        RowQuery::Exact(_, select) => select,
        RowQuery::Longest(_, select) => select,
        RowQuery::Within(_, select) => select,
        RowQuery::Origin(_, select) => select,
    }
}

// Writes how many steps a lane made, where it is asked for, and answers how many lines these are.
fn put_total<O: Sink>(
    out: &mut O,
    lane: u32,
    tables: &RouterTables,
    with_steps: bool,
    router: Option<u32>,
) -> Result<u64, Failed>
    ensures { WritesLines O.faults O.told O.aside out.old (total_lines with_steps router lane tables.now.steps.total) result out.new }
{
    if !with_steps || !is_lane_named(router, lane) {
        return Ok(0);
    }
    put_steps(out, lane, tables.recent().total())?;
    Ok(1)
}

// Writes the lines of the rows that are asked for of one lane, of which those whose routes have what is asked, each told in
// this way, and answers how many.
fn put_query_rows<O: Sink, T: TellsRow>(
    out: &mut O,
    lane: u32,
    tables: &RouterTables,
    rows: &RowQuery,
    traits: &Traits,
    tells: &T,
) -> Result<u64, Failed>
    ensures { PutsLines O.faults O.told O.aside (StandsFor tables.now) (AreKeptLines (T.line tells.now) (row_query_value rows.now) (traits_value traits.now) lane) out.old result out.new }
{
    match rows {
        RowQuery::Table(select) => {
            put_kept_part(out, lane, tables, Part::Whole, select, traits, tells)
        }
        RowQuery::Exact(prefix, select) => {
            put_kept_part(
                out,
                lane,
                tables,
                Part::Exact(*prefix),
                select,
                traits,
                tells,
            )
        }
        RowQuery::Longest(address, select) => {
            put_kept_longest(out, lane, tables, address, select, traits, tells)
        }
        RowQuery::Within(prefix, select) => {
            put_kept_part(
                out,
                lane,
                tables,
                Part::Within(*prefix),
                select,
                traits,
                tells,
            )
        }
        RowQuery::Origin(asn, select) => {
            put_kept_origin(out, lane, tables, *asn, select, traits, tells)
        }
    }
}

// The same, each told with all path attributes where that is asked for. It is looked at once, and not row by row.
fn put_told_rows<O: Sink>(
    out: &mut O,
    lane: u32,
    tables: &RouterTables,
    ask: &RowsAsk,
) -> Result<u64, Failed>
    ensures { PutsLines O.faults O.told O.aside (StandsFor tables.now) (AreKeptLines (row_line ask.now.full) (row_query_value ask.now.query) (traits_value ask.now.traits) lane) out.old result out.new }
{
    if ask.full {
        return put_query_rows(out, lane, tables, &ask.query, &ask.traits, &AsFull);
    }
    put_query_rows(out, lane, tables, &ask.query, &ask.traits, &AsRoutes)
}

/// Writes the lines of a query of one lane, with `steps` or `full` in front of it or selectors of path attributes behind it:
/// how many steps the lane made, where that is asked for and the selectors keep the lane, and its rows; and answers how many
/// lines these are. Steps and rows are of the same tables.
pub(crate) fn put_asked_rows<O: Sink>(
    out: &mut O,
    lane: u32,
    tables: &RouterTables,
    ask: &RowsAsk,
) -> Result<u64, Failed>
    ensures { PutsLines O.faults O.told O.aside (StandsFor tables.now) (AreAskedRowLines ask.now.steps ask.now.full (row_query_value ask.now.query) (traits_value ask.now.traits) lane) out.old result out.new }
{
    let router = selectors(&ask.query).router;
    let count = put_total(out, lane, tables, ask.steps, router)?;
    let told = put_told_rows(out, lane, tables, ask)?;
    Ok(count.saturating_add(told))
}
