ghost use Rattle.std.specs.Prelude.{map};
ghost use Rattle.std.specs.List.Sorted.{IsStrictlySortedBy};
ghost use Rattle.std.specs.Map.{keys_of};
ghost use Rattle.bmp_specs.specs.Orders.{key_cmp};
ghost use Rattle.bmp_specs.specs.Query.{within};
ghost use Rattle.bmp_specs.specs.QueryReply.{AreLaneLines};
ghost use Rattle.bmp_specs.specs.Selection.{select_all};
ghost use Rattle.query_lang.specs.TraitValues.{traits_value};
ghost use Rattle.router_tables.specs.Tables.{StandsFor};
ghost use Rattle.query_eval.specs.Puts.{AreKeptLines, PutsLines, PutsRows, WritesLines};
ghost use Rattle.query_eval.specs.Rows.{part_query, part_rows};

use crate::asks::put_rows;
use crate::run::{Part, Run};
use crate::run_rows::ToldRun;
use crate::tells::{AsRoutes, TellsRow};
use ip_prefix::Prefix;
use query_lang::{Select, Traits};
use router_tables::RouterTables;
use wire_io::{Failed, Sink};

// Writes the lines of a part of the rows that the selectors keep on one lane, of which those whose routes have what is
// asked, each told in this way, and answers how many.
fn put_told<O: Sink, T: TellsRow>(
    out: &mut O,
    lane: u32,
    tables: &RouterTables,
    part: Part,
    select: &Select,
    traits: &Traits,
    tells: &T,
) -> Result<u64, Failed>
    ensures writes { WritesLines O.faults O.told O.aside out.old (map (T.line tells.now lane) (part_rows part select.now (traits_value traits.now) lane tables.now)) result out.new }
    ensures ordered { IsStrictlySortedBy key_cmp (keys_of tables.now.session.books.peers) }
{
    let run = Run {
        family: select.family,
        part,
    };
    let rows = ToldRun { run, traits, tells };
    put_rows(out, lane, tables, select, &rows)
}

/// Writes the lines of a part of the rows that the selectors keep on one lane, of which those whose routes have what is
/// asked, each told in this way, and answers how many: those of `table`, of `prefix P`, or of `within P`.
pub(crate) fn put_kept_part<O: Sink, T: TellsRow>(
    out: &mut O,
    lane: u32,
    tables: &RouterTables,
    part: Part,
    select: &Select,
    traits: &Traits,
    tells: &T,
) -> Result<u64, Failed>
    ensures { PutsLines O.faults O.told O.aside (StandsFor tables.now) (AreKeptLines (T.line tells.now) (part_query part select.now) (traits_value traits.now) lane) out.old result out.new }
{
    put_told(out, lane, tables, part, select, traits, tells)
}

/// Writes the lines of a part of the rows that the selectors keep on one lane, and answers how many.
pub(crate) fn put_part<O: Sink>(
    out: &mut O,
    lane: u32,
    tables: &RouterTables,
    part: Part,
    select: &Select,
) -> Result<u64, Failed>
    ensures { PutsLines O.faults O.told O.aside (StandsFor tables.now) (AreLaneLines (part_query part select.now) lane) out.old result out.new }
{
    let traits = Traits::none();
    put_kept_part(out, lane, tables, part, select, &traits, &AsRoutes)
}

/// Writes the lines of the rows that `within P` asks of one lane, each told in this way, and answers how many. Where a write
/// fails, a front of the lines was written.
pub fn put_told_within<O: Sink, T: TellsRow>(
    out: &mut O,
    lane: u32,
    tables: &RouterTables,
    prefix: &Prefix,
    tells: &T,
) -> Result<u64, Failed>
    ensures { PutsRows O.faults O.told O.aside (StandsFor tables.now) (within prefix.now select_all) lane (T.line tells.now lane) out.old result out.new }
{
    let select = Select::all();
    let traits = Traits::none();
    put_told(
        out,
        lane,
        tables,
        Part::Within(*prefix),
        &select,
        &traits,
        tells,
    )
}
