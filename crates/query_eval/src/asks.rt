ghost use Rattle.std.specs.Prelude.{ℕ, List, map};
ghost use Rattle.std.specs.List.Sorted.{IsStrictlySortedBy};
ghost use Rattle.std.specs.Map.{keys_of};
ghost use Rattle.bmp_specs.specs.Orders.{key_cmp};
ghost use Rattle.bmp_specs.specs.Rows.{RowValue};
ghost use Rattle.query_eval.specs.Puts.{WritesLines};
ghost use Rattle.query_eval.specs.Rows.{Asking, asked_of, lane_rows};
ghost use Rattle.query_eval.specs.RowTables.{table_value};

use crate::tables::{AskedTables, PeerTable};
use query_lang::Select;
use router_tables::RouterTables;
use wire_io::{Failed, Sink};

/// What a query asks of each table of a lane.
pub(crate) trait Asks {
    /// Which pairs of a table are asked for.
    ghost asking: { Self → Asking };

    /// The line of a row of a lane.
    ghost line: { Self → ℕ → RowValue → List ℕ };

    /// Writes the lines of a table's rows that are asked for, and answers how many.
    fn put_asked<O: Sink>(
        &self,
        out: &mut O,
        lane: u32,
        table: &PeerTable<'_>,
    ) -> Result<u64, Failed>
        ensures { WritesLines O.faults O.told O.aside out.old (map (line self.now lane) (asked_of (asking self.now) (table_value table.now))) result out.new };
}

/// Writes the lines of a lane's rows that are asked for, and answers how many.
pub(crate) fn put_rows<O: Sink, A: Asks>(
    out: &mut O,
    lane: u32,
    tables: &RouterTables,
    select: &Select,
    asks: &A,
) -> Result<u64, Failed>
    ensures writes { WritesLines O.faults O.told O.aside out.old (map (A.line asks.now lane) (lane_rows (A.asking asks.now) select.now lane tables.now)) result out.new }
    ensures ordered { IsStrictlySortedBy key_cmp (keys_of tables.now.session.books.peers) }
{
    let mut count: u64 = 0;
    let mut asked = AskedTables::new(lane, tables, select);
    while let Some(table) = asked.next() {
        count = count.saturating_add(asks.put_asked(out, lane, &table)?);
    }
    Ok(count)
}
