ghost use Rattle.std.specs.Prelude.{map};
ghost use Rattle.query_lang.specs.TraitValues.{traits_value};
ghost use Rattle.query_eval.specs.Puts.{WritesLines};
ghost use Rattle.query_eval.specs.Rows.{asked_of, asks_run, kept};
ghost use Rattle.query_eval.specs.RowTables.{table_value};

use crate::asks::Asks;
use crate::kept::put_kept;
use crate::run::Run;
use crate::sifted::put_sifted;
use crate::tables::PeerTable;
use crate::tells::TellsRow;
use crate::traits::asks_nothing;
use query_lang::Traits;
use wire_io::{Failed, Sink};

/// Writes the lines of a table's rows that are in a run and whose routes have what is asked, and answers how many. It looks
/// at no row but those of the run and the first after them. A whole table, or its rows of a family, it has sift its routes, where
/// something is asked of them.
pub(crate) fn put_run<O: Sink, T: TellsRow>(
    out: &mut O,
    lane: u32,
    table: &PeerTable<'_>,
    run: &Run,
    traits: &Traits,
    tells: &T,
) -> Result<u64, Failed>
    ensures { WritesLines O.faults O.told O.aside out.old (map (T.line tells.now lane) (asked_of (kept (traits_value traits.now) (asks_run run.now)) (table_value table.now))) result out.new }
{
    if run.is_whole() && !asks_nothing(traits) {
        return put_sifted(out, lane, table, run.family, traits, tells);
    }
    let routes = table.table;
    // for the proof: the pairs stand in the order of NLRI
    routes.see_order();
    put_kept(
        out,
        lane,
        table,
        routes.walk(run.begin()),
        run,
        traits,
        tells,
    )
}

/// The rows of a run whose routes have what is asked, each told in this way.
#[derive(Drop)]
pub(crate) struct ToldRun<'a, T> {
    pub(crate) run: Run,
    pub(crate) traits: &'a Traits,
    pub(crate) tells: &'a T,
}

impl<'a, T: TellsRow> Asks for ToldRun<'a, T> {
    ghost asking = { λ told. kept (traits_value told.traits.now) (asks_run told.run) };

    ghost line = { λ told. T.line told.tells.now };

    fn put_asked<O: Sink>(
        &self,
        out: &mut O,
        lane: u32,
        table: &PeerTable<'_>,
    ) -> Result<u64, Failed> {
        put_run(out, lane, table, &self.run, self.traits, self.tells)
    }
}
