ghost use Rattle.std.specs.Prelude.{◌≡◌, ◌∷◌, map};
ghost use Rattle.route_runs.specs.Places.{shown};
ghost use Rattle.query_eval.specs.Puts.{WritesLines};
ghost use Rattle.query_eval.specs.RowRuns.{front_of};
ghost use Rattle.query_eval.specs.Rows.{lines_by, row_of};

use crate::batch::{AHEAD, gather, next_in_run, put_batch};
use crate::pairs::Pairs;
use crate::run::Run;
use crate::tables::PeerTable;
use crate::tells::{TellsRow, TellsTable};
use ip_prefix::Nlri;
use rib_model::Route;
use wire_io::{Failed, Sink};

// Writes the line of a pair, and those of the pairs that a walk gives after it, up to the first that isn't in the run,
// and answers how many.
fn put_from<'a, O: Sink, W: Pairs<'a>, L: TellsTable>(
    out: &mut O,
    lines: &mut L,
    first: (Nlri, &'a Route),
    walk: &mut W,
    run: &Run,
) -> Result<u64, Failed>
    ensures { WritesLines O.faults O.told O.aside out.old (lines_by (L.line lines.old) (shown first.entry ∷ front_of run.now (W.left walk.old))) result out.new }
{
    let mut nlris = [first.0; AHEAD];
    let mut routes = [first.1; AHEAD];
    let mut count = put_batch(out, lines, &nlris[..1], &routes[..1])?;
    loop {
        let some = gather(walk, run, &mut nlris, &mut routes);
        count = count.saturating_add(put_batch(out, lines, &nlris[..some], &routes[..some])?);
        if some < AHEAD {
            return Ok(count);
        }
    }
}

/// Writes the lines of a table's routes that a walk gives, up to the first that isn't in the run, and answers how
/// many.
pub(crate) fn put_while_in_run<'a, O: Sink, W: Pairs<'a> + Drop, T: TellsRow>(
    out: &mut O,
    lane: u32,
    table: &PeerTable<'_>,
    walk: W,
    run: &Run,
    tells: &T,
) -> Result<u64, Failed>
    ensures { WritesLines O.faults O.told O.aside out.old (map (T.line tells.now lane) (map (row_of table.now.key table.now.view) (front_of run.now (W.left walk)))) result out.new }
{
    let mut walk = walk;
    match next_in_run(&mut walk, run) {
        Some(first) => {
            let mut lines = tells.begin_table(lane, table.key, table.view);
            put_from(out, &mut lines, first, &mut walk, run)
        }
        None => Ok(0),
    }
}
