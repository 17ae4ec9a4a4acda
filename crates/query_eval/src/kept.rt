ghost use Rattle.std.specs.Prelude.{◌≡◌, ◌<◌, ◌∷◌, [], if◌then◌else◌, IfSome, IsNone, map};
ghost use Rattle.std.specs.List.{filter};
ghost use Rattle.query_lang.specs.TraitValues.{traits_value};
ghost use Rattle.route_runs.specs.Places.{shown};
ghost use Rattle.query_eval.specs.Puts.{WritesLines};
ghost use Rattle.query_eval.specs.RowRuns.{front_of};
ghost use Rattle.query_eval.specs.Rows.{passes, row_of};

use crate::batch::next_in_run;
use crate::front::put_while_in_run;
use crate::pairs::Pairs;
use crate::run::{ALL, Run};
use crate::tables::PeerTable;
use crate::tells::TellsRow;
use crate::traits::{asks_nothing, has_traits};
use ip_prefix::Nlri;
use query_lang::Traits;
use rib_model::Route;
use wire_io::{Failed, Sink};

// The next pair of a walk that is in the run and whose route has what is asked.
fn next_kept<'a, W: Pairs<'a>>(
    walk: &mut W,
    run: &Run,
    traits: &Traits,
) -> Option<(Nlri, &'a Route)>
    ensures some { IfSome result (λ found. filter (passes (traits_value traits.now)) (front_of run.now (W.left walk.old)) ≡ shown found ∷ filter (passes (traits_value traits.now)) (front_of run.now (W.left walk.new))) }
    ensures none { IsNone result → filter (passes (traits_value traits.now)) (front_of run.now (W.left walk.old)) ≡ [] }
{
    while let Some(found) = next_in_run(walk, run) {
        if has_traits(found.1, traits) {
            return Some(found);
        }
    }
    None
}

// The pairs that a walk gives, up to the first that isn't in the run, of which those whose route has what is asked. The
// test stands within the run: where the run ends, the walk ends too.
#[derive(Drop)]
struct Kept<'t, W> {
    walk: W,
    run: Run,
    traits: &'t Traits,
    ended: bool,
}

impl<'a, 't, W: Pairs<'a>> Pairs<'a> for Kept<'t, W> {
    ghost left = { λ kept. if kept.ended then [] else filter (passes (traits_value kept.traits.now)) (front_of kept.run (W.left kept.walk)) };

    fn next_pair(&mut self) -> Option<(Nlri, &'a Route)> {
        if self.ended {
            return None;
        }
        let found = next_kept(&mut self.walk, &self.run, self.traits);
        self.ended = found.is_none();
        found
    }
}

/// Writes the lines of a table's routes that a walk gives, up to the first that isn't in the run, of which those that have
/// what is asked; and answers how many. Where nothing is asked no route is tested.
pub(crate) fn put_kept<'a, O: Sink, W: Pairs<'a> + Drop, T: TellsRow>(
    out: &mut O,
    lane: u32,
    table: &PeerTable<'_>,
    walk: W,
    run: &Run,
    traits: &Traits,
    tells: &T,
) -> Result<u64, Failed>
    ensures { WritesLines O.faults O.told O.aside out.old (map (T.line tells.now lane) (map (row_of table.now.key table.now.view) (filter (passes (traits_value traits.now)) (front_of run.now (W.left walk))))) result out.new }
{
    if asks_nothing(traits) {
        return put_while_in_run(out, lane, table, walk, run, tells);
    }
    let kept = Kept {
        walk,
        run: *run,
        traits,
        ended: false,
    };
    put_while_in_run(out, lane, table, kept, &ALL, tells)
}
