ghost use Rattle.std.specs.Prelude.{◌≡◌, ◌<◌, ◌≤◌, ◌∷◌, ◌++◌, [], IfSome, IsNone, length, take};
ghost use Rattle.route_runs.specs.Places.{shown};
ghost use Rattle.query_eval.specs.Puts.{WritesLines};
ghost use Rattle.query_eval.specs.RowRuns.{AreFound, front_of, shown_all};
ghost use Rattle.query_eval.specs.Rows.{lines_by};

use crate::pairs::Pairs;
use crate::run::Run;
use crate::tells::{Found, TellsTable};
use ip_prefix::Nlri;
use rib_model::Route;
use wire_io::{Failed, Sink};

/// How many routes are looked at before the line of the first is written, so that they are fetched from memory side by side.
pub(crate) const AHEAD: usize = 16;

/// The next pair of a walk, if it is in the run.
pub(crate) fn next_in_run<'a, W: Pairs<'a>>(walk: &mut W, run: &Run) -> Option<(Nlri, &'a Route)>
    ensures some { IfSome result (λ found. front_of run.now (W.left walk.old) ≡ shown found ∷ front_of run.now (W.left walk.new)) }
    ensures none { IsNone result → front_of run.now (W.left walk.old) ≡ [] }
    ensures fewer { IfSome result (λ _. length (W.left walk.new) < length (W.left walk.old)) }
{
    let Some(found) = walk.next_pair() else {
        return None;
    };
    if run.holds(&found.0) {
        Some(found)
    } else {
        None
    }
}

/// Takes the next pairs of a walk, up to the first that isn't in the run, and answers how many: fewer than there are places
/// where none is left.
pub(crate) fn gather<'a, W: Pairs<'a>>(
    walk: &mut W,
    run: &Run,
    nlris: &mut [Nlri; AHEAD],
    routes: &mut [&'a Route; AHEAD],
) -> usize
    ensures within { result ≤ 16 }
    ensures more { result ≡ 16 → front_of run.now (W.left walk.old) ≡ shown_all (take result nlris.new) (take result routes.new) ++ front_of run.now (W.left walk.new) }
    ensures last { result < 16 → front_of run.now (W.left walk.old) ≡ shown_all (take result nlris.new) (take result routes.new) }
    ensures fewer { result ≡ 16 → length (W.left walk.new) < length (W.left walk.old) }
{
    let mut count = 0;
    while count < AHEAD {
        let Some(found) = next_in_run(walk, run) else {
            return count;
        };
        nlris[count] = found.0;
        routes[count] = found.1;
        count += 1;
    }
    count
}

// Looks at the routes, and puts what is found of each into its place.
fn look_ahead<L: TellsTable>(lines: &L, routes: &[&Route], found: &mut [Found; AHEAD])
    requires { length routes.now ≤ 16 }
    ensures { AreFound (L.finds lines.now) routes.now found.new }
{
    for at in 0..routes.len() {
        let route = routes[at];
        found[at] = lines.look(route);
    }
}

/// Writes the lines of the pairs, and answers how many. All routes are looked at before the first line is written.
pub(crate) fn put_batch<O: Sink, L: TellsTable>(
    out: &mut O,
    lines: &mut L,
    nlris: &[Nlri],
    routes: &[&Route],
) -> Result<u64, Failed>
    requires pairs { length nlris.now ≡ length routes.now }
    requires few { length routes.now ≤ 16 }
    ensures same { lines.new ≡ lines.old }
    ensures writes { WritesLines O.faults O.told O.aside out.old (lines_by (L.line lines.old) (shown_all nlris.now routes.now)) result out.new }
{
    let mut found = [Found {
        short: false,
        origin: None,
    }; AHEAD];
    look_ahead(lines, routes, &mut found);
    let mut count: u64 = 0;
    for at in 0..nlris.len() {
        let nlri = nlris[at];
        let route = routes[at];
        lines.put_row(out, &nlri, route, found[at])?;
        count = count.saturating_add(1);
    }
    Ok(count)
}
