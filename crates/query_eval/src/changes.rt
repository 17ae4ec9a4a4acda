ghost use Rattle.std.specs.Prelude.{◌<◌, map, option_map};
ghost use Rattle.ask_specs.specs.AskReply.{AreAskedChangeLines, told_change};
ghost use Rattle.bmp_specs.specs.Changes.{oldest_kept};
ghost use Rattle.bmp_specs.specs.ChangeLines.{missed_lines};
ghost use Rattle.bmp_specs.specs.QueryReply.{most_told};
ghost use Rattle.rib_model.specs.Steps.{step_value};
ghost use Rattle.route_watch.specs.Watch.{IsFirst, IsKeptChange, change_of};
ghost use Rattle.router_tables.specs.Tables.{StandsFor, steps_told};
ghost use Rattle.wire_io.specs.Writes.{Writes};
ghost use Rattle.query_eval.specs.Puts.{PutsLines, WritesLines};
ghost use Rattle.query_eval.specs.RowChanges.{kept_changes, told_changes};

use ip_prefix::Prefix;
use recent_ring::Recent;
use reply_text::{put_change, put_full_change, put_missed, put_steps};
use rib_model::Step;
use route_watch::{missed, poll, poll_any};
use router_tables::RouterTables;
use wire_io::{Failed, Sink};

// Writes the line of how many of the steps that are asked for are no longer kept, where there are some.
fn put_lost<O: Sink>(out: &mut O, recent: &Recent<Step>, from: u64) -> Result<u64, Failed>
    requires { recent.now.total < most_told }
    ensures { WritesLines O.faults O.told O.aside out.old (missed_lines from (oldest_kept recent.now.total)) result out.new }
{
    let steps = missed(recent, from);
    if steps == 0 {
        return Ok(0);
    }
    put_missed(out, steps)?;
    Ok(1)
}

// The first step that is kept, from a number on: any, or where a prefix is named, one that concerns it.
fn next_change<'a>(
    recent: &'a Recent<Step>,
    from: u64,
    prefix: &Option<Prefix>,
) -> Option<(u64, &'a Step)>
    requires { recent.now.total < most_told }
    ensures { IsFirst (IsKeptChange recent.now from prefix.now) (option_map change_of result) }
{
    match prefix {
        Some(prefix) => poll(recent, from, prefix),
        None => poll_any(recent, from),
    }
}

// Writes the line of a change, with the times and all path attributes where that is asked for.
fn put_told_change<O: Sink>(
    out: &mut O,
    full: bool,
    lane: u32,
    number: u64,
    step: &Step,
) -> Result<(), Failed>
    ensures { Writes O.faults O.told O.aside out.old (told_change full lane (record { number = number; step = step_value step.now })) result out.new }
{
    if full {
        return put_full_change(out, lane, number, step);
    }
    put_change(out, lane, number, step)
}

// Writes the lines of the changes that are kept. Each step is looked at once.
fn put_kept_changes<O: Sink>(
    out: &mut O,
    full: bool,
    lane: u32,
    recent: &Recent<Step>,
    from: u64,
    prefix: &Option<Prefix>,
) -> Result<u64, Failed>
    requires { recent.now.total < most_told }
    ensures { WritesLines O.faults O.told O.aside out.old (map (told_change full lane) (kept_changes (steps_told recent.now) from prefix.now)) result out.new }
{
    // for the proof: the last 1,024 steps are kept
    let _total = recent.total();
    let mut next = from;
    let mut count: u64 = 0;
    while let Some(found) = next_change(recent, next, prefix) {
        put_told_change(out, full, lane, found.0, found.1)?;
        count = count.saturating_add(1);
        next = found.0 + 1;
    }
    Ok(count)
}

// Writes the lines of the last steps that a lane keeps.
fn put_recent<O: Sink>(
    out: &mut O,
    full: bool,
    lane: u32,
    recent: &Recent<Step>,
    from: u64,
    prefix: &Option<Prefix>,
) -> Result<u64, Failed>
    ensures { WritesLines O.faults O.told O.aside out.old (told_changes full (steps_told recent.now) lane from prefix.now) result out.new }
{
    let total = recent.total();
    put_steps(out, lane, total)?;
    if total == u64::MAX {
        return Ok(1);
    }
    let lost = put_lost(out, recent, from)?;
    let count = lost.saturating_add(1);
    let kept = put_kept_changes(out, full, lane, recent, from, prefix)?;
    Ok(count.saturating_add(kept))
}

/// Writes the lines of `changes N S` or `changes N S P` of the lane N: how many steps it made, how many are missed of those
/// from the step of number S on, and the steps that are kept, those that concern the prefix alone where one is named, each with
/// the times and all path attributes where `full` is asked for; and answers how many lines these are.
pub(crate) fn put_changes<O: Sink>(
    out: &mut O,
    full: bool,
    lane: u32,
    tables: &RouterTables,
    from: u64,
    prefix: &Option<Prefix>,
) -> Result<u64, Failed>
    ensures { PutsLines O.faults O.told O.aside (StandsFor tables.now) (λ entries. AreAskedChangeLines full lane entries from prefix.now) out.old result out.new }
{
    put_recent(out, full, lane, tables.recent(), from, prefix)
}
