ghost use Rattle.std.specs.Prelude.{◌≡◌, slice_get};
ghost use Rattle.std.specs.List.Sorted.{IsStrictlySortedBy};
ghost use Rattle.std.specs.Map.{keys_of};
ghost use Rattle.std.specs.Option.{option_map};
ghost use Rattle.bmp_specs.specs.Query.{stats};
ghost use Rattle.bmp_specs.specs.QueryReply.{AreLaneLines};
ghost use Rattle.bmp_specs.specs.StatKind.{kind_cmp, kind_of};
ghost use Rattle.router_tables.specs.Tables.{StandsFor};
ghost use Rattle.stats_book.specs.Stats.{stats_at, kind_and_value};
ghost use Rattle.query_eval.specs.Later.{later};
ghost use Rattle.query_eval.specs.Puts.{WritesLines, PutsLines};
ghost use Rattle.query_eval.specs.Told.{stat_lines};

use bmp_frames::PeerKey;
use reply_text::put_stat;
use router_tables::RouterTables;
use stats_book::StatsBook;
use wire_io::{Failed, Sink};
use wire_tables::Stat;

// The peer's first statistic after a place, or its first of all.
fn next_stat(book: &StatsBook, key: &PeerKey, place: Option<Stat>) -> Option<Stat>
    ensures first { option_map kind_and_value result ≡ slice_get (later kind_cmp (option_map kind_of place) (stats_at book.now key.now)) 0 }
    ensures ordered { IsStrictlySortedBy kind_cmp (keys_of (stats_at book.now key.now)) }
{
    match place {
        None => book.after(key, None),
        Some(place) => book.after(key, Some(&place)),
    }
}

// Writes the lines of a peer's statistics in a book.
fn put_book<O: Sink>(out: &mut O, lane: u32, book: &StatsBook, key: &PeerKey) -> Result<u64, Failed>
    ensures lines { WritesLines O.faults O.told O.aside out.old (stat_lines lane key.now (stats_at book.now key.now)) result out.new }
    ensures ordered { IsStrictlySortedBy kind_cmp (keys_of (stats_at book.now key.now)) }
{
    let mut count: u64 = 0;
    let mut place: Option<Stat> = None;
    while let Some(stat) = next_stat(book, key, place) {
        put_stat(out, lane, key, &stat)?;
        count = count.saturating_add(1);
        place = Some(stat);
    }
    Ok(count)
}

// Writes the lines of a peer's statistics on one lane, and answers how many they are.
pub(crate) fn put_stats<O: Sink>(
    out: &mut O,
    lane: u32,
    tables: &RouterTables,
    key: &PeerKey,
) -> Result<u64, Failed>
    ensures { PutsLines O.faults O.told O.aside (StandsFor tables.now) (AreLaneLines (stats key.now) lane) out.old result out.new }
{
    put_book(out, lane, tables.stats(), key)
}
