//! The lines of `full marks`: each mark, and how many rows its peer has in its view and of its family.
ghost use Rattle.std.specs.Prelude.{◌≡◌};
ghost use Rattle.ask_specs.specs.Asking.{full_marks};
ghost use Rattle.ask_specs.specs.AskReply.{AreAskedLaneLines};
ghost use Rattle.ask_specs.specs.FullMarks.{full_mark_line};
ghost use Rattle.router_tables.specs.Tables.{StandsFor};
ghost use Rattle.query_eval.specs.Puts.{PutsLines};
ghost use Rattle.query_eval.specs.Told.{counted_mark, rows_at};

use crate::count::count_family;
use crate::marks::{TellsMark, put_book};
use crate::tables::PeerTable;
use bmp_frames::PeerKey;
use bmp_specs::{Family, View};
use query_lang::Select;
use reply_text::put_full_mark;
use router_tables::RouterTables;
use wire_io::{Failed, Sink};

// How many rows of a family a peer has in a view, or 2^64 - 1 where there are more.
fn count_at(tables: &RouterTables, key: &PeerKey, view: View, family: Family) -> u64
    ensures { result ≡ rows_at tables.now.tables key.now view family }
{
    match tables.table(key, view) {
        Some(table) => {
            let found = PeerTable {
                key: *key,
                view,
                table,
            };
            count_family(&found, family)
        }
        None => 0,
    }
}

/// Each mark is told by its line and by how many rows its peer has there.
#[derive(Clone, Copy)]
struct WithRows<'a> {
    tables: &'a RouterTables,
}

impl<'a> TellsMark for WithRows<'a> {
    ghost line = { λ told lane mark. full_mark_line lane (counted_mark told.tables.now.tables mark) };

    fn put_line<O: Sink>(
        &self,
        out: &mut O,
        lane: u32,
        key: &PeerKey,
        view: View,
        family: Family,
        complete: bool,
    ) -> Result<(), Failed> {
        let rows = count_at(self.tables, key, view, family);
        put_full_mark(out, lane, key, view, family, complete, rows)
    }
}

/// Writes the lines of the marks of one lane, as `put_marks` does, each with the number of its rows, and answers how many
/// they are.
pub(crate) fn put_full_marks<O: Sink>(
    out: &mut O,
    lane: u32,
    tables: &RouterTables,
    select: &Select,
) -> Result<u64, Failed>
    ensures { PutsLines O.faults O.told O.aside (StandsFor tables.now) (AreAskedLaneLines (full_marks select.now) lane) out.old result out.new }
{
    put_book(out, lane, tables.peers(), select, &WithRows { tables })
}
