ghost use Rattle.std.specs.Prelude.{◌++◌, List, OnOk};
ghost use Rattle.bmp_specs.specs.Values.{EntryValue};
ghost use Rattle.rib_model.specs.Entries.{entry_values};
ghost use Rattle.router_tables.specs.Taken.{AreTaken};

use crate::rows::Rows;
use crate::session::Session;
use rib_model::Entry;
use std::alloc::Global;
use wire_io::NoMemory;

// Takes entries, in order. Out of memory, the session and its rows may only be dropped.
pub(crate) fn take_entries(
    alloc: Global,
    session: &mut Session,
    rows: &mut Rows,
    entries: &[Entry],
) -> Result<(), NoMemory>
    ensures { OnOk result ((so_far : List EntryValue) → AreTaken session.old rows.old so_far
        → AreTaken session.new rows.new (so_far ++ entry_values entries.now)) }
{
    for entry in entries {
        session.take(alloc, rows, entry)?;
    }
    Ok(())
}
