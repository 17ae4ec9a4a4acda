ghost use Rattle.std.specs.Prelude.{◌≡◌, ℕ, List, true, IfOk, IfErr};
ghost use Rattle.csv.specs.Reading.{error_kind, stops_reader};
ghost use Rattle.csv.specs.Records.{fields_of};
ghost use Rattle.rov_table.specs.Records.{Gives, GivesNext};
ghost use Rattle.rov_table.specs.VrpFile.{file_records};

use csv::{ByteRecord, Error, Reader, ReaderBuilder};
use std::alloc::Global;

/// Begins to read the records of a file. They may differ in length, and none is set apart as a header row.
#[tactic(auto, unfolding(crate::specs::VrpFile::file_records))]
pub(crate) fn records_of(alloc: Global, file: &[u8]) -> Reader<&[u8]>
    ensures { Gives result (file_records file.now) }
{
    ReaderBuilder::new()
        .has_headers(false)
        .flexible(true)
        .from_reader(alloc, file)
}

/// Reads the next record into `row`, and answers whether there was one. An error says nothing of the records: it comes
/// of memory, or of the reader underneath, which a slice is.
pub(crate) fn next_record(rdr: &mut Reader<&[u8]>, row: &mut ByteRecord) -> Result<bool, Error>
    ensures gives { IfOk result (λ found. (rows : List (List (List ℕ))) → Gives rdr.old rows → GivesNext found (fields_of row.new) rdr.new rows) }
    ensures stops { IfErr result (λ e. (rows : List (List (List ℕ))) → Gives rdr.old rows → stops_reader (error_kind e) ≡ true) }
{
    rdr.read_byte_record(row)
}
