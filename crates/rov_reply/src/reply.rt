ghost use Rattle.std.specs.Prelude.{◌≡◌, List, length};
ghost use Rattle.bmp_specs.specs.Values.{EntryValue};
ghost use Rattle.query_eval.specs.Replies.{PutsReply};
ghost use Rattle.router_tables.specs.Tables.{StandsFor};
ghost use Rattle.rov_reply.specs.RovLines.{IsRovReply};

use crate::rows::put_rov_rows;
use ip_prefix::Prefix;
use reply_text::{put_at, put_end};
use router_tables::RouterTables;
use rov_table::VrpTable;
use wire_io::{Failed, Sink};

/// Writes the reply of `rov` on lane 0: the revision, the line of each row whose prefix is within this one, and their number,
/// at most 2^64 - 1. The revision is the number of the lane's entries, and it is the reply on any entries that the tables
/// stand for. A line has the row's peer, RIB and prefix, the AS that originated its route or `none`, and the verdict of the
/// VRPs on them (RFC 6811, section 2). A write that fails ends the call; a front of the reply was then written.
///
/// The lines go straight to the sink, one write each: lay a `BufferedSink` over one that is slow. It takes no memory.
pub fn put_rov_reply<O: Sink>(
    out: &mut O,
    revision: u64,
    tables: &RouterTables,
    vrps: &VrpTable,
    prefix: &Prefix,
) -> Result<(), Failed>
    ensures { (entries : List EntryValue) → StandsFor tables.now entries → revision ≡ length entries
        → PutsReply O.faults O.told O.aside (IsRovReply vrps.now prefix.now entries) out.old result out.new }
{
    put_at(out, revision)?;
    let rows = put_rov_rows(out, 0, tables, vrps, prefix)?;
    put_end(out, rows)
}
