ghost use Rattle.std.specs.Prelude.{◌≡◌, false, IsTrue};
ghost use Rattle.std.specs.Io.KnownBytes.{Keeps};
ghost use Rattle.station_doors.specs.Doors.{opened_one};
ghost use Rattle.ask_session.specs.Sessions.{Sees, Served, OpensLink, Refuses};

use crate::connection::converse;
use cut_publisher::AskPass;
use router_tables::RouterTables;
use station_doors::Link;

/// Whether the next connection was opened. There may be none, or opening it may fail.
fn opens<K: Link>(link: &mut K) -> bool
    ensures opens { IsTrue result → OpensLink (K.aside link.old) (K.aside link.new) (K.faults link.old) opened_one }
    ensures refuses { result ≡ false → Refuses (K.aside link.old) (K.aside link.new) (K.faults link.old) }
    ensures told { Keeps (K.told link.old) (K.told link.new) }
    ensures calm { K.faults link.new ≡ K.faults link.old }
{
    match link.next_connection() {
        Ok(more) => more,
        Err(_) => false,
    }
}

/// Serves up to so many connections of the link, one after another, and answers how many. They are fewer exactly where
/// the link then gave no further one: there was none, or it failed.
///
/// Each line gets its reply from a snapshot that is taken after the read that brought its last byte, and the reply is
/// handed on before more is read. A line that asks nothing that is offered gets `error query`. A connection ends at `quit`, at
/// `error line` for a line of more than 1,024 bytes, where the input ends, after 2^46 bytes, or where a read or a write
/// fails. After that nothing is read of it: where it ends with a line, that line's end, or the byte with which it was too
/// long, was among the last 512 bytes. It takes no memory and no lock.
pub fn serve_session<K: Link>(pass: &mut AskPass<RouterTables>, link: &mut K, rounds: u32) -> u32
    ensures sees { Sees pass.old pass.new }
    ensures served { Served pass.old.station.lanes rounds pass.old.seen pass.new.seen
        (K.aside link.old) (K.aside link.new) (K.told link.old) (K.told link.new) (K.faults link.old) (K.faults link.new) result }
{
    let mut served = 0;
    while served < rounds {
        if !opens(link) {
            return served;
        }
        converse(pass, link);
        link.close();
        served += 1;
    }
    served
}
