ghost use Rattle.std.specs.Prelude.{◌≡◌, [], ◌∷◌, List};
ghost use Rattle.std.specs.List.{AllByRecursion};
ghost use Rattle.std.specs.List.Sorted.{IsStrictlySortedBy};
ghost use Rattle.std.specs.Map.{keys_of};
ghost use Rattle.bmp_specs.specs.Orders.{key_cmp};
ghost use Rattle.bmp_specs.specs.Session.{session_effects};
ghost use Rattle.bmp_specs.specs.Values.{EntryValue};
ghost use Rattle.router_tables.specs.Tables.{StandsFor};
ghost use Rattle.relay_out.specs.Messages.{stream_items};
ghost use Rattle.relay_out.specs.Tables.{stream_of};
ghost use Rattle.relay_out.specs.Writable.{IsWritable};
ghost use Rattle.relay_out.specs.Writing.{Emits, IsCounted, Relays, WritesAll};

use crate::fault::EmitFault;
use crate::judge::Judge;
use crate::walk::hand_all;
use crate::writer::Writer;
use core::mem::replace_with;
use router_tables::RouterTables;
use std::alloc::Global;
use wire_io::Sink;

// Writes all messages, and what is held back of them at the end.
fn write_messages<O: Sink>(writer: &mut Writer<O>, tables: &RouterTables) -> Result<(), EmitFault>
    requires { AllByRecursion IsWritable (stream_items (stream_of tables.now)) }
    ensures all { WritesAll O.faults O.told O.aside (stream_items (stream_of tables.now)) writer.old result writer.new }
    ensures first { writer.new.first ≡ writer.old.first }
{
    hand_all(tables, writer)?;
    writer.flush()
}

fn write_to<O: Sink>(out: O, alloc: Global, tables: &RouterTables) -> (O, Result<(), EmitFault>)
    requires { AllByRecursion IsWritable (stream_items (stream_of tables.now)) }
    ensures { Emits O.faults O.told O.aside (stream_items (stream_of tables.now)) out result.1 result.0 }
{
    let mut writer = Writer::new(alloc, out);
    let result = write_messages(&mut writer, tables);
    (writer.into_inner(), result)
}

// Writes all messages to the sink.
fn write_stream<O: Sink>(alloc: Global, tables: &RouterTables, out: &mut O) -> Result<(), EmitFault>
    requires { AllByRecursion IsWritable (stream_items (stream_of tables.now)) }
    ensures { Emits O.faults O.told O.aside (stream_items (stream_of tables.now)) out.old result out.new }
{
    replace_with(out, (alloc, tables), |out, (alloc, tables)| {
        write_to(out, alloc, tables)
    })
}

// The peers stand in their order. It does nothing: it tells this to a proof.
fn see_order(tables: &RouterTables)
    ensures { IsStrictlySortedBy key_cmp (keys_of tables.now.session.books.peers) }
{
    // For the proof: what is read of the book says that its peers are in order.
    let _first = tables.peers().after(None);
}

/// Writes the stream that relays what the tables have: an Initiation Message, and of each peer that is up a Peer Up
/// Notification, one Route Monitoring message for each row, and the End-of-RIB marker of each complete table (RFC 7854,
/// sections 4.3, 4.6 and 4.10; RFC 4724, section 2). All is judged before anything is written.
pub fn emit<O: Sink>(alloc: Global, tables: &RouterTables, out: &mut O) -> Result<(), EmitFault>
    ensures relays { (entries : List EntryValue) → StandsFor tables.now entries → Relays O.faults O.told O.aside (session_effects entries) out.old result out.new }
    ensures kept { O.aside out.new ≡ O.aside out.old }
    ensures counted { IsCounted (O.faults out.old) (O.faults out.new) result }
{
    see_order(tables);
    let mut judge = Judge::new(alloc);
    hand_all(tables, &mut judge)?;
    write_stream(alloc, tables, out)
}
