ghost use Rattle.std.specs.Prelude.{◌≡◌, [], ◌++◌, OnOk, IfErr};
ghost use Rattle.bmp_specs.specs.Octets.{AreOctets};
ghost use Rattle.wire_io.specs.Writes.{Writes};
ghost use Rattle.relay_out.specs.Writable.{IsWritable};
ghost use Rattle.relay_out.specs.Writing.{HasWritten, IsStopped};

use crate::fault::EmitFault;
use crate::item::Item;
use crate::put::put_item;
use crate::takes::Takes;
use bgp_open::PeerInfo;
use bmp_frames::PeerKey;
use bmp_specs::View;
use ip_prefix::Nlri;
use path_attrs::{AsPath, Attrs};
use rib_model::Route;
use route_runs::RouteTable;
use std::alloc::Global;
use std::marker::Model;
use std::snapshot::Snapshot;
use wire_io::{ByteList, Failed, Sink, write_all};

/// So many bytes are gathered before they are written.
const ENOUGH: usize = 32_768;

// About how many octets these numbers take. They are fetched, since the last bit of the first one counts.
fn octets_of_numbers(numbers: &[u32]) -> usize {
    if numbers.is_empty() {
        return 0;
    }
    let bit = (numbers[0] % 2) as usize;
    numbers.len().saturating_mul(4).saturating_add(bit)
}

// About how many octets a path takes.
fn octets_of_path(path: &Option<AsPath>) -> usize {
    let Some(path) = path else {
        return 0;
    };
    let mut octets: usize = 0;
    for segment in path.as_slice() {
        octets = octets.saturating_add(octets_of_numbers(segment.numbers.as_slice()));
    }
    octets
}

// How many octets a next hop takes.
fn octets_of_hop(hop: &Option<ByteList>) -> usize {
    match hop {
        Some(hop) => hop.as_slice().len(),
        None => 0,
    }
}

// About how many octets the attributes of a route take that have lists.
fn octets_of_lists(attrs: &Attrs) -> usize {
    let others = attrs.others.as_slice().len().saturating_mul(16);
    octets_of_path(&attrs.path)
        .saturating_add(octets_of_numbers(attrs.communities.as_slice()))
        .saturating_add(octets_of_hop(&attrs.hop))
        .saturating_add(others)
}

// About how many octets the announcement of a route takes beside its lists.
fn octets_without_lists(attrs: &Attrs) -> usize {
    if attrs.origin.is_some() { 100 } else { 96 }
}

// About how many octets the announcements of these routes take. What lies in one place is looked at for all routes before
// what lies behind it, so that the routes are fetched from memory side by side.
fn octets_of(routes: &[&Route]) -> usize {
    let mut octets: usize = 0;
    for route in routes {
        octets = octets.saturating_add(octets_without_lists(route));
    }
    for route in routes {
        octets = octets.saturating_add(octets_of_lists(route));
    }
    octets
}

// Writes octets.
fn write_octets<O: Sink>(out: &mut O, octets: &[u8]) -> Result<(), Failed>
    ensures writes { Writes O.faults O.told O.aside out.old octets.now result out.new }
    ensures octets { AreOctets octets.now }
{
    write_all(out, octets)
}

// Whether these octets are enough to be written.
fn are_enough(octets: &[u8]) -> bool
    ensures octets { AreOctets octets.now }
{
    octets.len() >= ENOUGH
}

/// Writes messages, gathered to larger pieces.
pub(crate) struct Writer<O: Sink> {
    alloc: Global,
    first: Snapshot<O>,
    out: O,
    held: ByteList,
}

impl<O: Sink> Model for Writer<O> {
    ghost use Rattle.relay_out.specs.Writing.{WriterValue};

    ghost Value = { WriterValue O };

    ghost view = { λ w. record { first = w.first.value; below = w.out; held = w.held } };
}

impl<O: Sink> Writer<O> {
    pub(crate) fn new(alloc: Global, out: O) -> Writer<O>
        ensures { result ≡ record { first = out; below = out; held = [] } }
    {
        let first = Snapshot::of(&out);
        Writer {
            alloc,
            first,
            out,
            held: ByteList::new(alloc),
        }
    }
}

impl<O: Sink> Writer<O> {
    ghost use Rattle.relay_out.specs.Messages.{ItemValue};
    ghost use Rattle.std.specs.Prelude.{List};

    /// Writes what is held back.
    pub(crate) fn flush(&mut self) -> Result<(), EmitFault>
        ensures ok { OnOk result ((items : List ItemValue) → HasWritten O.faults O.told O.aside self.old items → HasWritten O.faults O.told O.aside self.new items) }
        ensures empty { OnOk result (self.new.held ≡ []) }
        ensures err { IfErr result (λ fault. (items : List ItemValue) → HasWritten O.faults O.told O.aside self.old items
            → IsStopped O.faults O.told O.aside self.new.first self.new.below items fault) }
        ensures first { self.new.first ≡ self.old.first }
    {
        write_octets(&mut self.out, self.held.as_slice())?;
        self.held.truncate(0);
        Ok(())
    }

    /// The sink.
    pub(crate) fn into_inner(self) -> O
        ensures { result ≡ self.below }
    {
        let Writer {
            alloc: _,
            first: _,
            out,
            held: _,
        } = self;
        out
    }
}

impl<O: Sink> Takes for Writer<O> {
    type Of = O;

    ghost of = { λ w. w.first };

    ghost may = { IsWritable };

    ghost took = { HasWritten O.faults O.told O.aside };

    ghost stopped = { λ w items fault. IsStopped O.faults O.told O.aside w.first w.below items fault };

    fn take(&mut self, item: &Item<'_>) -> Result<(), EmitFault> {
        if are_enough(self.held.as_slice()) {
            self.flush()?;
        }
        put_item(&mut self.held, self.alloc, item)?;
        Ok(())
    }

    fn has_taken(&self, table: &RouteTable, key: &PeerKey, view: View, info: &PeerInfo) -> bool {
        false
    }

    // Writes what is held back where the announcements would make it long. So the attributes of each are touched.
    fn look(
        &mut self,
        key: &PeerKey,
        view: View,
        info: &PeerInfo,
        nlris: &[Nlri],
        routes: &[&Route],
    ) -> Result<(), EmitFault> {
        let octets = octets_of(routes);
        if self.held.as_slice().len().saturating_add(octets) < ENOUGH {
            return Ok(());
        }
        self.flush()
    }
}
