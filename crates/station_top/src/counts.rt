ghost use Rattle.std.specs.Prelude.{◌≡◌, ◌≤◌, ◌+◌, ◌-◌, ◌^◌, [], ◌++◌, List, ℕ, codes, OnOk, Some};
ghost use Rattle.std.specs.Option.{option_map};
ghost use Rattle.bmp_specs.specs.Lines.{number_line};
ghost use Rattle.bmp_specs.specs.Registries.{first_row, message_types};
ghost use Rattle.bmp_specs.specs.Values.{EntryValue};
ghost use Rattle.wire_io.specs.Writes.{Writes};
ghost use Rattle.wire_tables.specs.Table.{row_values};
ghost use Rattle.station_top.specs.Check.{AreCounts, counted, counts_more, lines_of, number_lines};

use crate::account::{Account, Replies};
use bmp_frames::{
    INITIATION, PEER_DOWN, PEER_UP, ROUTE_MIRRORING, ROUTE_MONITORING, STATISTICS_REPORT,
    TERMINATION,
};
use bmp_message::{Judged, Judgements};
use itoa::Buffer;
use std::alloc::Global;
use wire_io::{Failed, NoMemory, Sink, write_pieces};
use wire_tables::{CodeTable, message_table};

/// The counts of `check`: the messages, their bytes, and how many are of each type (RFC 7854, section
/// 4.1). Each stops at the greatest number of 64 bits.
#[derive(Drop)]
pub struct Counts {
    pub messages: u64,
    pub bytes: u64,
    pub route_monitoring: u64,
    pub statistics_report: u64,
    pub peer_down: u64,
    pub peer_up: u64,
    pub initiation: u64,
    pub termination: u64,
    pub route_mirroring: u64,
    pub other: u64,
}

impl Counts {
    /// The counts of no entries.
    pub fn new() -> Counts
        ensures { AreCounts result [] }
    {
        Counts {
            messages: 0,
            bytes: 0,
            route_monitoring: 0,
            statistics_report: 0,
            peer_down: 0,
            peer_up: 0,
            initiation: 0,
            termination: 0,
            route_mirroring: 0,
            other: 0,
        }
    }

    // Counts a message of this type and length.
    fn count(&mut self, kind: u8, length: u32)
        ensures { self.new ≡ counts_more self.old kind length }
    {
        self.messages = self.messages.saturating_add(1);
        self.bytes = self.bytes.saturating_add(length as u64);
        self.route_monitoring = add_where(self.route_monitoring, kind == ROUTE_MONITORING);
        self.statistics_report = add_where(self.statistics_report, kind == STATISTICS_REPORT);
        self.peer_down = add_where(self.peer_down, kind == PEER_DOWN);
        self.peer_up = add_where(self.peer_up, kind == PEER_UP);
        self.initiation = add_where(self.initiation, kind == INITIATION);
        self.termination = add_where(self.termination, kind == TERMINATION);
        self.route_mirroring = add_where(self.route_mirroring, kind == ROUTE_MIRRORING);
        self.other = add_where(self.other, ROUTE_MIRRORING < kind);
    }

    // Writes the ten lines.
    fn put_lines<O: Sink>(&self, out: &mut O) -> Result<(), Failed>
        ensures { Writes O.faults O.told O.aside out.old (lines_of self.now) result out.new }
    {
        let types = message_table();
        put_numbers(
            out,
            &[
                (b"messages", self.messages),
                (b"bytes", self.bytes),
                (name_of(&types, ROUTE_MONITORING), self.route_monitoring),
                (name_of(&types, STATISTICS_REPORT), self.statistics_report),
                (name_of(&types, PEER_DOWN), self.peer_down),
                (name_of(&types, PEER_UP), self.peer_up),
                (name_of(&types, INITIATION), self.initiation),
                (name_of(&types, TERMINATION), self.termination),
                (name_of(&types, ROUTE_MIRRORING), self.route_mirroring),
                (b"other", self.other),
            ],
        )
    }
}

impl Account for Counts {
    ghost use Rattle.station_top.specs.Check.{AreCounts};

    type Wants = Judgements;

    type Told = Counts;

    ghost stands = { AreCounts };

    // An opening isn't counted.
    fn begin(alloc: Global) -> Result<Counts, NoMemory> {
        let _ = alloc;
        Ok(Counts::new())
    }

    // The effects of a message aren't made, since no count needs them.
    fn note(&mut self, item: Judged) -> Result<(), NoMemory> {
        self.count(item.kind, item.length);
        Ok(())
    }

    fn ready(self, alloc: Global, revision: u64) -> Result<Counts, NoMemory> {
        let _ = (alloc, revision);
        Ok(self)
    }
}

impl Replies for Counts {
    ghost use Rattle.bmp_specs.specs.Check.{check_lines};
    ghost use Rattle.std.specs.Prelude.{◌≡◌, ⊤};
    ghost use Rattle.station_top.specs.Check.{TellCounts};

    // all ten counts are told
    type Ask = ();

    ghost tells = { TellCounts };

    ghost replies = { λ _ entries bytes. bytes ≡ check_lines entries };

    ghost may_ask = { λ _. ⊤ };

    fn put_reply<O: Sink>(&self, out: &mut O, _ask: &()) -> Result<(), Failed> {
        self.put_lines(out)
    }
}

// The name of a message type that is known (RFC 7854, section 4.1).
fn name_of(types: &CodeTable<7>, kind: u8) -> &[u8]
    requires rows { row_values types.now.rows ≡ message_types }
    requires known { kind ≤ 6 }
    ensures { Some result.now ≡ option_map (λ row. row.name) (first_row kind message_types) }
{
    match types.name(kind as u16) {
        Some(name) => name.as_bytes(),
        // excluded by the premise: the types up to 6 have names
        None => unreachable!(),
    }
}

// A count, and one more where it counts.
fn add_where(count: u64, yes: bool) -> u64
    ensures { result ≡ counted count yes }
{
    if yes { count.saturating_add(1) } else { count }
}

// Writes a line of a word and a number.
pub(crate) fn put_number<O: Sink>(out: &mut O, word: &[u8], number: u64) -> Result<(), Failed>
    ensures { Writes O.faults O.told O.aside out.old (number_line word.now number) result out.new }
{
    write_pieces(
        out,
        &[word, b" ", Buffer::new().format(number).as_bytes(), b"\n"],
    )
}

// Writes these lines.
fn put_numbers<O: Sink>(out: &mut O, lines: &[(&[u8], u64)]) -> Result<(), Failed>
    ensures { Writes O.faults O.told O.aside out.old (number_lines lines.now) result out.new }
{
    for (word, number) in lines {
        put_number(out, word, *number)?;
    }
    Ok(())
}
