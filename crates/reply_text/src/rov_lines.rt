ghost use Rattle.std.specs.Prelude.{◌≡◌, ◌+◌, ◌≤◌, ◌++◌, [], ◌∷◌, length, take};
ghost use Rattle.bmp_specs.specs.Lines.{further};
ghost use Rattle.bmp_specs.specs.PrefixText.{prefix_text};
ghost use Rattle.bmp_specs.specs.RouteLine.{id_fields};
ghost use Rattle.reply_text.specs.Pieces.{spaced};
ghost use Rattle.reply_text.specs.Rov.{origin_word, rov_line};
ghost use Rattle.wire_io.specs.Writes.{Writes};

use crate::line::{front, id, prefix, row_of};
use crate::pen::{ROOM, byte, number, word};
use crate::rov::put_rov;
use bmp_frames::PeerKey;
use bmp_specs::View;
use ip_prefix::Nlri;
use std::marker::Model;
use wire_io::{Failed, Sink, write_all};

// The most bytes of what a row is judged to be that are put into the array.
const MOST_JUDGED: usize = 16;

// Puts the origin of a route, or that it has none.
#[inline(always)]
fn origin_or_none(line: &mut [u8; ROOM], at: usize, origin: Option<u32>) -> usize
    requires { at + 10 ≤ 1024 }
    ensures whole { take result line.new ≡ take at line.old ++ origin_word origin }
    ensures short { result ≤ at + 10 }
{
    match origin {
        None => word(line, at, b"none"),
        Some(asn) => number(line, at, asn),
    }
}

// Puts the fields of an origin and of what a row is judged to be.
#[inline(always)]
fn judgement(line: &mut [u8; ROOM], at: usize, origin: Option<u32>, judged: &[u8]) -> usize
    requires room { at + 28 ≤ 1024 }
    requires few { length judged.now ≤ 16 }
    ensures whole { take result line.new ≡ take at line.old ++ spaced (origin_word origin ∷ judged.now ∷ []) }
    ensures short { result ≤ at + 28 }
{
    let next = byte(line, at, b' ');
    let next = origin_or_none(line, next, origin);
    let next = byte(line, next, b' ');
    word(line, next, judged)
}

// Puts the prefix, the origin, what the row is judged to be, the path identifier and the end of a line.
#[inline(always)]
fn judged_row(
    line: &mut [u8; ROOM],
    at: usize,
    nlri: &Nlri,
    origin: Option<u32>,
    judged: &[u8],
) -> usize
    requires room { at + 89 ≤ 1024 }
    requires few { length judged.now ≤ 16 }
    ensures whole { take result line.new ≡ take at line.old ++ (prefix_text nlri.now.prefix ++ (spaced (origin_word origin ∷ judged.now ∷ []) ++ further (id_fields nlri.now.id))) }
    ensures short { result ≤ 1024 }
{
    let next = prefix(line, at, &nlri.prefix);
    let next = judgement(line, next, origin, judged);
    id(line, next, nlri.id)
}

/// Writes the lines of a table's rows with what they are judged to be. What they begin with is made once. It takes no
/// memory.
#[derive(Drop)]
pub struct RovLines {
    lane: u32,
    key: PeerKey,
    view: View,
    front: usize,
    line: [u8; ROOM],
}

impl Model for RovLines {
    ghost use Rattle.std.specs.Prelude.{◌≡◌, ◌≤◌, codes, take};
    ghost use Rattle.reply_text.specs.Fronts.{TableValue, front_text};

    ghost Value = { TableValue };

    ghost view = { λ l. record { lane = l.lane; key = l.key; view = l.view } };

    ghost invariant = { λ l. (take l.front l.line ≡ front_text (codes "rov ") (record { lane = l.lane; key = l.key; view = l.view })) × (l.front ≤ 147) };
}

impl RovLines {
    /// The lines of the rows that a peer of this lane has in a view.
    pub fn new(lane: u32, key: PeerKey, view: View) -> RovLines
        ensures { result ≡ record { lane = lane; key = key; view = view } }
    {
        let mut line = [0u8; ROOM];
        let front = front(&mut line, b"rov ", lane, &key, view);
        RovLines {
            lane,
            key,
            view,
            front,
            line,
        }
    }

    // Writes the line of a row by its parts.
    fn put_parts<O: Sink>(
        &self,
        out: &mut O,
        nlri: &Nlri,
        origin: Option<u32>,
        judged: &[u8],
    ) -> Result<(), Failed>
        ensures { Writes O.faults O.told O.aside out.old (rov_line self.now.lane (record { key = self.now.key; view = self.now.view; nlri = nlri.now }) origin judged.now) result out.new }
    {
        let row = row_of(self.key, self.view, nlri);
        put_rov(out, self.lane, &row, origin, judged)
    }

    /// Writes the line of a row, as `put_rov`: in one write where what it is judged to be has at most 16 bytes and the
    /// caller says that the line may be put together in one array. Where a write fails, a front of the line was written.
    pub fn put<O: Sink>(
        &mut self,
        out: &mut O,
        nlri: &Nlri,
        origin: Option<u32>,
        judged: &[u8],
        short: bool,
    ) -> Result<(), Failed>
        ensures same { self.new ≡ self.old }
        ensures writes { Writes O.faults O.told O.aside out.old (rov_line self.old.lane (record { key = self.old.key; view = self.old.view; nlri = nlri.now }) origin judged.now) result out.new }
    {
        if !short || judged.len() > MOST_JUDGED {
            return self.put_parts(out, nlri, origin, judged);
        }
        let end = judged_row(&mut self.line, self.front, nlri, origin, judged);
        write_all(out, &self.line[..end])
    }
}
