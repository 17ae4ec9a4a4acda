ghost use Rattle.std.specs.Prelude.{◌≡◌, ◌++◌, take};
ghost use Rattle.bmp_specs.specs.Lines.{further};
ghost use Rattle.bmp_specs.specs.RouteLine.{route_line};
ghost use Rattle.ask_specs.specs.FullLine.{full_line, further_fields};
ghost use Rattle.wire_io.specs.Writes.{Writes};

use crate::full::{put_full_route, put_further};
use crate::line::{fields, front, open_fields, row_of, short_parts};
use crate::pen::ROOM;
use crate::route::put_route;
use bmp_frames::PeerKey;
use bmp_specs::View;
use ip_prefix::Nlri;
use path_attrs::Attrs;
use std::marker::Model;
use wire_io::{Failed, Sink, write_all};

/// Whether the path attributes have a text that is put together in one array: the next hop is one address, AS_PATH is one
/// sequence of 1 to 24 numbers, and there are at most 16 communities and 8 other attributes. It looks at the attributes
/// and writes nothing, so a caller who asks this of several routes has them fetched from memory side by side.
pub fn is_short(attrs: &Attrs) -> bool {
    short_parts(attrs).is_some()
}

/// Writes the lines of a table's routes. What they begin with is made once. It takes no memory.
#[derive(Drop)]
pub struct RouteLines {
    lane: u32,
    key: PeerKey,
    view: View,
    front: usize,
    line: [u8; ROOM],
}

impl Model for RouteLines {
    ghost use Rattle.std.specs.Prelude.{◌≡◌, ◌≤◌, codes, take};
    ghost use Rattle.reply_text.specs.Fronts.{TableValue, front_text};

    ghost Value = { TableValue };

    ghost view = { λ l. record { lane = l.lane; key = l.key; view = l.view } };

    ghost invariant = { λ l. (take l.front l.line ≡ front_text (codes "route ") (record { lane = l.lane; key = l.key; view = l.view })) × (l.front ≤ 147) };
}

impl RouteLines {
    /// The lines of the routes that a peer of this lane has in a view.
    pub fn new(lane: u32, key: PeerKey, view: View) -> RouteLines
        ensures { result ≡ record { lane = lane; key = key; view = view } }
    {
        let mut line = [0u8; ROOM];
        let front = front(&mut line, b"route ", lane, &key, view);
        RouteLines {
            lane,
            key,
            view,
            front,
            line,
        }
    }

    // Writes the line of a route by its parts.
    fn put_parts<O: Sink>(&self, out: &mut O, nlri: &Nlri, attrs: &Attrs) -> Result<(), Failed>
        ensures { Writes O.faults O.told O.aside out.old
            (route_line self.now.lane (record { row_key = record { key = self.now.key; view = self.now.view; nlri = nlri.now }; route = attrs.now })) result out.new }
    {
        let row = row_of(self.key, self.view, nlri);
        put_route(out, self.lane, &row, attrs)
    }

    /// Writes the line of a route: in one write where the text of its path attributes is short and the caller says
    /// that it may be. Where a write fails, a front of the line was written.
    pub fn put<O: Sink>(
        &mut self,
        out: &mut O,
        nlri: &Nlri,
        attrs: &Attrs,
        short: bool,
    ) -> Result<(), Failed>
        ensures same { self.new ≡ self.old }
        ensures writes { Writes O.faults O.told O.aside out.old
            (route_line self.old.lane (record { row_key = record { key = self.old.key; view = self.old.view; nlri = nlri.now }; route = attrs.now })) result out.new }
    {
        if !short {
            return self.put_parts(out, nlri, attrs);
        }
        let Some((hop, numbers)) = short_parts(attrs) else {
            return self.put_parts(out, nlri, attrs);
        };
        let end = fields(&mut self.line, self.front, nlri, attrs, hop, numbers);
        write_all(out, &self.line[..end])
    }

    // Writes the line of a route with all its path attributes by its parts.
    fn put_full_parts<O: Sink>(&self, out: &mut O, nlri: &Nlri, attrs: &Attrs) -> Result<(), Failed>
        ensures { Writes O.faults O.told O.aside out.old
            (full_line self.now.lane (record { row_key = record { key = self.now.key; view = self.now.view; nlri = nlri.now }; route = attrs.now })) result out.new }
    {
        let row = row_of(self.key, self.view, nlri);
        put_full_route(out, self.lane, &row, attrs)
    }

    /// Writes the line of a route with all its path attributes, as `put_full_route` does: what a route line tells in one
    /// write, and all else in one more where there are no other attributes, if the text of what it tells is short and the
    /// caller says that it may be. Where a write fails, a front of the line was written.
    pub fn put_full<O: Sink>(
        &mut self,
        out: &mut O,
        nlri: &Nlri,
        attrs: &Attrs,
        short: bool,
    ) -> Result<(), Failed>
        ensures same { self.new ≡ self.old }
        ensures writes { Writes O.faults O.told O.aside out.old
            (full_line self.old.lane (record { row_key = record { key = self.old.key; view = self.old.view; nlri = nlri.now }; route = attrs.now })) result out.new }
    {
        if !short {
            return self.put_full_parts(out, nlri, attrs);
        }
        let Some((hop, numbers)) = short_parts(attrs) else {
            return self.put_full_parts(out, nlri, attrs);
        };
        let end = open_fields(&mut self.line, self.front, nlri, attrs, hop, numbers);
        put_told(out, &self.line[..end], attrs)
    }
}

// Writes the fields that a route line tells, and what it doesn't tell.
fn put_told<O: Sink>(out: &mut O, told: &[u8], attrs: &Attrs) -> Result<(), Failed>
    ensures { Writes O.faults O.told O.aside out.old (told.now ++ further (further_fields attrs.now)) result out.new }
{
    write_all(out, told)?;
    put_further(out, attrs)
}
