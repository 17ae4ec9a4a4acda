ghost use Rattle.std.specs.Prelude.{◌≡◌, ⊤, ℕ, List};
ghost use Rattle.ask_specs.specs.FullLine.{full_line};
ghost use Rattle.bmp_specs.specs.RouteLine.{route_line};
ghost use Rattle.bmp_specs.specs.Rows.{RowValue};
ghost use Rattle.bmp_specs.specs.Values.{AttrsValue, NlriValue};
ghost use Rattle.wire_io.specs.Writes.{Writes};
ghost use Rattle.query_eval.specs.declared.tells.Found.{Found};
ghost use Rattle.query_eval.specs.Rows.{row_of};

use bmp_frames::PeerKey;
use bmp_specs::View;
use ip_prefix::Nlri;
use path_attrs::Attrs;
use reply_text::{RouteLines, is_short};
use wire_io::{Failed, Sink};

/// What is found of a route before its line is written.
#[derive(Clone, Copy)]
pub struct Found {
    /// Whether the line may be put together in one array.
    pub short: bool,

    /// The origin AS of the route (RFC 6811, section 2), where its line has it.
    pub origin: Option<u32>,
}

/// What writes the lines of one table's rows. What they begin with is made once.
///
/// The walk looks at several routes before it writes the line of the first, so that their path attributes are fetched from
/// memory side by side. What it found of a route it hands to the call that writes the line.
pub trait TellsTable {
    /// The line of a route of the table.
    ghost line: { Self → NlriValue → AttrsValue → List ℕ };

    /// Whether this is what is found of a route with these path attributes.
    ghost finds: { Self → AttrsValue → Found → Type 0 };

    /// Looks at the path attributes of a route. It writes nothing.
    fn look(&self, attrs: &Attrs) -> Found
        ensures { finds self.now attrs.now result };

    /// Writes the line of a route of which this was found. A write that fails ends the call, after a front of the line.
    fn put_row<O: Sink>(
        &mut self,
        out: &mut O,
        nlri: &Nlri,
        attrs: &Attrs,
        found: Found,
    ) -> Result<(), Failed>
        requires { finds self.old attrs.now found }
        ensures same { self.new ≡ self.old }
        ensures writes { Writes O.faults O.told O.aside out.old (line self.old nlri.now attrs.now) result out.new };
}

/// How rows are told: each by a line.
pub trait TellsRow {
    /// The line of a row of a lane.
    ghost line: { Self → ℕ → RowValue → List ℕ };

    /// What writes the lines of one table.
    type Lines: TellsTable + Drop;

    /// What writes the lines of the rows that a peer of this lane has in a view.
    fn begin_table(&self, lane: u32, key: PeerKey, view: View) -> Self::Lines
        ensures { (nlri : NlriValue) (attrs : AttrsValue) → Self.Lines.line result nlri attrs ≡ line self.now lane (row_of key view (nlri, attrs)) };
}

impl TellsTable for RouteLines {
    ghost line = { λ table nlri attrs. route_line table.lane (row_of table.key table.view (nlri, attrs)) };

    ghost finds = { λ _ _ _. ⊤ };

    fn look(&self, attrs: &Attrs) -> Found {
        Found {
            short: is_short(attrs),
            origin: None,
        }
    }

    fn put_row<O: Sink>(
        &mut self,
        out: &mut O,
        nlri: &Nlri,
        attrs: &Attrs,
        found: Found,
    ) -> Result<(), Failed> {
        self.put(out, nlri, attrs, found.short)
    }
}

/// Each row is told by the line of its route.
#[derive(Clone, Copy)]
pub(crate) struct AsRoutes;

impl TellsRow for AsRoutes {
    ghost line = { λ _ lane. route_line lane };

    type Lines = RouteLines;

    fn begin_table(&self, lane: u32, key: PeerKey, view: View) -> RouteLines {
        RouteLines::new(lane, key, view)
    }
}

/// Writes the full lines of one table's routes.
#[derive(Drop)]
pub(crate) struct FullLines {
    lines: RouteLines,
}

impl TellsTable for FullLines {
    ghost line = { λ table nlri attrs. full_line table.lines.lane (row_of table.lines.key table.lines.view (nlri, attrs)) };

    ghost finds = { λ _ _ _. ⊤ };

    fn look(&self, attrs: &Attrs) -> Found {
        Found {
            short: is_short(attrs),
            origin: None,
        }
    }

    fn put_row<O: Sink>(
        &mut self,
        out: &mut O,
        nlri: &Nlri,
        attrs: &Attrs,
        found: Found,
    ) -> Result<(), Failed> {
        self.lines.put_full(out, nlri, attrs, found.short)
    }
}

/// Each row is told by the line of its route with all path attributes.
#[derive(Clone, Copy)]
pub(crate) struct AsFull;

impl TellsRow for AsFull {
    ghost line = { λ _ lane. full_line lane };

    type Lines = FullLines;

    fn begin_table(&self, lane: u32, key: PeerKey, view: View) -> FullLines {
        FullLines {
            lines: RouteLines::new(lane, key, view),
        }
    }
}
