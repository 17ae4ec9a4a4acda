ghost use Rattle.std.specs.Prelude.{◌≡◌};
ghost use Rattle.std.specs.Option.{option_map};
ghost use Rattle.router_tables.specs.Tables.{StandsFor};
ghost use Rattle.query_eval.specs.Rows.{row_of};
ghost use Rattle.rov_reply.specs.RovLines.{PutsRovLines, info_origin, line_by_info, line_by_peers, verdict_text};

use bgp_open::PeerInfo;
use bmp_frames::PeerKey;
use bmp_specs::View;
use ip_prefix::{Nlri, Prefix};
use path_attrs::Attrs;
use peer_book::PeerBook;
use query_eval::{Found, TellsRow, TellsTable, put_told_within};
use reply_text::RovLines;
use router_tables::RouterTables;
use rov_table::{Verdict, VrpTable, origin_of, verdict};
use wire_io::{Failed, Sink};

// Rows are told with the verdicts that these VRPs give; the origins of their routes are by these peers.
#[derive(Drop)]
struct RovRows<'a> {
    vrps: &'a VrpTable,
    peers: &'a PeerBook,
}

// What writes the lines of one table, whose peer told this in its Peer Up.
#[derive(Drop)]
struct RovTable<'a> {
    lines: RovLines,
    vrps: &'a VrpTable,
    info: Option<&'a PeerInfo>,
}

// The word of a verdict.
fn verdict_word(found: Verdict) -> &'static [u8]
    ensures { result.now ≡ verdict_text found }
{
    match found {
        Verdict::Valid => b"valid",
        Verdict::Invalid => b"invalid",
        Verdict::NotFound => b"not-found",
    }
}

// The origin of a route, by what its peer told.
fn origin_by(info: Option<&PeerInfo>, attrs: &Attrs) -> Option<u32>
    ensures { result ≡ info_origin (option_map (λ i. i.now) info.entry) attrs.now }
{
    match info {
        Some(info) => origin_of(attrs, info),
        None => None,
    }
}

impl<'a> TellsTable for RovTable<'a> {
    ghost line = { λ t nlri attrs. line_by_info t.vrps.now (option_map (λ i. i.now) t.info) t.lines.lane (row_of t.lines.key t.lines.view (nlri, attrs)) };

    ghost finds = { λ t attrs found. found.origin ≡ info_origin (option_map (λ i. i.now) t.info) attrs };

    // Each line has its place in one array: an origin takes at most 10 bytes, and a verdict at most 9.
    fn look(&self, attrs: &Attrs) -> Found {
        Found {
            short: true,
            origin: origin_by(self.info, attrs),
        }
    }

    fn put_row<O: Sink>(
        &mut self,
        out: &mut O,
        nlri: &Nlri,
        _attrs: &Attrs,
        found: Found,
    ) -> Result<(), Failed> {
        let judged = verdict(self.vrps, &nlri.prefix, found.origin);
        self.lines
            .put(out, nlri, found.origin, verdict_word(judged), found.short)
    }
}

impl<'a> TellsRow for RovRows<'a> {
    ghost line = { λ r lane row. line_by_peers r.vrps.now r.peers.now lane row };

    type Lines = RovTable<'a>;

    fn begin_table(&self, lane: u32, key: PeerKey, view: View) -> RovTable<'a> {
        let peers = self.peers;
        RovTable {
            lines: RovLines::new(lane, key, view),
            vrps: self.vrps,
            info: peers.info(&key),
        }
    }
}

// Writes the line of each row that `within P` asks of a lane, and answers how many.
pub(crate) fn put_rov_rows<O: Sink>(
    out: &mut O,
    lane: u32,
    tables: &RouterTables,
    vrps: &VrpTable,
    prefix: &Prefix,
) -> Result<u64, Failed>
    ensures { PutsRovLines O.faults O.told O.aside (StandsFor tables.now) vrps.now prefix.now lane out.old result out.new }
{
    let rows = RovRows {
        vrps,
        peers: tables.peers(),
    };
    put_told_within(out, lane, tables, prefix, &rows)
}
