ghost use Rattle.std.specs.Prelude.{◌≡◌, ◌++◌, codes};
ghost use Rattle.bmp_specs.specs.EscapedText.{escaped_text};
ghost use Rattle.bmp_specs.specs.Lines.{further};
ghost use Rattle.bmp_specs.specs.PeerLines.{down_line, table_fields, up_line, detail_text, name_or_other};
ghost use Rattle.bmp_specs.specs.QueryReply.{peer_line};
ghost use Rattle.bmp_specs.specs.Registries.{first_row, peer_down_reasons};
ghost use Rattle.bmp_specs.specs.RouteLine.{text_or_absent, yes_or_no};
ghost use Rattle.peer_book.specs.Line.{line_value};
ghost use Rattle.reply_text.specs.Pieces.{loc_rib_fields, session_fields, spaced};
ghost use Rattle.wire_io.specs.Writes.{Writes};
ghost use Rattle.wire_tables.specs.Table.{row_values};

use crate::escaped::put_text;
use crate::hop::v4_text;
use crate::values::{put_u32, yes_or_no};
use bgp_open::{DownInfo, PeerInfo};
use bmp_frames::{LOC_RIB, PeerKey};
use bmp_specs::Detail;
use ip_prefix::ShortText;
use itoa::Buffer;
use peer_book::{PeerLine, PeerState};
use wire_io::{ByteList, Failed, Sink, write_all, write_pieces};
use wire_tables::{CodeTable, reason_table};

/// Writes the line of a peer of this lane: of one that is up what its last Peer Up told (RFC 7854, section
/// 4.10; for a Loc-RIB Instance Peer RFC 9069, section 5.2), of one that is down what its last Peer Down
/// told (RFC 7854, section 4.9). Where a write fails, a front of the line was written.
pub fn put_peer<O: Sink>(out: &mut O, lane: u32, line: &PeerLine<'_>) -> Result<(), Failed>
    ensures { Writes O.faults O.told O.aside out.old (peer_line lane (line_value line.now)) result out.new }
{
    match line.state {
        PeerState::Up(info) => put_up(out, lane, &line.key, info),
        PeerState::Down(info) => put_down(out, lane, &line.key, info),
    }
}

// Writes the line of a peer that is up.
fn put_up<O: Sink>(out: &mut O, lane: u32, key: &PeerKey, info: &PeerInfo) -> Result<(), Failed>
    ensures { Writes O.faults O.told O.aside out.old (up_line lane key.now info.now) result out.new }
{
    put_session(out, lane, key, info)?;
    put_table(out, key, info)
}

// Writes the fields of the session of a peer that is up.
fn put_session<O: Sink>(
    out: &mut O,
    lane: u32,
    key: &PeerKey,
    info: &PeerInfo,
) -> Result<(), Failed>
    ensures { Writes O.faults O.told O.aside out.old (codes "peer" ++ spaced (session_fields lane key.now info.now)) result out.new }
{
    write_pieces(
        out,
        &[
            b"peer ",
            Buffer::new().format(lane).as_bytes(),
            b" ",
            key.text().as_slice(),
            b" up asn=",
            Buffer::new().format(info.asn).as_bytes(),
            b" id=",
            v4_text(&info.identifier).as_slice(),
            b" local=",
            info.local.text().as_slice(),
            b" ports=",
            Buffer::new().format(info.local_port).as_bytes(),
            b",",
            Buffer::new().format(info.remote_port).as_bytes(),
        ],
    )
}

// Writes the fields of a Loc-RIB Instance Peer, where the peer has this type, and the end of the line.
fn put_table<O: Sink>(out: &mut O, key: &PeerKey, info: &PeerInfo) -> Result<(), Failed>
    ensures { Writes O.faults O.told O.aside out.old (further (table_fields key.now.kind info.now)) result out.new }
{
    if key.kind == LOC_RIB {
        put_loc_rib(out, info.filtered, &info.table)
    } else {
        write_all(out, b"\n")
    }
}

// Writes the fields of a Loc-RIB Instance Peer (RFC 9069, sections 4.2 and 5.2.1), and the end of the line.
fn put_loc_rib<O: Sink>(out: &mut O, filtered: bool, table: &Option<ByteList>) -> Result<(), Failed>
    ensures { Writes O.faults O.told O.aside out.old (further (loc_rib_fields filtered (text_or_absent escaped_text table.now))) result out.new }
{
    match table {
        None => write_pieces(out, &[b" filtered=", yes_or_no(filtered), b" table=-\n"]),
        Some(name) => put_table_name(out, filtered, name.as_slice()),
    }
}

// Writes the field of whether a Loc-RIB is filtered.
fn put_filtered<O: Sink>(out: &mut O, filtered: bool) -> Result<(), Failed>
    ensures { Writes O.faults O.told O.aside out.old (codes " filtered=" ++ yes_or_no filtered) result out.new }
{
    write_pieces(out, &[b" filtered=", yes_or_no(filtered)])
}

// Writes the fields of a Loc-RIB Instance Peer with a table name, and the end of the line.
fn put_table_name<O: Sink>(out: &mut O, filtered: bool, name: &[u8]) -> Result<(), Failed>
    ensures { Writes O.faults O.told O.aside out.old (further (loc_rib_fields filtered (escaped_text name.now))) result out.new }
{
    put_filtered(out, filtered)?;
    put_text(out, b" table=", name)?;
    write_all(out, b"\n")
}

// The name of a reason, where it has one.
fn reason_name(reasons: &CodeTable<6>, reason: u8) -> &[u8]
    requires { row_values reasons.now.rows ≡ peer_down_reasons }
    ensures { result.now ≡ name_or_other (first_row reason peer_down_reasons) }
{
    match reasons.name(reason as u16) {
        Some(name) => name.as_bytes(),
        None => b"other",
    }
}

// The text of what a Peer Down told beside its reason.
fn detail_text(detail: Detail) -> ShortText
    ensures { result ≡ detail_text detail }
{
    let mut text = ShortText::new();
    match detail {
        Detail::Notified { code, sub } => {
            text.extend(b"notification=");
            put_u32(&mut text, code as u32);
            text.push(b'/');
            put_u32(&mut text, sub as u32);
        }
        Detail::Event(code) => {
            text.extend(b"event=");
            put_u32(&mut text, code as u32);
        }
        Detail::Unread => text.push(b'-'),
    }
    text
}

// Writes the line of a peer that went down.
fn put_down<O: Sink>(out: &mut O, lane: u32, key: &PeerKey, info: &DownInfo) -> Result<(), Failed>
    ensures { Writes O.faults O.told O.aside out.old (down_line lane key.now info.now) result out.new }
{
    let reasons = reason_table();
    write_pieces(
        out,
        &[
            b"peer ",
            Buffer::new().format(lane).as_bytes(),
            b" ",
            key.text().as_slice(),
            b" down ",
            Buffer::new().format(info.reason).as_bytes(),
            b" ",
            reason_name(&reasons, info.reason),
            b" ",
            detail_text(info.detail).as_slice(),
            b"\n",
        ],
    )
}
