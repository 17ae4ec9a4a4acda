ghost use Rattle.std.specs.Prelude.{◌≡◌, IsTrue};
ghost use Rattle.bmp_specs.specs.Life.{Given};
ghost use Rattle.cut_publisher.specs.History.{revision};
ghost use Rattle.ask_session.specs.Lines.{HasNoEnd, IsTooMany};
ghost use Rattle.ask_session.specs.Connection.{Conversed};
ghost use Rattle.ask_session.specs.Sessions.{Sees};
ghost use Rattle.ask_session.specs.Hearing.{Hears, EndsSo, IsEnd};

use crate::close::Close;
use crate::line::{Line, chomp};
use crate::reply::reply_to;
use bmp_specs::MOST_TAKEN;
use cut_publisher::AskPass;
use router_tables::RouterTables;
use station_doors::Link;

/// The most bytes that a link is asked for at once.
const MOST_HEARD: usize = 512;

/// Takes a piece of the input, answers each line that ends in it, and tells how the connection ended, if it did.
fn hear<K: Link>(
    pass: &mut AskPass<RouterTables>,
    link: &mut K,
    line: &mut Line,
    piece: &[u8],
) -> Option<Close>
    requires plain { HasNoEnd line.old }
    requires few { IsTooMany line.old → ⊥ }
    ensures sees { Sees pass.old pass.new }
    ensures hears { Hears pass.old.station.lanes result pass.old.seen pass.new.seen line.old piece.now line.new (K.told link.old) (K.told link.new) (K.faults link.old) (K.faults link.new) }
    ensures kept { K.aside link.new ≡ K.aside link.old }
{
    for byte in piece {
        if *byte == 10 {
            if let Some(close) = reply_to(pass, link, chomp(line.as_slice())) {
                return Some(close);
            }
            line.clear();
        } else {
            line.push(*byte);
            if line.is_too_long() {
                match reply_to(pass, link, line.as_slice()) {
                    Some(close) => return Some(close),
                    // the reply to a line that is too long always ends the connection
                    None => unreachable!(),
                }
            }
        }
    }
    None
}

/// Answers the last line, which no line feed ends, if there is one.
fn hear_last<K: Link>(
    pass: &mut AskPass<RouterTables>,
    link: &mut K,
    line: &Line,
    close: Close,
) -> Close
    requires plain { HasNoEnd line.now }
    requires few { IsTooMany line.now → ⊥ }
    requires close { IsEnd close }
    ensures sees { Sees pass.old pass.new }
    ensures ends { EndsSo pass.old.station.lanes close result pass.old.seen pass.new.seen line.now (K.told link.old) (K.told link.new) (K.faults link.old) (K.faults link.new) }
    ensures kept { K.aside link.new ≡ K.aside link.old }
{
    if line.len() == 0 {
        return close;
    }
    match reply_to(pass, link, line.as_slice()) {
        Some(early) => early,
        None => close,
    }
}

/// Serves the present connection, of which no byte was given, to its end.
pub fn converse<K: Link>(pass: &mut AskPass<RouterTables>, link: &mut K) -> Close
    requires is_open { IsTrue (K.aside link.old).is_open }
    requires fresh { (K.aside link.old).taken ≡ 0 }
    ensures sees { Sees pass.old pass.new }
    ensures talk { (input : Given) × Conversed pass.old.station.lanes pass.new.seen (revision pass.old.seen)
        (K.aside link.old) (K.aside link.new) input (K.told link.old) (K.told link.new) (K.faults link.old) (K.faults link.new) result }
{
    let mut line = Line::new();
    let mut buf = [0u8; MOST_HEARD];
    let mut taken: u64 = 0;
    while taken < MOST_TAKEN {
        let room = (MOST_TAKEN - taken).min(MOST_HEARD as u64) as usize;
        match link.read(&mut buf[..room]) {
            Ok(0) => return hear_last(pass, link, &line, Close::Ended),
            Ok(n) => {
                taken += n as u64;
                if let Some(close) = hear(pass, link, &mut line, &buf[..n]) {
                    return close;
                }
            }
            Err(_) => return Close::ReadFault,
        }
    }
    hear_last(pass, link, &line, Close::Full)
}
