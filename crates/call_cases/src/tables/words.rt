//! What the calls on tables read of a case's words.
use crate::line::{at, octet_at};
use bmp_frames::{PeerKey, View, parse_view};
use ip_prefix::Addr;

// What stands after the first space of a line.
pub(crate) fn rest_of(line: &str) -> &str {
    match line.split_once(' ') {
        Some((_, rest)) => rest,
        None => "",
    }
}

// The number of 64 bits that a word is; of any other word 0.
pub(crate) fn long_at(words: &[&str], place: usize) -> u64 {
    at(words, place).parse::<u64>().unwrap_or(0)
}

// The number of 16 bits that a word is; of any other word 0.
pub(crate) fn short_at(words: &[&str], place: usize) -> u16 {
    at(words, place).parse::<u16>().unwrap_or(0)
}

// The view of this name.
pub(crate) fn view_at(words: &[&str], place: usize) -> View {
    parse_view(at(words, place).as_bytes()).unwrap_or(View::InPre)
}

// The peer of a number N: N-000000000000000N-192.0.2.1.
pub(crate) fn peer_of(number: u8) -> PeerKey {
    PeerKey {
        kind: number,
        distinguisher: number as u64,
        address: Addr::v4([192, 0, 2, 1]),
    }
}

pub(crate) fn peer_at(words: &[&str], place: usize) -> PeerKey {
    peer_of(octet_at(words, place))
}
