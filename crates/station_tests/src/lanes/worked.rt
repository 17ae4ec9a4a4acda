//! A worked session: its messages, and what the tables show after each.

use super::shown::{Shown, nothing};
use crate::streams::{
    END_OF_RIB, END_OF_RIB_OF_IPV6, INITIATION, PEER_DOWN, PEER_UP, ROUTE, ROUTE_OF_ANOTHER_ORIGIN,
    ROUTES, ROUTES_OF_IPV6, STATISTICS, TERMINATION, WITHDRAWAL, put,
};
use router_tables::LaneState;
use stats_book::Counts;
use std::alloc::Global;
use wire_io::ByteList;

// How many messages the session has, and how many bytes.
pub(crate) const MESSAGES: usize = 12;

pub(crate) const BYTES: u32 = 958;

// The messages.
const SESSION: [&str; MESSAGES] = [
    INITIATION,
    PEER_UP,
    ROUTES,
    ROUTE,
    ROUTE_OF_ANOTHER_ORIGIN,
    ROUTES_OF_IPV6,
    END_OF_RIB_OF_IPV6,
    END_OF_RIB,
    STATISTICS,
    WITHDRAWAL,
    PEER_DOWN,
    TERMINATION,
];

// The bytes of the session, and the offset after each message.
#[derive(Drop)]
pub(crate) struct Session {
    pub(crate) bytes: ByteList,
    pub(crate) ends: Vec<u64>,
}

pub(crate) fn worked_session(alloc: Global) -> Option<Session> {
    let mut bytes = ByteList::new(alloc);
    let mut ends = Vec::new(alloc);
    for message in SESSION {
        put(alloc, &mut bytes, message)?;
        ends.push(bytes.as_slice().len() as u64).ok()?;
    }
    Some(Session { bytes, ends })
}

// What the session told, without its counts, after so many of its messages.
fn told(messages: usize) -> Shown {
    let opened = nothing(LaneState::Live, 1);
    let texts = (4, 2);
    match messages {
        0 => opened,
        1 => Shown { texts, ..opened },
        11 | 12 => Shown {
            texts,
            steps: 10,
            ..opened
        },
        _ => {
            let (routes, steps) = match messages {
                2 => (0, 2),
                3 => (2, 4),
                4 => (3, 5),
                5 => (3, 6),
                10 => (4, 9),
                _ => (5, 8),
            };
            Shown {
                texts,
                is_up: true,
                is_complete: (messages >= 8, messages >= 7),
                routes,
                origin: match messages {
                    2 | 3 => None,
                    4 => Some(64500),
                    _ => Some(64501),
                },
                statistic: if messages >= 9 { Some(5) } else { None },
                steps,
                ..opened
            }
        }
    }
}

impl Session {
    // How many messages are whole with so many bytes.
    pub(crate) fn whole(&self, bytes: u64) -> usize {
        let mut whole = 0usize;
        for end in self.ends.iter() {
            if *end <= bytes {
                whole = whole.saturating_add(1);
            }
        }
        whole
    }

    // The offset after so many messages.
    pub(crate) fn end(&self, messages: usize) -> u64 {
        match messages.checked_sub(1) {
            Some(place) => self.ends.get(place).copied().unwrap_or(0),
            None => 0,
        }
    }

    // What the tables show after so many messages.
    pub(crate) fn shown(&self, messages: usize) -> Shown {
        Shown {
            counts: Counts {
                messages: messages as u64,
                bytes: self.end(messages),
                ..Counts::none()
            },
            ..told(messages)
        }
    }
}
