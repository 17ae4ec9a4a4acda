//! The work of a lane: the connections of one router, one after another, published read by read.
//!
//! A router's BMP session is a TCP connection (RFC 7854, section 3.2), and its messages come in pieces. A lane
//! publishes that a connection opened, then its messages, and then that it closed and why. All whole messages of one
//! read are published in one step with the tables that they leave (`router_tables`, `cut_publisher`), before more is
//! asked for. So what askers see lags by less than one read.
//!
//! Proved: `take_connection` publishes the opening, as the port tells it, and exactly the messages of the bytes that it
//! took, in order, and answers the cause of the connection's end; `close_connection` publishes that cause, and when, as the
//! port tells; `serve_feed` publishes the lives of all connections that it opened. All three are written over any
//! `FeedPort`, which gives bytes only where the messages of all earlier ones are published, and opens a connection only
//! where the closing of the last one is; `LanePort` makes one of any port, and `LaneYard` is a yard that hands out such
//! ports alone. Out of memory, the last connection's life was published up to its last read at least. Whatever front of the
//! history is seen, what is there of a lane are lives, of which the last may be open, so that a client can keep an exact
//! copy of its rows (`lanes_are_lives`, `lanes_keep_copies`).
//! Begin with `specs/Connection.antt`, `specs/Feed.antt` and `specs/FeedPort.antt`, then `src/connection.rt`.
#![tactic(auto)]

mod connection;
mod feed;
mod feed_port;
mod front;
mod lane_port;
mod lane_yard;
mod laws;
mod peers;
mod publishing;

pub use connection::{cause_of_end, close_connection, take_connection};
pub use feed::{LaneEnd, serve_feed};
pub use feed_port::FeedPort;
pub use lane_port::LanePort;
pub use lane_yard::LaneYard;
pub use laws::{
    few_lives_fit, few_rounds_fit, lanes_announce_of_up, lanes_are_lives, lanes_keep_copies,
    lanes_publish_plans, ports_tell_connections,
};
