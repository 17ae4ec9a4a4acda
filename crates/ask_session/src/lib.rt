//! An asker's connections: lines of our query language in, replies out.
//!
//! A client sends lines (`query_lang`), and what each asks is answered (`query_eval`) from a snapshot of the published
//! history (`cut_publisher`) that is taken after the line was read. A line ends with a line feed, before which one
//! carriage return is no part of it. It takes no memory and no lock, and refuses nothing.
//!
//! Proved: `serve_session` writes to each connection the replies to its lines, in order, each on a front of one
//! history, at a revision that never falls. After `quit` or a line of more than 1,024 bytes no line is answered and
//! nothing more is read, as after a failed write; else all are answered until the input ended, 2^46 bytes were taken, or a
//! read failed. A client that keeps a copy of a lane's rows by these replies has an exact one at each of them, or knows that
//! it has none (`clients_keep_copies`, `copies_stay`).
//! Begin with `specs/Lines.antt`, `specs/Replies.antt` and `specs/Dialogue.antt`, which say what a dialogue is, then
//! `specs/Sessions.antt` and `src/session.rt`; `specs/Copies.antt` has the copies.
#![tactic(auto)]

mod close;
mod connection;
mod laws;
mod line;
mod reply;
mod session;

pub use close::Close;
pub use laws::{
    asks_get_their_replies, clients_keep_copies, copies_stay, links_tell_sessions,
    queries_keep_their_replies, replies_stay, turns_tell,
};
pub use session::serve_session;
