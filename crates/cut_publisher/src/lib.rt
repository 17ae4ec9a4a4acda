//! Publications of many lanes in one history, and cuts of it that askers read without a lock.
//!
//! Each lane has a pass that publishes its entries with the value that stands for them, and each
//! asker has a pass that keeps a cut: one published state of all lanes at once. What an entry and
//! a value are is the caller's (`Subject`); nothing here knows a protocol.
//!
//! Proved: there is one history, to which `publish` appends a lane's entries in one step. Whenever
//! the lock is free, the cell that askers enter shows the cut of the whole history, and `name` gives
//! each asker its seat there. Each pass has seen a beginning of the history, which `snapshot` and
//! `learn` only lengthen, and the cut that it keeps stands for that beginning. After `finish` all
//! passes have seen the whole, which ends with its one mark, and each lane's part of it is what that
//! lane's pass published. `publish` and `finish` may wait, and what is said of them holds where they
//! return; `snapshot` and `learn` take no lock and always return.
//!
//! Begin with `specs/History.antt` and `specs/Cuts.antt`, which say what a history is and when a
//! cut stands for it, then `specs/Publication.antt` and `src/publication.rt`.
#![tactic(auto)]

mod ask;
mod cell;
mod cut;
mod desk;
mod ending;
mod feed;
mod history;
mod lists;
mod log;
mod memory;
mod naming;
mod note;
mod publication;
mod station;
mod subject;
mod turning;

pub use ask::{AskPass, learn, snapshot};
pub use cell::{CellWriter, Shown};
pub use cut::{Cut, CutLane};
pub use desk::{Opened, Publisher, Writes};
pub use ending::{Ending, Unfinished, finish};
pub use feed::FeedPass;
pub use history::{Event, Step};
pub use lists::{AskList, FeedList};
pub use memory::{NoMemory, Unplaced};
pub use naming::name;
pub use note::Note;
pub use publication::{Refused, publish, publish_unnoted};
pub use station::{Station, open_station};
pub use subject::{Naming, Subject};
