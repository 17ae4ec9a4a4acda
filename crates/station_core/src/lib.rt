//! A model that tests run and no program uses: lanes and askers as one machine, with every order of their events, on one
//! thread.
//!
//! A lane serves one connection of its router after another (RFC 7854, section 3.2), and an asker asks. On
//! running threads their events come in some order; here the order is given, as a schedule. A connection begins, gives
//! bytes and ends; what is due of a lane (its openings, messages and closings) joins the one history of all lanes, step
//! by step; what an asker asks is answered on the whole history (`query_eval`).
//!
//! Proved: `run_schedule` writes the replies of the machine and answers its last revision, and the history has of each
//! lane the first of the entries that are due; after a fault a front of the replies was written. `schedules_grow` says
//! what follows for every schedule: histories only grow, so a reply is one on a front of the last history, and
//! no asker has seen less than before.
//! Begin with `specs/Machine.antt`, which has what each event does, then `specs/Schedule.antt` and `src/schedule.rt`.
#![tactic(auto)]

mod event;
mod lane;
mod laws;
mod machine;
mod schedule;

pub use event::Event;
pub use laws::schedules_grow;
pub use schedule::{ScheduleFault, run_schedule};
