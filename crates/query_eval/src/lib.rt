//! Replies: what our query language is answered on a cut of all lanes.
//!
//! A query asks for rows of the tables of the routers (`query_lang`), and its reply is the revision of the
//! cut, a line for each row, lane after lane, and the number of rows. Rows may be asked for by what the path
//! attributes of their routes have. Before the rows of each lane the number of its steps may be asked for, and
//! all steps that a lane keeps may be asked for too. With `full`, rows and changes are told with all path
//! attributes, and routers with all that their last connections told. A reply takes no memory and no lock.
//!
//! Proved: `answer` writes the reply on every history that the cut stands for, or a front of it where a
//! write failed. `put_told_within` writes the rows that `within P` asks of a lane, each by a line of the
//! caller's own.
//! Begin with `specs/QueryReply.antt` of `bmp_specs` and `specs/AskReply.antt` of `ask_specs`, which have the
//! replies by the entries of each lane, then `specs/Puts.antt`, `specs/Replies.antt` and `src/reply.rt`.
#![tactic(auto)]

mod asks;
mod batch;
mod changes;
mod count;
mod front;
mod full_marks;
mod full_routers;
mod kept;
mod lanes;
mod longest;
mod marks;
mod origin;
mod pairs;
mod parts;
mod peers;
mod reply;
mod routers;
mod run;
mod run_rows;
mod selection;
mod sifted;
mod stats;
mod steps;
mod tables;
mod tells;
mod traits;

pub use parts::put_told_within;
pub use reply::answer;
pub use tells::{Found, TellsRow, TellsTable};
