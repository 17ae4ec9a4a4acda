//! The station itself: words and connections in, a reply and a status out.
//!
//! `station` is the top call: the program hands it its words, which `station_words` reads, the yard and standard output,
//! and ends with the status that it answers. It answers eight commands: `replay` with a line that asks, its reply on what a
//! router's stream leaves in its tables; `check`, how many messages of each type the stream has; `serve`, routers and
//! clients side by side (`station_run`); `drill`, lanes over streams that follow from a few numbers; `relay`, the BMP
//! stream that rebuilds what a router's stream leaves (`relay_out`); `rov`, what the VRPs of a file say of its routes
//! (`rov_table`, `rov_reply`); `archive`, the stream kept in a file piece by piece before it is read (`feed_archive`); and
//! `recall` with a file and a line that asks, its reply on the stream that the archive in the file keeps. All but `drill`
//! read streams by the RFCs alone, or with `--lenient` right after the command as routers send them; `drill` by the RFCs
//! alone.
//!
//! Proved: which status comes, by the words and by what a yard in memory tells; which bytes were written,
//! by the walk of the bytes that were taken, in whatever pieces they came and by the meaning of bodies that the
//! words ask for; that a write fault and a yard's
//! fault are answered exactly where one was counted; how many calls of the yard were made; and that the
//! port is given back as it is. Of `serve`: which words are its options, and what `station_run` promises of it.
//! Of `relay`: that the whole stream was written and is read back, or nothing, since it can't be written.
//! Of `rov`: that the file is asked for first, by the word that names it, and what is written where it has no VRPs.
//! Of `archive`: that a crash at any moment leaves what was kept, and how much that is.
//! Of `recall`: that the disk is given back as it was, that the reply is on the archive's content, or why there is none, and
//! that no port is asked for.
//! Of `drill`: which words are its numbers, that the yard is asked for nothing, and that the bytes are the replies on
//! what each lane makes of its stream.
//! Begin with `specs/Station.antt`, then `src/alone.rt` and `src/top.rt`.
#![tactic(auto)]

mod account;
mod alone;
mod archive;
mod counts;
mod drill;
mod law;
mod recall;
mod replay;
mod rov;
mod status;
mod take;
mod top;
mod waiting;

pub use alone::answer_alone;
pub use law::{drills_have_one_text, queries_keep_their_replies};
pub use station_words::{
    Call, Command, Complaint, DrillWords, ServeWords, Shown, WordsFault, behind_check, file_word,
    read_words, why_no_command,
};
pub use status::Status;
pub use top::station;
pub use waiting::Waiting;
