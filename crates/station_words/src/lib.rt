//! The words that the program is called with: which command they are and what it is asked for, or that they are none.
//!
//! `read_words` makes a `Call` of them: a command with what it asks for, `--help` or `--version`, and whether bodies are read
//! leniently. What stands after `serve` are options, in any order and form, which `clap` takes apart; after `replay` it is a
//! line of the query language (`query_lang`), after `drill` three numbers. The file of a call stays a word, which
//! `file_word` finds. `help` and `version` are the texts of `--help` and `--version`. `why_no_command` names what is wrong
//! with words that are no call, in a `Complaint`, which says itself in a line. `behind_check` finds the words that are only to be
//! checked.
//!
//! Proved: `read_words` answers the call that the words are, and `Usage` only where they are no call; it answers
//! `NoMemory` only where they begin with `replay`, `serve` or `recall`. `file_word` finds the word at the place of a call's
//! file, and each text is the one of `specs/Explain.antt`, byte by byte. What a complaint says of the words is so, and is of
//! the first fault from the left; no call has one, and words that are no call have one, unless they are to be joined and memory
//! was wanting; its line is tested alone. Words of `serve` that were a call while five of its options had to be given are the
//! same call, and the words of a query ask for that query.
//! Begin with `specs/Words.antt`, `specs/ServeWords.antt` and `specs/DrillWords.antt`, then `src/words.rt`, and with
//! `specs/Complaints.antt` for `src/complaint.rt`. What `clap` is told of the options, and what it finds, is in
//! `src/serve_words.rt` and `specs/ServeOptions.antt`.
#![tactic(auto)]

mod allowed_words;
mod complaint;
mod complaint_text;
mod drill_words;
mod explain;
mod laws;
mod serve_options;
mod serve_ports;
mod serve_words;
mod words;

pub use complaint::{Complaint, why_no_command};
pub use complaint_text::Shown;
pub use drill_words::DrillWords;
pub use explain::{help, version};
pub use laws::{
    checks_are_no_call, complaints_are_of_no_call, old_words_keep_their_meaning,
    queries_keep_their_meaning,
};
pub use serve_options::ServeOption;
pub use serve_words::ServeWords;
pub use words::{Call, Command, WordsFault, behind_check, file_word, read_words};
