//! The calls that read and write messages, and the plain model. `messages/calls.rt` has their words.

mod addresses;
mod attributes;
mod calls;
mod code_tables;
mod drills;
mod forms;
mod frames;
mod heads;
mod lists;
mod model;
mod opens;
mod paths;
mod recent;
mod routes;
mod steps;
mod updates;
mod walks;
mod words;
mod written;

pub(crate) use calls::answer;
