//! Connections of one lane, from ports in memory.

mod cuts;
mod shown;
mod watched;
mod worked;
