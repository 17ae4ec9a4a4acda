//! The calls on tables, queries, replies and VRPs. `tables/calls.rt` has their words.

mod asks;
mod calls;
mod connections;
mod entries;
mod lines;
mod origins;
mod peers;
mod queries;
mod route_tables;
mod routes;
mod sessions;
mod states;
mod statistics;
mod tries;
mod words;

pub(crate) use calls::answer;
