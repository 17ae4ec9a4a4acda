//! Tests of what serves routers and clients, from outside: lanes, the published history, sessions, the station with calls
//! that fail, and every order of events on one thread.
#![tactic(auto)]

#[cfg(test)]
mod archives;
#[cfg(test)]
mod lanes;
#[cfg(test)]
mod machine;
#[cfg(test)]
mod meeting;
#[cfg(test)]
mod opened;
#[cfg(test)]
mod publications;
#[cfg(test)]
mod relays;
#[cfg(test)]
mod sessions;
#[cfg(test)]
mod station;
#[cfg(test)]
mod streams;
#[cfg(test)]
mod words;
#[cfg(test)]
mod yards;
