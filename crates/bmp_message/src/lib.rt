//! Messages: from the bytes of a stream to the entries of a lane's history.
//!
//! A `StreamWalk` takes a stream in whatever pieces it comes, and gives the entries of its messages and how
//! it ended. `bmp_frames` cuts the stream into frames for it, and a `BodyReading` gives a message's entry: its
//! type, its length and what it does to the tables. The one by the RFCs alone is `Reading`. It keeps the two
//! OPEN messages of each peer that is up, since the peer and they say how the UPDATE of a Route Monitoring
//! message is read (RFC 7854, sections 4.6 and 4.10; RFC 7911).
//!
//! Proved: `Reading::entry` gives the entry of the message that the frame is under the peers that are
//! up, and leaves those that are up after it. It answers `EntryFault::Broken` only where the body is in
//! no grammar, and a refusal leaves the peers as they were. The entries, the offset and the end that a
//! `StreamWalk` gives are those of the one walk of the bytes fed, by the meaning of bodies that its reading
//! has. `Reading::judge` and `Judgements` move alike and give no effects, for who wants types and lengths
//! alone; of an UPDATE they make nothing.
//!
//! `LenientReading` reads messages as routers send them, beside what the RFCs give a value: prefixes without
//! the path identifiers that were agreed on, AS numbers of two octets where the header says four, the routes
//! of a Loc-RIB that no Peer Up told of, and malformed attributes, whose routes it withdraws (RFC 7606). Its
//! calls have the same clauses by `specs/LenientBody.antt` of `bmp_specs`.
//!
//! Begin with `specs/MessageBody.antt` and `specs/MessageEffects.antt` of `bmp_specs`, then
//! `src/bodies.rt`, `src/reading.rt` and `src/walk.rt`; `src/dispatch.rt` goes by the type and the Per-Peer
//! Header for both readings, `src/routes.rt` and `src/events.rt` read what stands after the headers,
//! `src/in_forms.rt` an UPDATE in the form that fits, and `src/lenient.rt` keeps which did last.
#![tactic(auto)]

mod bodies;
mod dispatch;
mod effects;
mod events;
mod fault;
mod forms;
mod head;
mod in_forms;
mod lenient;
mod makes;
mod reading;
mod routes;
mod types;
mod walk;

pub use bodies::BodyReading;
pub use fault::EntryFault;
pub use lenient::LenientReading;
pub use reading::Reading;
pub use walk::{Entries, Judged, Judgements, Progress, Reads, StreamWalk};
