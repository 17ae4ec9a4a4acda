//! Where connections, files and disks come from: ports and links, and the yards that hand them out.
//!
//! A port is the place of one router, a link the place of one client; each gives one connection after
//! another, and a link takes what is written to it. A yard hands them out by number and takes them back, does the same
//! with disks by path, and gives whole files by path. Each counts its faults, and answers `Failed` only where its
//! count rose by one in that call.
//!
//! `MemPort`, `MemLink` and `MemYard` hold everything in memory and tell it to contracts: the plan, each byte
//! that was given, how the last read went, what was written, what came back, the files and the disks. `SurePort` and
//! `SureLink` are of the same kind and never fail. `HostYard` is standard input, TCP and the files of the system, and
//! tells counts, and what its input tells. It says in `Lines` what comes and goes, for one thread to write.
//!
//! Begin with `specs/Doors.antt`, which says what each call does to what is told, then `src/doors.rt`.
#![tactic(auto)]

mod allowed;
mod connections;
mod counts;
mod doors;
mod ended;
mod files;
mod host;
mod host_fault;
mod host_link;
mod host_port;
mod line;
mod lines;
mod listening;
mod log;
mod mem_link;
mod mem_port;
mod mem_yard;
mod peer_change;
mod peer_lines;
mod share;
mod slots;
mod sockets;
mod sure_link;
mod sure_port;
mod told;

pub use allowed::{Allowed, MOST_ALLOWED};
pub use doors::{Link, Port, Yard};
pub use ended::Ended;
pub use files::FileFault;
pub use host::HostYard;
pub use host_fault::HostFault;
pub use host_link::HostLink;
pub use host_port::HostPort;
pub use lines::Lines;
pub use listening::{Listening, Log};
pub use mem_link::MemLink;
pub use mem_port::MemPort;
pub use mem_yard::{LinkList, MemYard, PortList};
pub use peer_change::PeerChange;
pub use sockets::MOST_PLACES;
pub use sure_link::SureLink;
pub use sure_port::SurePort;
pub use told::Told;
