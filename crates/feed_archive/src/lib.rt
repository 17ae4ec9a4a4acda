//! Archives: what a station took of a router's stream, kept on a disk, so that a crash loses nothing that was told as
//! kept.
//!
//! An archive is a list of records and a byte other than 1, which closes it. A record is the byte 1, a length of four
//! bytes, and so many bytes. What follows the closing byte counts for nothing. An append writes a record over the
//! closing byte in two steps: everything after its first byte, with a new closing byte at the end, and a sync; then the
//! 1, and a sync. So a crash at any moment leaves the archive with the record or without it, and `append` answers Ok only
//! where every crash from then on leaves it with the record. No checksum is trusted.
//!
//! `create` makes an archive, `recover` reads one, `Archive` appends to one. `KeepPort` is a port over another, which
//! appends what it gives before it gives it. `KeepYard` is a yard whose ports are read in this way alone.
//!
//! Begin with `specs/Archive.antt`, which says what an archive is, `specs/Recovering.antt` and `specs/Appending.antt`;
//! then `src/archive.rt`. What a crash may leave is said in `disk_doors`.
#![tactic(auto)]

mod archive;
mod creating;
mod fault;
mod filling;
mod keep_yard;
mod keeping;
mod laws;
mod recovering;
mod scanning;
mod sealed_port;
mod window;

pub use archive::{Archive, BeginRefused};
pub use creating::create;
pub use fault::{AppendFault, CreateFault, RecoverFault};
pub use keep_yard::KeepYard;
pub use keeping::KeepPort;
pub use laws::{one_content, recovery_gives_the_content};
pub use recovering::recover;
pub use sealed_port::SealedPort;
