//! A disk: one file, which outlives a crash as far as it was synced.
//!
//! A file that is written can't be trusted until it is synced, and a crash in between may leave anything of
//! what was written. `Disk` says which files a crash may leave at each moment: the *images* of that moment. A
//! disk that tells shows contracts its moments, one for each write and each sync, so that a contract can speak
//! of all that a crash inside a call may leave. What is proved over any disk that tells holds of a real one as
//! far as that one is such a disk.
//!
//! `MemDisk` holds its file in memory and tells all. `FileDisk` is a disk over a file, by the calls of `RawFile`, and
//! tells what that tells; `HostDisk` is one over a file of the system, which tells nothing. `RawFiles` opens such files.
//! `put` is a write and a sync.
//!
//! Begin with `specs/Images.antt`, which says what a crash may leave, and `specs/Disk.antt`, which says what each
//! call does; then `src/disk.rt`, and `src/raw_file.rt` for what a file of the system is supposed to do.
#![tactic(auto)]

mod disk;
mod host_disk;
mod laws;
mod mem_disk;
mod notes;
mod opening;
mod putting;
mod raw_file;

pub use disk::Disk;
pub use host_disk::{FileDisk, HostDisk};
pub use laws::{a_cut_write_leaves_an_image, the_file_may_be_left};
pub use mem_disk::MemDisk;
pub use notes::Notes;
pub use opening::{RawFiles, open_made, open_there};
pub use putting::put;
pub use raw_file::RawFile;
