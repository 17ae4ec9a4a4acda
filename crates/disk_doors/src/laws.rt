//! What the images of a moment have to do with calls that a crash breaks off.
ghost use Rattle.std.specs.Prelude.{◌≡◌, ℕ, List, [], length, Result};
ghost use Rattle.wire_io.specs.declared.sink.Failed.{Failed};
ghost use Rattle.disk_doors.specs.Images.{Moment, MayLeave, IsTorn, AfterWrite};

/// What a crash inside a write leaves is among the images of the moment after the write, done or failed. The premise is
/// that the file as it read before is one that a crash may leave.
pub fn a_cut_write_leaves_an_image()
    ensures { (old new : Moment) (place : ℕ) (piece c : List ℕ) (r : Result (Unit {0}) Failed) → AfterWrite old place piece r new
        → MayLeave old.kept old.ranges old.file → IsTorn old.file place (length piece) c → MayLeave new.kept new.ranges c }
{}

/// That premise holds of each moment that writes and syncs reach from a file that was all kept: a write keeps it, and a
/// sync makes it so.
pub fn the_file_may_be_left()
    ensures write { (old new : Moment) (place : ℕ) (piece : List ℕ) (r : Result (Unit {0}) Failed) → AfterWrite old place piece r new
        → MayLeave old.kept old.ranges old.file → MayLeave new.kept new.ranges new.file }
    ensures sync { (file : List ℕ) → MayLeave file [] file }
{}
