//! What archives, and what a crash leaves of them, have to do with one another.
ghost use Rattle.std.specs.Prelude.{◌≡◌, List, ℕ, Result};
ghost use Rattle.feed_archive.specs.Archive.{IsArchive, HasContent};
ghost use Rattle.feed_archive.specs.Recovering.{Holds, Recovers, RecoversOnly};
ghost use Rattle.feed_archive.specs.declared.fault.RecoverFault.{RecoverFault};

/// A file has at most one content, and at most one byte that closes it as an archive.
pub fn one_content()
    ensures content { (file v w : List ℕ) → HasContent file v → HasContent file w → v ≡ w }
    ensures place { (file : List ℕ) (v w : List (List ℕ)) (m n : ℕ) → IsArchive file v m → IsArchive file w n → (v ≡ w) × (m ≡ n) }
{}

/// What recovering may answer of a file that a crash left, where each such file holds one content: that content, or that
/// the disk failed or memory ran out, and never that the file is no archive.
pub fn recovery_gives_the_content()
    ensures { (file content : List ℕ) (answer : Result (List ℕ) RecoverFault) → Holds file content → Recovers file answer → RecoversOnly content answer }
{}
