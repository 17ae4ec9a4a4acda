ghost use Rattle.std.specs.Prelude.{◌≡◌, false, IfOk, OnOk};
ghost use Rattle.disk_doors.specs.Opening.{made_where_none, as_it_is};

use crate::{FileDisk, RawFile};
use std::fs::{File, Files, OpenOptions};
use std::io;

/// What opens the files of disks. Contracts see which of its calls were made of a file, and that no other call was made of
/// it since.
pub trait RawFiles {
    ghost use Rattle.std.specs.Prelude.{ℕ, List};
    ghost use Rattle.std.specs.declared.fs.options.OpenOptions.{OpenOptions};

    type File: RawFile + Drop;

    /// The file was opened so, at this path.
    ghost is_opened: { Self.File → OpenOptions → List ℕ → Type 0 };

    /// It is no folder and no device, and its lock was taken.
    ghost is_locked: { Self.File → Type 0 };

    /// Where it is empty, its name at this path was kept.
    ghost is_named: { Self.File → List ℕ → Type 0 };

    /// Opens the file of this path so.
    fn open_path(&self, how: &OpenOptions, path: &str) -> io::Result<Self::File>
        ensures { IfOk result (λ f. is_opened f how.now path.now) };

    /// Takes the file's lock. It fails where this is no file, or where another holds the lock.
    fn lock(&self, file: &Self::File) -> io::Result<()>
        ensures { OnOk result (is_locked file.now) };

    /// Syncs the folder of this path where the file is empty, so that a crash leaves its name.
    fn keep_name(&self, file: &Self::File, path: &str) -> io::Result<()>
        ensures { OnOk result (is_named file.now path.now) };
}

// How a file is opened that is made where there is none. What it holds stays.
fn making() -> OpenOptions
    ensures { result ≡ made_where_none }
{
    let mut options = finding();
    options.create(true);
    options
}

// How a file is opened that must be there. Nothing is made, and what it holds stays. It is opened for writing too: a folder
// is refused then, and a pipe that nobody writes isn't waited for.
fn finding() -> OpenOptions
    ensures { result ≡ as_it_is }
{
    let mut options = OpenOptions::new();
    options.read(true).write(true);
    options
}

/// A disk over the file of this path, which is made where there is none. It is locked, and an empty one is kept in its
/// folder, before this answers. No call was made of the disk, and none of the file since it was opened.
pub fn open_made<S: RawFiles>(files: &S, path: &str) -> io::Result<FileDisk<S::File>>
    ensures opened { IfOk result (λ d. S.is_opened d.file made_where_none path.now) }
    ensures locked { IfOk result (λ d. S.is_locked d.file) }
    ensures named { IfOk result (λ d. S.is_named d.file path.now) }
    ensures noted { IfOk result (λ d. d.opened ≡ made_where_none) }
    ensures fine { IfOk result (λ d. d.faults ≡ 0) }
    ensures whole { IfOk result (λ d. d.broken ≡ false) }
{
    let how = making();
    let file = files.open_path(&how, path)?;
    files.lock(&file)?;
    files.keep_name(&file, path)?;
    Ok(FileDisk::over(file, how))
}

/// A disk over the file of this path as it is. It fails where there is none, and makes nothing. The file is locked before
/// this answers. No call was made of the disk, and none of the file since it was opened.
pub fn open_there<S: RawFiles>(files: &S, path: &str) -> io::Result<FileDisk<S::File>>
    ensures opened { IfOk result (λ d. S.is_opened d.file as_it_is path.now) }
    ensures locked { IfOk result (λ d. S.is_locked d.file) }
    ensures noted { IfOk result (λ d. d.opened ≡ as_it_is) }
    ensures fine { IfOk result (λ d. d.faults ≡ 0) }
    ensures whole { IfOk result (λ d. d.broken ≡ false) }
{
    let how = finding();
    let file = files.open_path(&how, path)?;
    files.lock(&file)?;
    Ok(FileDisk::over(file, how))
}

// The folder that the path stands in.
fn folder(path: &str) -> &str {
    match path.rsplit_once('/') {
        Some(("", _)) => "/",
        Some((folder, _)) => folder,
        None => ".",
    }
}

/// The files of the system. Contracts see nothing of what their calls do.
#[derive(Drop)]
pub(crate) struct SystemFiles<'a, R> {
    pub(crate) files: &'a R,
}

impl<R: Files<File = File>> RawFiles for SystemFiles<'_, R> {
    ghost use Rattle.std.specs.Prelude.{⊤};

    type File = File;

    ghost is_opened = { λ _ _ _. ⊤ };

    ghost is_locked = { λ _. ⊤ };

    ghost is_named = { λ _ _. ⊤ };

    fn open_path(&self, how: &OpenOptions, path: &str) -> io::Result<File> {
        how.open(self.files, path)
    }

    fn lock(&self, file: &File) -> io::Result<()> {
        if !file.metadata()?.is_file() {
            return Err(io::ErrorKind::InvalidInput.into());
        }
        if file.try_lock().is_err() {
            return Err(io::ErrorKind::WouldBlock.into());
        }
        Ok(())
    }

    fn keep_name(&self, file: &File, path: &str) -> io::Result<()> {
        if file.metadata()?.len() == 0 {
            let parent = OpenOptions::new()
                .read(true)
                .open(self.files, folder(path))?;
            parent.sync_all()?;
        }
        Ok(())
    }
}
