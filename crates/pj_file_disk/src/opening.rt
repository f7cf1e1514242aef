//! The opening of a file that is to be a disk.
ghost use Rattle.std.specs.Prelude.{◌≡◌, IfOk};
ghost use Rattle.pj_file_disk.specs.declared.file_disk.FileDisk.{FileDisk};

use crate::file_disk::FileDisk;
use std::fs::{self, File, OpenOptions, TryLockError};
use std::io::{self, ErrorKind};
use std::path::Path;

/// Why a file was not opened to be a disk.
#[derive(Clone, Copy, Debug, PartialEq, Eq)]
pub enum FileRefusal {
    /// It is a folder, a device, a FIFO or another thing that is no regular file.
    NotRegular,
    /// Another process has it open so.
    Locked,
    /// It could not be looked at, made, opened, locked, or written into its folder.
    Failed,
}

/// Opens a regular file, or makes one of no bytes, and locks it against others who lock it too. Where it was made, its folder
/// is synced, so that it outlasts a crash. A file that is there is not changed.
///
/// # Errors
/// `NotRegular`, `Locked` or `Failed`, as they say. A file that was made stays.
pub fn open_file_disk(rt: &HostRuntime, path: &str) -> Result<FileDisk, FileRefusal>
    ensures { IfOk result (λ disk. disk.faults ≡ 0) }
{
    let file = match fs::metadata(rt, path) {
        // To open a FIFO or a device may wait, or do something.
        Ok(found) if !found.is_file() => return Err(FileRefusal::NotRegular),
        Ok(_) => opened(rt, path),
        Err(e) if e.kind() == ErrorKind::NotFound => made(rt, path),
        Err(e) => Err(e),
    };
    let Ok(file) = file else {
        return Err(FileRefusal::Failed);
    };
    // It may have become another one since the look.
    match file.metadata() {
        Ok(found) if found.is_file() => {}
        Ok(_) => return Err(FileRefusal::NotRegular),
        Err(_) => return Err(FileRefusal::Failed),
    }
    match file.try_lock() {
        Ok(()) => Ok(FileDisk::over(file)),
        Err(TryLockError::WouldBlock) => Err(FileRefusal::Locked),
        Err(TryLockError::Error(_)) => Err(FileRefusal::Failed),
    }
}

/// Opens the file that is there.
fn opened(rt: &HostRuntime, path: &str) -> io::Result<File> {
    let mut options = OpenOptions::new();
    options.read(true).write(true);
    options.open(rt, path)
}

/// Makes the file, and sees that its folder has it.
fn made(rt: &HostRuntime, path: &str) -> io::Result<File> {
    let mut options = OpenOptions::new();
    options.read(true).write(true).create_new(true);
    let file = options.open(rt, path)?;
    let folder = match Path::new(path).parent() {
        Some(folder) if folder.as_str() != "" => folder,
        _ => Path::new("."),
    };
    File::open(rt, folder)?.sync_all()?;
    Ok(file)
}
