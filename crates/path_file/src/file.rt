//! Files of the operating system.
//!
//! No contract can say what a file gives or keeps, so those of [`Device`] say nothing of these: nothing is known of what a
//! [`FileDevice`] holds. That a file is as a device has to be is the premise under which a store keeps its lines.

ghost use Rattle.std.specs.Prelude.{◌≡◌, Some, IfErr};

use path_store::{Device, DeviceFault};
use std::alloc::Allocator;
use std::fs::{self, File, Files, OpenOptions, TryLockError};
use std::io::{self, ErrorKind, Write};
use std::os::unix::fs::FileExt;
use std::path::Path;
use thiserror::Error;

/// How many bytes are read at once.
const CHUNK: usize = 65536;

/// Why a file isn't opened.
#[derive(Debug, Drop, Error)]
pub enum FileFault {
    /// Another process, or another part of this one, has it open as a store.
    #[error("the file is in use")]
    InUse,
    /// It can't be opened, made, locked or synced.
    #[error("{0}")]
    Io(io::Error),
}

impl From<io::Error> for FileFault {
    fn from(error: io::Error) -> FileFault {
        FileFault::Io(error)
    }
}

/// A file of the operating system that is open and locked.
#[derive(Drop)]
pub struct FileDevice {
    file: File,
    /// How the last call that failed did so.
    fault: Option<DeviceFault>,
    /// Its error.
    error: Option<io::Error>,
}

impl FileDevice {
    /// Opens the file at a path, or makes an empty one, and locks it until this is dropped or the process ends, however it ends. The
    /// file and its entry in its folder are on the disk then; where the path is a symbolic link, the folder is that of the file.
    ///
    /// Fails with `InUse` if the file is locked, and with `Io` if it can't be opened for reading and writing, locked or synced.
    pub fn open<R: Files<File = File> + AllocGlobal>(
        rt: &R,
        path: &str,
    ) -> Result<FileDevice, FileFault> {
        let file = OpenOptions::new()
            .read(true)
            .append(true)
            .create(true)
            .open(rt, path)?;
        match file.try_lock() {
            Ok(()) => {}
            Err(TryLockError::WouldBlock) => return Err(FileFault::InUse),
            Err(TryLockError::Error(error)) => return Err(FileFault::Io(error)),
        }
        file.sync_all()?;
        sync_folder(rt, path)?;
        Ok(FileDevice {
            file,
            fault: None,
            error: None,
        })
    }

    /// The error of the last call that failed.
    pub fn error(&self) -> Option<io::Error> {
        self.error
    }

    // What a call answers whose result this is.
    fn given<T: Drop>(&mut self, outcome: io::Result<T>) -> Result<T, DeviceFault>
        ensures { IfErr result (λ fault. self.new.fault ≡ Some fault) }
    {
        match outcome {
            Ok(value) => Ok(value),
            Err(error) => {
                let fault = fault_of(error);
                self.fault = Some(fault);
                self.error = Some(error);
                Err(fault)
            }
        }
    }
}

// Writes the folder of this path to the disk.
fn sync_parent<R: Files<File = File>>(rt: &R, path: Path<'_>) -> io::Result<()> {
    let folder = match path.parent() {
        Some(folder) if !folder.as_str().is_empty() => folder,
        _ => Path::new("."),
    };
    File::open(rt, folder)?.sync_all()
}

// Writes the entry of the file in its folder to the disk. A link has an entry of its own, and its file another.
fn sync_folder<R: Files<File = File> + AllocGlobal>(rt: &R, path: &str) -> io::Result<()> {
    if fs::symlink_metadata(rt, path)?.is_symlink() {
        return sync_parent(rt, fs::canonicalize(rt, path)?.as_path());
    }
    sync_parent(rt, Path::new(path))
}

// The fault that an error is told as.
fn fault_of(error: io::Error) -> DeviceFault {
    match error.kind() {
        ErrorKind::OutOfMemory => DeviceFault::OutOfMemory,
        ErrorKind::StorageFull | ErrorKind::QuotaExceeded | ErrorKind::FileTooLarge =>
            DeviceFault::Full,
        _ => DeviceFault::Failed,
    }
}

// How many bytes a file has; 0 if that isn't known.
fn length_of(file: &File) -> usize {
    match file.metadata() {
        Ok(about) => usize::try_from(about.len()).unwrap_or(0),
        Err(_) => 0,
    }
}

// The first bytes of a file, so many, or all if there are fewer.
fn read_front<B: Allocator + Copy>(file: &File, alloc: B, size: usize) -> io::Result<Vec<u8, B>> {
    let mut chunk = vec![in alloc; 0u8; CHUNK.min(size)]?;
    let mut bytes = Vec::new(alloc);
    bytes.reserve(size.min(length_of(file)))?;
    for _ in 0..u64::MAX {
        let wanted = chunk.len().min(size.saturating_sub(bytes.len()));
        match file.read_at(&mut chunk[..wanted], bytes.len() as u64) {
            Ok(0) => break,
            Ok(count) => bytes.extend_from_slice(&chunk[..count])?,
            Err(error) if error.kind() == ErrorKind::Interrupted => {}
            Err(error) => return Err(error),
        }
    }
    Ok(bytes)
}

impl Device for FileDevice {
    ghost holds = { λ f b. ⊥ };

    ghost may_leave = { λ f c. Unit {0} };

    ghost moment = { λ f. 0 };

    ghost left_since = { λ f t c. Unit {0} };

    ghost fails_with = { λ f fault. f.fault ≡ Some fault };

    ghost counts_now = { λ f t c le now. tt };

    ghost only_now = { λ f c left. tt };

    fn read<B: Allocator + Copy>(&mut self, alloc: B) -> Result<Vec<u8, B>, DeviceFault> {
        let outcome = read_front(&self.file, alloc, usize::MAX);
        self.given(outcome)
    }

    fn front<B: Allocator + Copy>(
        &mut self,
        alloc: B,
        size: usize,
    ) -> Result<Vec<u8, B>, DeviceFault> {
        let outcome = read_front(&self.file, alloc, size);
        self.given(outcome)
    }

    fn append(&mut self, bytes: &[u8]) -> Result<(), DeviceFault> {
        let outcome = (&self.file).write_all(bytes);
        self.given(outcome)
    }

    fn cut(&mut self, size: usize) -> Result<(), DeviceFault> {
        let outcome = self.file.set_len(size as u64);
        self.given(outcome)
    }

    fn sync(&mut self) -> Result<(), DeviceFault> {
        let outcome = self.file.sync_data();
        self.given(outcome)
    }
}
