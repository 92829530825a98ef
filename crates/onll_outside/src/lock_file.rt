//! The system's lock on a whole file, which one open of it has.

use std::fs::{File, OpenOptions, TryLockError};
use std::io;
use std::rt::Files;

/// An open file that can have its file to itself.
pub trait LockFile {
    /// Takes the system's exclusive lock on the file without waiting, and tells whether it was had: not where another
    /// open of the file has one, in this process or another. Closing this open gives it back.
    fn try_to_lock(&self) -> io::Result<bool>;
}

impl LockFile for File {
    fn try_to_lock(&self) -> io::Result<bool> {
        match self.try_lock() {
            Ok(()) => Ok(true),
            Err(TryLockError::WouldBlock) => Ok(false),
            Err(TryLockError::Error(e)) => Err(e),
        }
    }
}

/// Opens a file to be written and locks it; `None` where another open has it locked. It is made where it is not
/// there, and what it holds stays.
pub(crate) fn open_locked<R: Files>(files: &R, name: &str) -> io::Result<Option<R::File>>
where
    R::File: LockFile,
{
    let file = OpenOptions::new()
        .write(true)
        .create(true)
        .open(files, name)?;
    if file.try_to_lock()? {
        Ok(Some(file))
    } else {
        Ok(None)
    }
}
