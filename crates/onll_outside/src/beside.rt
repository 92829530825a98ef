//! Files of the system that are filled beside those that they replace, and then take their names.

use std::alloc::Global;
use std::fs::{OpenFile, OpenOptions, Permissions};
use std::io::ErrorKind;
use std::path::Path;
use std::rt::Files;
use std::{fs, io};

/// How many names are tried for a file beside another.
const BESIDE: u64 = 100;

/// Makes durable that a file of this name is in its folder.
pub fn sync_folder<R: Files>(files: &R, name: &str) -> io::Result<()> {
    match Path::new(name).parent() {
        Some(folder) if !folder.as_str().is_empty() => fs::open(files, folder)?.sync_all(),
        _ => fs::open(files, ".")?.sync_all(),
    }
}

/// An empty file in the folder of this one, and its name, which no other file had.
pub fn create_beside<R: Files>(
    files: &R,
    alloc: Global,
    name: &str,
) -> io::Result<(String, R::File)> {
    for number in 0..BESIDE {
        let beside = format!(in alloc; "{name}.new{number}")?;
        match fs::File::create_new(files, beside.as_str()) {
            Ok(file) => return Ok((beside, file)),
            Err(e) if e.kind() == ErrorKind::AlreadyExists => {}
            Err(e) => return Err(e),
        }
    }
    Err(io::Error::from(ErrorKind::AlreadyExists))
}

/// What was done to a file beside another; where that failed the file is removed, if it can be.
fn or_removed<R: Files>(files: &R, beside: &str, done: io::Result<()>) -> io::Result<()> {
    if done.is_err() {
        let _ = fs::remove_file(files, beside);
    }
    done
}

/// Gives a file beside that was filled so the name of the file that it replaces, durably. One that can't take it is removed.
pub fn take_name<R: Files>(
    files: &R,
    name: &str,
    beside: &str,
    filled: io::Result<()>,
) -> io::Result<()> {
    let mut moved = filled;
    if moved.is_ok() {
        moved = fs::rename(files, beside, name);
    }
    or_removed(files, beside, moved)?;
    sync_folder(files, name)
}

/// An empty file to be filled, and its name where it stands beside the one that it is to replace.
#[derive(Drop)]
pub struct Opened<F> {
    pub file: F,
    pub beside: Option<String>,
}

/// Whether a file that is written takes this name when it is whole: where there is none, or a regular one. A device, a pipe or a symbolic
/// link stays, and is written in place.
fn is_replaced<R: Files>(files: &R, name: &str) -> io::Result<bool> {
    match fs::symlink_metadata(files, name) {
        Ok(data) => Ok(data.is_file()),
        Err(e) if e.kind() == ErrorKind::NotFound => Ok(true),
        Err(e) => Err(e),
    }
}

/// Who may read and write the file of this name; `None` where there is none. One that may not be written here is refused.
fn permissions_of<R: Files>(files: &R, name: &str) -> io::Result<Option<Permissions>> {
    match OpenOptions::new().write(true).open(files, name) {
        Ok(old) => Ok(Some(old.metadata()?.permissions())),
        Err(e) if e.kind() == ErrorKind::NotFound => Ok(None),
        Err(e) => Err(e),
    }
}

/// Opens a file beside this one, which has its permissions.
fn open_beside<R: Files>(files: &R, alloc: Global, name: &str) -> io::Result<Opened<R::File>> {
    let permissions = permissions_of(files, name)?;
    let (beside, file) = create_beside(files, alloc, name)?;
    if let Some(permissions) = permissions {
        or_removed(files, beside.as_str(), file.set_permissions(permissions))?;
    }
    Ok(Opened {
        file,
        beside: Some(beside),
    })
}

/// Opens a file that is to be the one of this name, beside that one. One that is to be empty is that file itself, which is then as it was
/// or empty, whatever ends this.
pub fn open_to_fill<R: Files>(
    files: &R,
    alloc: Global,
    name: &str,
    empty: bool,
) -> io::Result<Opened<R::File>> {
    if !empty && is_replaced(files, name)? {
        return open_beside(files, alloc, name);
    }
    Ok(Opened {
        file: fs::create(files, name)?,
        beside: None,
    })
}

/// Makes a file that was filled so the one of this name, durably.
pub fn settle<R: Files>(
    files: &R,
    name: &str,
    beside: Option<String>,
    filled: io::Result<()>,
) -> io::Result<()> {
    match beside {
        Some(beside) => take_name(files, name, beside.as_str(), filled),
        None => {
            filled?;
            sync_folder(files, name)
        }
    }
}
