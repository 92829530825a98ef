//! Files of whose calls one is to fail, with a note of each call.

use std::alloc::{AllocError, Allocator, Global};
use std::fs::{Metadata, OpenFile, OpenOptions, Permissions};
use std::io;
use std::io::{ErrorKind, Read, Seek, SeekFrom, Write};
use std::os::unix::fs::FileExt;
use std::rt::Files;
use std::sync::Arc;
use std::sync::atomic::{AtomicU64, Ordering};

/// A call that changes a file, its name or its permissions, or has it made durable. A folder is opened and made durable as a file is.
#[derive(Clone, Copy, Debug, PartialEq, Eq)]
pub(crate) enum Step {
    Open,
    Write,
    Cut,
    Sync,
    Rename,
    Remove,
    Permit,
}

/// The digit that stands for a call.
const fn digit(step: Step) -> u64 {
    match step {
        Step::Open => 1,
        Step::Write => 2,
        Step::Cut => 3,
        Step::Sync => 4,
        Step::Rename => 5,
        Step::Remove => 6,
        Step::Permit => 7,
    }
}

/// The calls that were made since it was started, and which of them fails.
#[derive(Drop)]
pub(crate) struct Calls {
    /// The digits of the calls, the last one lowest.
    made: AtomicU64,
    /// How many more calls succeed before the one that fails.
    before: AtomicU64,
}

impl Calls {
    /// No call fails.
    pub(crate) fn new(alloc: Global) -> Result<Arc<Calls, Global>, AllocError> {
        let calls = Calls {
            made: AtomicU64::new(0),
            before: AtomicU64::new(u64::MAX),
        };
        Ok(Arc::new(alloc, calls)?)
    }

    /// Begins anew: of the calls from now on this one, from 1, is to fail, and none where it is 0.
    pub(crate) fn start(&self, failing: u64) {
        self.made.store(0, Ordering::SeqCst);
        self.before.store(failing.wrapping_sub(1), Ordering::SeqCst);
    }

    /// The digits of the calls since it was started.
    pub(crate) fn made(&self) -> u64 {
        self.made.load(Ordering::SeqCst)
    }

    /// Notes a call, and fails where it is to.
    fn note(&self, step: Step) -> io::Result<()> {
        let made = self.made.load(Ordering::SeqCst);
        let with_this = made.wrapping_mul(10).wrapping_add(digit(step));
        self.made.store(with_this, Ordering::SeqCst);
        let before = self.before.load(Ordering::SeqCst);
        self.before.store(before.wrapping_sub(1), Ordering::SeqCst);
        if before == 0 {
            return Err(io::Error::from(ErrorKind::StorageFull));
        }
        Ok(())
    }
}

/// A file whose calls are noted.
#[derive(Drop)]
pub(crate) struct NotedFile<F> {
    file: F,
    calls: Arc<Calls, Global>,
}

impl<F: Read> Read for NotedFile<F> {
    fn read(&mut self, buf: &mut [u8]) -> io::Result<usize> {
        self.file.read(buf)
    }
}

impl<F: Write> Write for NotedFile<F> {
    fn write(&mut self, buf: &[u8]) -> io::Result<usize> {
        self.calls.note(Step::Write)?;
        self.file.write(buf)
    }

    fn flush(&mut self) -> io::Result<()> {
        self.file.flush()
    }
}

impl<F: Seek> Seek for NotedFile<F> {
    fn seek(&mut self, to: SeekFrom) -> io::Result<u64> {
        self.file.seek(to)
    }
}

impl<F: FileExt> FileExt for NotedFile<F> {
    fn read_at(&self, buf: &mut [u8], offset: u64) -> io::Result<usize> {
        self.file.read_at(buf, offset)
    }

    fn write_at(&self, buf: &[u8], offset: u64) -> io::Result<usize> {
        self.calls.note(Step::Write)?;
        self.file.write_at(buf, offset)
    }
}

impl<F: OpenFile> OpenFile for NotedFile<F> {
    fn metadata(&self) -> io::Result<Metadata> {
        self.file.metadata()
    }

    fn set_len(&self, size: u64) -> io::Result<()> {
        self.calls.note(Step::Cut)?;
        self.file.set_len(size)
    }

    fn sync_all(&self) -> io::Result<()> {
        self.calls.note(Step::Sync)?;
        self.file.sync_all()
    }

    fn sync_data(&self) -> io::Result<()> {
        self.calls.note(Step::Sync)?;
        self.file.sync_data()
    }

    fn set_permissions(&self, perm: Permissions) -> io::Result<()> {
        self.calls.note(Step::Permit)?;
        self.file.set_permissions(perm)
    }
}

/// Files whose calls are noted.
#[derive(Drop)]
pub(crate) struct NotedFiles<R: Files> {
    files: R,
    calls: Arc<Calls, Global>,
}

impl<R: Files + Drop> NotedFiles<R> {
    /// These files, whose calls are noted there.
    pub(crate) fn new(files: R, calls: &Arc<Calls, Global>) -> Result<NotedFiles<R>, AllocError> {
        let calls = Arc::try_clone(calls)?;
        Ok(NotedFiles { files, calls })
    }
}

impl<R: Files> Files for NotedFiles<R> {
    type File = NotedFile<R::File>;

    type Dir = R::Dir;

    fn open_file(&self, how: &OpenOptions, path: &str) -> io::Result<NotedFile<R::File>> {
        self.calls.note(Step::Open)?;
        let calls = Arc::try_clone(&self.calls)?;
        let file = self.files.open_file(how, path)?;
        Ok(NotedFile { file, calls })
    }

    fn open_dir(&self, path: &str) -> io::Result<R::Dir> {
        self.files.open_dir(path)
    }

    fn metadata(&self, path: &str) -> io::Result<Metadata> {
        self.files.metadata(path)
    }

    fn symlink_metadata(&self, path: &str) -> io::Result<Metadata> {
        self.files.symlink_metadata(path)
    }

    fn copy(&self, from: &str, to: &str) -> io::Result<u64> {
        self.files.copy(from, to)
    }

    fn rename(&self, from: &str, to: &str) -> io::Result<()> {
        self.calls.note(Step::Rename)?;
        self.files.rename(from, to)
    }

    fn remove_file(&self, path: &str) -> io::Result<()> {
        self.calls.note(Step::Remove)?;
        self.files.remove_file(path)
    }

    fn create_dir(&self, path: &str) -> io::Result<()> {
        self.files.create_dir(path)
    }

    fn remove_dir(&self, path: &str) -> io::Result<()> {
        self.files.remove_dir(path)
    }

    fn remove_dir_all<B: Allocator>(&self, alloc: B, path: &str) -> io::Result<()> {
        self.files.remove_dir_all(alloc, path)
    }
}
