//! Files of the system, of whose calls one fails.
use std::alloc::Allocator;
use std::cell::Cell;
use std::fs::{Files, Metadata, OpenFile, OpenOptions, Permissions};
use std::io::{self, ErrorKind, Read, Seek, SeekFrom, Write};
use std::path::PathBuf;

/// How many calls were made, the number of the one that fails, counted from 1, and its error; none fails at 0.
#[derive(Drop)]
pub struct Calls {
    made: Cell<u64>,
    failing: u64,
    kind: ErrorKind,
}

impl Calls {
    pub fn new(failing: u64, kind: ErrorKind) -> Calls {
        Calls {
            made: Cell::new(0),
            failing,
            kind,
        }
    }

    pub fn made(&self) -> u64 {
        self.made.get()
    }

    // Counts a call, and fails where it is the one.
    fn count(&self) -> io::Result<()> {
        let made = self.made.get().wrapping_add(1);
        self.made.set(made);
        if made == self.failing {
            return Err(io::Error::from(self.kind));
        }
        Ok(())
    }
}

/// Files that pass on each call but the one that fails.
#[derive(Drop)]
pub struct Faulty<'a, R: Files> {
    pub files: &'a R,
    pub calls: &'a Calls,
}

/// A file of these.
#[derive(Drop)]
pub struct FaultyFile<'a, F> {
    file: F,
    calls: &'a Calls,
}

impl<'a, R: Files> Files for Faulty<'a, R> {
    type File = FaultyFile<'a, R::File>;

    type Dir = R::Dir;

    fn open_file(&self, how: &OpenOptions, path: &str) -> io::Result<FaultyFile<'a, R::File>> {
        self.calls.count()?;
        let file = self.files.open_file(how, path)?;
        Ok(FaultyFile {
            file,
            calls: self.calls,
        })
    }

    fn open_dir(&self, path: &str) -> io::Result<R::Dir> {
        self.calls.count()?;
        self.files.open_dir(path)
    }

    fn metadata(&self, path: &str) -> io::Result<Metadata> {
        self.calls.count()?;
        self.files.metadata(path)
    }

    fn symlink_metadata(&self, path: &str) -> io::Result<Metadata> {
        self.calls.count()?;
        self.files.symlink_metadata(path)
    }

    fn copy(&self, from: &str, to: &str) -> io::Result<u64> {
        self.calls.count()?;
        self.files.copy(from, to)
    }

    fn rename(&self, from: &str, to: &str) -> io::Result<()> {
        self.calls.count()?;
        self.files.rename(from, to)
    }

    fn remove_file(&self, path: &str) -> io::Result<()> {
        self.calls.count()?;
        self.files.remove_file(path)
    }

    fn create_dir(&self, path: &str) -> io::Result<()> {
        self.calls.count()?;
        self.files.create_dir(path)
    }

    fn remove_dir(&self, path: &str) -> io::Result<()> {
        self.calls.count()?;
        self.files.remove_dir(path)
    }

    fn remove_dir_all<B: Allocator>(&self, alloc: B, path: &str) -> io::Result<()> {
        self.calls.count()?;
        self.files.remove_dir_all(alloc, path)
    }

    fn read_link<B: Allocator>(&self, alloc: B, path: &str) -> io::Result<PathBuf<B>> {
        self.calls.count()?;
        self.files.read_link(alloc, path)
    }
}

impl<F: Read> Read for FaultyFile<'_, F> {
    fn read(&mut self, buffer: &mut [u8]) -> io::Result<usize> {
        self.calls.count()?;
        self.file.read(buffer)
    }
}

impl<F: Write> Write for FaultyFile<'_, F> {
    fn write(&mut self, bytes: &[u8]) -> io::Result<usize> {
        self.calls.count()?;
        self.file.write(bytes)
    }

    fn flush(&mut self) -> io::Result<()> {
        self.file.flush()
    }
}

impl<F: Seek> Seek for FaultyFile<'_, F> {
    fn seek(&mut self, to: SeekFrom) -> io::Result<u64> {
        self.calls.count()?;
        self.file.seek(to)
    }
}

impl<F: OpenFile> OpenFile for FaultyFile<'_, F> {
    fn metadata(&self) -> io::Result<Metadata> {
        self.calls.count()?;
        self.file.metadata()
    }

    fn set_len(&self, size: u64) -> io::Result<()> {
        self.calls.count()?;
        self.file.set_len(size)
    }

    fn sync_all(&self) -> io::Result<()> {
        self.calls.count()?;
        self.file.sync_all()
    }

    fn sync_data(&self) -> io::Result<()> {
        self.calls.count()?;
        self.file.sync_data()
    }

    fn set_permissions(&self, permissions: Permissions) -> io::Result<()> {
        self.calls.count()?;
        self.file.set_permissions(permissions)
    }
}
