//! A file that is replaced as a whole or not at all.
use std::alloc::{AllocError, Allocator};
use std::fs::{self, Files, Metadata, OpenFile, OpenOptions};
use std::io::{self, ErrorKind, Write};
use std::os::unix::fs::{MetadataExt, OpenOptionsExt};
use std::path::Path;

/// How many links are followed from a path, as Linux does.
const MOST_LINKS: u32 = 40;

/// What the name of a new file beside another ends with, but for the last byte, a digit.
const PART: &str = ".part-";

/// A writer to the file at a path. The first write, and nothing before it, touches the file.
///
/// Where the path leads to a regular file, or to none, the bytes go to a new file beside it, with the owner and the
/// permissions of the old one, and [`Replacement::finish`] gives it the old one's name. Where the path is a link, what
/// it points at is replaced. A device or a pipe is written itself; and so is a regular file where none can be made
/// beside it.
#[derive(Drop)]
pub struct Replacement<'a, R: Files, A: Allocator> {
    files: &'a R,
    path: &'a str,
    // What the path leads to, and the new file beside it.
    target: String<A>,
    part: String<A>,
    output: Option<Output<R::File>>,
}

// What the bytes go to: the new file beside the target, or what the path leads to itself.
#[derive(Drop)]
struct Output<F> {
    file: F,
    is_part: bool,
}

// What a path leads to, by links. Those of /proc and /dev, as /dev/stdout, stand for files that are open: they are left.
fn followed<R: Files, A: Allocator + Copy>(
    files: &R,
    alloc: A,
    path: &str,
) -> Result<String<A>, AllocError> {
    let mut target = String::from_str(alloc, path)?;
    for _ in 0..MOST_LINKS {
        let is_open_file = target.starts_with("/proc/") || target.starts_with("/dev/");
        if is_open_file || !is_link(files, target.as_str()) {
            break;
        }
        let link = match files.read_link(alloc, target.as_str()) {
            Ok(link) => link,
            Err(error) if error.kind() == ErrorKind::OutOfMemory => return Err(AllocError),
            Err(_) => break,
        };
        let next = match Path::new(target.as_str()).parent() {
            Some(folder) => folder.join(alloc, link.as_path())?,
            None => link,
        };
        target = String::from_str(alloc, next.as_str())?;
    }
    Ok(target)
}

fn is_link<R: Files>(files: &R, path: &str) -> bool {
    match files.symlink_metadata(path) {
        Ok(found) => found.is_symlink(),
        Err(_) => false,
    }
}

// Whether there is no room left.
fn is_full(error: &io::Error) -> bool {
    matches!(
        error.kind(),
        ErrorKind::StorageFull | ErrorKind::QuotaExceeded
    )
}

/// Whether two paths lead to one regular file.
pub fn is_same_file<R: Files>(files: &R, one: &str, other: &str) -> bool {
    match (fs::metadata(files, one), fs::metadata(files, other)) {
        (Ok(one), Ok(other)) => {
            one.is_file() && other.is_file() && one.dev() == other.dev() && one.ino() == other.ino()
        }
        _ => false,
    }
}

impl<'a, R: Files, A: Allocator + Copy> Replacement<'a, R, A> {
    /// A writer that has touched nothing yet.
    pub fn new(files: &'a R, alloc: A, path: &'a str) -> Result<Replacement<'a, R, A>, AllocError> {
        let target = followed(files, alloc, path)?;
        let mut part = String::from_str(alloc, target.as_str())?;
        part.push_str(PART)?;
        part.push('0')?;
        Ok(Replacement {
            files,
            path,
            target,
            part,
            output: None,
        })
    }

    // A new file beside the target, by the first of ten names that is free.
    fn create_part(&mut self, options: &OpenOptions) -> io::Result<R::File> {
        for digit in '0'..='9' {
            self.part.pop();
            self.part.push(digit)?;
            match options.open(self.files, self.part.as_str()) {
                Err(error) if error.kind() == ErrorKind::AlreadyExists => {}
                opened => return opened,
            }
        }
        Err(io::Error::from(ErrorKind::AlreadyExists))
    }

    // A new file beside a regular file that may be written, with its owner and permissions.
    fn create_like(&mut self, old: &Metadata) -> io::Result<R::File> {
        let mut options = OpenOptions::new();
        options.write(true).open(self.files, self.target.as_str())?;
        options.create_new(true).mode(0o600);
        let file = self.create_part(&options)?;
        match self.take_on(&file, old) {
            Ok(()) => Ok(file),
            Err(error) => {
                self.remove_part();
                Err(error)
            }
        }
    }

    // Gives a new file the owner and the permissions of the old one.
    fn take_on(&self, file: &R::File, old: &Metadata) -> io::Result<()> {
        let made = file.metadata()?;
        if made.uid() != old.uid() || made.gid() != old.gid() {
            self.files
                .chown(self.part.as_str(), Some(old.uid()), Some(old.gid()))?;
        }
        file.set_permissions(old.permissions())
    }

    // A new file beside the target, where the target is a regular file or isn't there.
    fn open_part(&mut self) -> io::Result<R::File> {
        match self.files.symlink_metadata(self.target.as_str()) {
            Ok(old) if old.is_file() => self.create_like(&old),
            Ok(_) => Err(io::Error::from(ErrorKind::InvalidInput)),
            Err(error) if error.kind() == ErrorKind::NotFound => {
                let mut options = OpenOptions::new();
                options.write(true).create_new(true);
                self.create_part(&options)
            }
            Err(error) => Err(error),
        }
    }

    // Opens what the bytes go to. A disk that has no room for a new file has none for the bytes.
    fn open(&mut self) -> io::Result<Output<R::File>> {
        match self.open_part() {
            Ok(file) => Ok(Output {
                file,
                is_part: true,
            }),
            Err(error) if is_full(&error) => Err(error),
            Err(_) => Ok(Output {
                file: fs::create(self.files, self.path)?,
                is_part: false,
            }),
        }
    }

    // Removes the new file. Where even that fails nothing can be done.
    fn remove_part(&self) {
        let _ = self.files.remove_file(self.part.as_str());
    }

    // Has the system write all of the new file, and gives it the name of the target.
    fn name_part(&self, file: &R::File) -> io::Result<()> {
        file.sync_all()?;
        self.files.rename(self.part.as_str(), self.target.as_str())
    }

    /// Ends the writing: what was written, or nothing, is now the whole file. On an error a regular file is as it was
    /// before, but for one beside which no file could be made.
    pub fn finish(mut self) -> io::Result<()> {
        let output = match self.output.take() {
            Some(output) => output,
            None => self.open()?,
        };
        if !output.is_part {
            return Ok(());
        }
        let named = self.name_part(&output.file);
        if named.is_err() {
            self.remove_part();
        }
        named
    }

    /// Ends the writing where not all was written. A regular file is as it was before, but for one beside which no file
    /// could be made.
    pub fn discard(mut self) {
        if let Some(output) = self.output.take()
            && output.is_part
        {
            self.remove_part();
        }
    }
}

impl<R: Files, A: Allocator + Copy> Write for Replacement<'_, R, A> {
    fn write(&mut self, bytes: &[u8]) -> io::Result<usize> {
        let mut output = match self.output.take() {
            Some(output) => output,
            None => self.open()?,
        };
        let written = output.file.write(bytes);
        self.output = Some(output);
        written
    }

    fn flush(&mut self) -> io::Result<()> {
        match &mut self.output {
            Some(output) => output.file.flush(),
            None => Ok(()),
        }
    }
}
