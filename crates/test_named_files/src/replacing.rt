//! Files that are replaced: by a whole new one, or not at all.
use crate::faulty::{Calls, Faulty};
use named_files::{Replacement, is_same_file};
use std::alloc::{AllocError, Allocator, Global};
use std::fs::{self, Files, Permissions};
use std::io::{self, ErrorKind, Write};
use std::os::unix::fs::{MetadataExt, PermissionsExt, symlink};
use std::test::Fail;

/// What is there before, and what is written.
pub const OLD: &[u8] = b"what was there, which is longer";

pub const NEW: &[u8] = b"what is written";

/// What became of a replacement.
#[derive(Debug, Clone, Copy, PartialEq, Eq)]
pub enum Replaced {
    Whole,
    Failed,
    RefusedMemory,
}

// Writes to a replacement in two writes.
fn write<R: Files, A: Allocator + Copy>(output: &mut Replacement<'_, R, A>) -> io::Result<()> {
    let (first, second) = NEW.split_at(4);
    output.write_all(first)?;
    output.write_all(second)
}

/// Replaces a file, and gives up at the first call that fails.
pub fn replace<R: Files + Drop, A: Allocator + Copy + Drop>(
    files: &R,
    alloc: A,
    path: &str,
) -> Replaced {
    let mut output = match Replacement::new(files, alloc, path) {
        Ok(output) => output,
        Err(AllocError) => return Replaced::RefusedMemory,
    };
    if write(&mut output).is_err() {
        output.discard();
        return Replaced::Failed;
    }
    match output.finish() {
        Ok(()) => Replaced::Whole,
        Err(_) => Replaced::Failed,
    }
}

/// Fails where a file doesn't hold these bytes, or has a file of an unfinished replacement beside it.
pub fn expect_file(rt: &HostRuntime, path: &str, wanted: &[u8]) -> Result<(), Fail> {
    let found = fs::read(rt, path)?;
    if found.as_slice() != wanted {
        return Err(Fail::new(format_args!("{path} holds {found:?}")));
    }
    expect_alone(rt, path)
}

/// Fails where a file of an unfinished replacement stands beside a path.
pub fn expect_alone(rt: &HostRuntime, path: &str) -> Result<(), Fail> {
    for digit in 0..10u8 {
        let part = format!(in rt.alloc(); "{path}.part-{digit}")?;
        if fs::exists(rt, part.as_str())? {
            return Err(Fail::new(format_args!("{part} is left")));
        }
    }
    Ok(())
}

#[test]
fn a_file_is_made_or_replaced(rt: HostRuntime) -> Result<(), Fail> {
    let path = "made-or-replaced";
    assert_eq!(rt; replace(&rt, rt.alloc(), path), Replaced::Whole);
    expect_file(&rt, path, NEW)?;
    for mode in [0o600, 0o640, 0o666, 0o755] {
        fs::write(&rt, path, OLD)?;
        fs::set_permissions(&rt, path, Permissions::from_mode(mode))?;
        assert_eq!(rt; replace(&rt, rt.alloc(), path), Replaced::Whole);
        expect_file(&rt, path, NEW)?;
        assert_eq!(rt; fs::metadata(&rt, path)?.mode() & 0o7777, mode);
    }
    Ok(())
}

#[test]
fn nothing_written_leaves_an_empty_file(rt: HostRuntime) -> Result<(), Fail> {
    let path = "nothing-written";
    fs::write(&rt, path, OLD)?;
    Replacement::new(&rt, rt.alloc(), path)?.discard();
    expect_file(&rt, path, OLD)?;
    Replacement::new(&rt, rt.alloc(), path)?.finish()?;
    expect_file(&rt, path, b"")
}

#[test]
fn a_link_stays_and_what_it_points_at_is_replaced(rt: HostRuntime) -> Result<(), Fail> {
    fs::create_dir(&rt, "folder")?;
    fs::write(&rt, "folder/old", OLD)?;
    symlink(&rt, "folder/inner", "outer")?;
    symlink(&rt, "old", "folder/inner")?;
    assert_eq!(rt; replace(&rt, rt.alloc(), "outer"), Replaced::Whole);
    expect_file(&rt, "folder/old", NEW)?;
    assert!(rt; fs::symlink_metadata(&rt, "outer")?.is_symlink());
    assert!(rt; fs::symlink_metadata(&rt, "folder/inner")?.is_symlink());
    symlink(&rt, "folder/unmade", "to-unmade")?;
    assert_eq!(rt; replace(&rt, rt.alloc(), "to-unmade"), Replaced::Whole);
    expect_file(&rt, "folder/unmade", NEW)?;
    assert!(rt; fs::symlink_metadata(&rt, "to-unmade")?.is_symlink());
    symlink(&rt, "circle", "circle")?;
    assert_eq!(rt; replace(&rt, rt.alloc(), "circle"), Replaced::Failed);
    Ok(())
}

// A file that can't be written, one below a file, and a folder stay as they are.
#[test]
fn what_cannot_be_written_stays(rt: HostRuntime) -> Result<(), Fail> {
    fs::create_dir(&rt, "a-folder")?;
    for path in ["a-folder", "a-folder/", "missing/file", ""] {
        assert_eq!(rt;
            replace(&rt, rt.alloc(), path),
            Replaced::Failed,
            "at {path}"
        );
        expect_alone(&rt, path)?;
    }
    let path = "read-only";
    fs::write(&rt, path, OLD)?;
    fs::set_permissions(&rt, path, Permissions::from_mode(0o444))?;
    if fs::write(&rt, path, OLD).is_err() {
        assert_eq!(rt; replace(&rt, rt.alloc(), path), Replaced::Failed);
        expect_file(&rt, path, OLD)?;
    }
    Ok(())
}

// What killed runs have left is neither taken nor touched, and where no name is free the file is written itself.
#[test]
fn files_beside_are_left(rt: HostRuntime) -> Result<(), Fail> {
    let path = "beside";
    for digit in 0..10u8 {
        fs::write(&rt, path, OLD)?;
        let part = format!(in rt.alloc(); "{path}.part-{digit}")?;
        fs::write(&rt, part.as_str(), OLD)?;
        assert_eq!(rt; replace(&rt, rt.alloc(), path), Replaced::Whole);
        assert_eq!(rt; fs::read(&rt, path)?.as_slice(), NEW);
        assert_eq!(rt; fs::read(&rt, part.as_str())?.as_slice(), OLD);
    }
    Ok(())
}

// Replaces a file, or makes one, of whose calls the one with this number fails. Returns what became of it, and how many
// calls were made.
fn try_failing(
    rt: &HostRuntime,
    path: &str,
    old: Option<&[u8]>,
    failing: u64,
    kind: ErrorKind,
) -> Result<(Replaced, u64), Fail> {
    match old {
        Some(old) => fs::write(rt, path, old)?,
        None => {
            let _ = fs::remove_file(rt, path);
        }
    }
    let calls = Calls::new(failing, kind);
    let files = Faulty {
        files: rt,
        calls: &calls,
    };
    let replaced = replace(&files, rt.alloc(), path);
    match (replaced, old) {
        (Replaced::Whole, _) => expect_file(rt, path, NEW)?,
        (_, Some(old)) => expect_file(rt, path, old)?,
        (_, None) => {
            if fs::exists(rt, path)? {
                return Err(Fail::new(format_args!("a file after the failed call {failing}")));
            }
            expect_alone(rt, path)?;
        }
    }
    Ok((replaced, calls.made()))
}

#[test]
fn a_call_that_fails_leaves_all_or_nothing(rt: HostRuntime) -> Result<(), Fail> {
    for (path, old) in [("failing-old", Some(OLD)), ("failing-new", None)] {
        let (_, made) = try_failing(&rt, path, old, 0, ErrorKind::Other)?;
        assert!(rt; made >= 6, "a replacement of {path} made {made} calls");
        for failing in 1..=made {
            try_failing(&rt, path, old, failing, ErrorKind::Other)?;
        }
    }
    Ok(())
}

// Where a disk is full the file itself isn't written either. The first call asks whether the path is a link.
#[test]
fn a_full_disk_leaves_what_was_there(rt: HostRuntime) -> Result<(), Fail> {
    let (_, made) = try_failing(&rt, "full", Some(OLD), 0, ErrorKind::StorageFull)?;
    for kind in [ErrorKind::StorageFull, ErrorKind::QuotaExceeded] {
        for failing in 2..=made {
            let (replaced, _) = try_failing(&rt, "full", Some(OLD), failing, kind)?;
            assert_eq!(rt;
                replaced,
                Replaced::Failed,
                "after the failed call {failing}"
            );
        }
    }
    Ok(())
}

#[test]
fn one_file_is_known_by_its_names(rt: HostRuntime) -> Result<(), Fail> {
    fs::write(&rt, "one-file", OLD)?;
    fs::write(&rt, "another-file", OLD)?;
    fs::hard_link(&rt, "one-file", "hard")?;
    symlink(&rt, "one-file", "soft")?;
    for (one, other, wanted) in [
        ("one-file", "one-file", true),
        ("one-file", "./one-file", true),
        ("soft", "one-file", true),
        ("one-file", "hard", true),
        ("hard", "soft", true),
        ("one-file", "another-file", false),
        ("one-file", "no-file", false),
        ("no-file", "no-file", false),
        (".", ".", false),
        ("/dev/null", "/dev/null", false),
    ] {
        assert_eq!(rt; is_same_file(&rt, one, other), wanted, "{one} and {other}");
    }
    Ok(())
}
