//! What is said of a reader or a writer that fails, and of a compressed file.
use named_files::{Failure, Named, is_gzip};
use std::fs;
use std::io::{self, ErrorKind, Read, Write};
use std::test::Fail;

// A reader that gives two bytes, then fails, and then goes on.
#[derive(Drop)]
struct Third(u8);

impl Read for Third {
    fn read(&mut self, buffer: &mut [u8]) -> io::Result<usize> {
        self.0 = self.0.wrapping_add(1);
        if self.0 == 3 {
            return Err(io::Error::from(ErrorKind::PermissionDenied));
        }
        match buffer.first_mut() {
            Some(first) => {
                *first = self.0;
                Ok(1)
            }
            None => Ok(0),
        }
    }
}

#[test]
fn a_reader_says_why_it_failed(rt: HostRuntime) -> Result<(), Fail> {
    let mut reader = Named::new("a day", Third(0));
    let mut buffer = [0; 4];
    assert_eq!(rt; reader.read(&mut buffer)?, 1);
    assert_eq!(rt; reader.read(&mut buffer)?, 1);
    assert_eq!(rt; buffer[0], 2);
    assert!(rt; reader.failure().is_none());
    assert!(rt; reader.read(&mut buffer).is_err());
    assert_eq!(rt; reader.read(&mut buffer)?, 1);
    let Some(failure) = reader.failure() else {
        return Err(Fail::new("no failure"));
    };
    assert_eq!(rt;
        failure.to_string(rt.alloc())?.as_str(),
        "a day: permission denied"
    );
    Ok(())
}

#[test]
fn a_writer_says_why_it_failed(rt: HostRuntime) -> Result<(), Fail> {
    let mut full = [0; 2];
    let mut writer = Named::new("some room", full.as_mut_slice());
    assert_eq!(rt; writer.write(b"abc")?, 2);
    assert!(rt; writer.failure().is_none());
    let mut device = Named::new("/dev/full", fs::create(&rt, "/dev/full")?);
    assert!(rt; device.write(b"a").is_err());
    let Some(failure) = device.failure() else {
        return Err(Fail::new("no failure"));
    };
    let said = failure.to_string(rt.alloc())?;
    assert_eq!(rt;
        said.as_str(),
        "/dev/full: No space left on device (os error 28)"
    );
    Ok(())
}

#[test]
fn a_file_that_is_not_there_is_named(rt: HostRuntime) -> Result<(), Fail> {
    let Err(error) = fs::open(&rt, "missing.itch") else {
        return Err(Fail::new("a missing file is there"));
    };
    let said = Failure::new("missing.itch", error).to_string(rt.alloc())?;
    assert_eq!(rt;
        said.as_str(),
        "missing.itch: No such file or directory (os error 2)"
    );
    Ok(())
}

#[test]
fn a_compressed_file_is_known_by_three_bytes(rt: HostRuntime) {
    for (bytes, wanted) in [
        (b"\x1f\x8b\x08\x00".as_slice(), true),
        (b"\x1f\x8b\x08".as_slice(), true),
        (b"\x1f\x8b".as_slice(), false),
        (b"\x1f\x8b\x00".as_slice(), false),
        (b"\x00\x0cS".as_slice(), false),
        (b"".as_slice(), false),
    ] {
        assert_eq!(rt; is_gzip(bytes), wanted, "at {bytes:?}");
    }
}
