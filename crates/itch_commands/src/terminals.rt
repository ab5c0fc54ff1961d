//! Which streams of the program are terminals, and what is said only there.
use named_files::is_gzip;
use std::fs;
use std::io::Read;
use std::rt::Runtime;

/// Whether standard input and standard error are terminals.
#[derive(Clone, Copy, Default)]
pub struct Terminals {
    pub input: bool,
    pub errors: bool,
}

// Whether the file at a path is a regular one that gzip has made.
fn is_compressed<R: Runtime>(rt: &R, path: &str) -> bool {
    let Ok(metadata) = fs::metadata(rt, path) else {
        return false;
    };
    let mut beginning = [0; 3];
    metadata.is_file()
        && match fs::open(rt, path) {
            Ok(mut file) => file.read_exact(&mut beginning).is_ok() && is_gzip(&beginning),
            Err(_) => false,
        }
}

impl Terminals {
    /// Says how a file is read that gzip has made, where it is one, since its bytes are taken for those of a day. A line
    /// that can't be printed is left out.
    pub fn tell_compressed<R: Runtime>(self, rt: &R, path: &str) {
        if self.errors && is_compressed(rt, path) {
            let _ = eprintln!(rt;
                "itch: {path} is compressed by gzip: unpack it, or pipe it in: gunzip -c '{path}' | itch .. /dev/stdin"
            );
        }
    }

    /// Says what a program without words waits for.
    pub fn ask_for_digits(self, rt: &impl Eprint) {
        if self.input && self.errors {
            let _ = eprintln!(rt;
                "itch: waiting for a day in hexadecimal digits, up to Ctrl-D; itch --help lists commands"
            );
        }
    }
}
