//! The prompt of a session at a terminal.
use itch_commands::Terminals;
use std::io::{self, Read};

/// A reader that shows a prompt on standard error before each read, where standard input and standard error are
/// terminals, and ends the prompt's line at the end of the input. What can't be printed is left out.
#[derive(Drop)]
pub struct Prompting<'a, E: Eprint, R: Read> {
    rt: &'a E,
    reader: R,
    prompts: bool,
}

impl<'a, E: Eprint, R: Read> Prompting<'a, E, R> {
    /// A reader of what `reader` gives.
    pub fn new(rt: &'a E, reader: R, terminals: Terminals) -> Prompting<'a, E, R> {
        Prompting {
            rt,
            reader,
            prompts: terminals.input && terminals.errors,
        }
    }
}

impl<E: Eprint, R: Read> Read for Prompting<'_, E, R> {
    fn read(&mut self, buffer: &mut [u8]) -> io::Result<usize> {
        if self.prompts {
            let _ = eprint!(self.rt; "itch> ");
        }
        let result = self.reader.read(buffer);
        if self.prompts
            && let Ok(0) = result
        {
            let _ = eprintln!(self.rt; "");
        }
        result
    }
}
