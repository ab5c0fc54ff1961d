//! The file that a text denotes, in the place of another or as a new one.
use binaryfile::{Feed, Sink};
use engine_rules::ProgFault;
use itch_commands::{Ended, Stop, ended, open};
use itch_engine::asm_run;
use named_files::{Failure, Named, Replacement, is_same_file};
use std::alloc::Global;
use std::fs::Files;
use std::io::{Read, Write};
use std::rt::Runtime;

// Makes the bytes that a text denotes.
fn assemble_to<'a, T: AllocGlobal, R: Read, W: Write>(
    rt: &T,
    input: &mut Named<'a, R>,
    output: &mut Named<'a, W>,
) -> Ended<'a> {
    let (mut feed, mut sink) = (Feed::new(&mut *input), Sink::new(&mut *output));
    let run = asm_run(rt.alloc(), &mut feed, &mut sink);
    ended(run, input, output)
}

// Gives a file that was made of a text its name, or takes it away where the text is faulty.
fn settle<'a, R: Files>(
    assembled: Ended<'a>,
    replacement: Replacement<'_, R, Global>,
    out: &'a str,
) -> Ended<'a> {
    if assembled.is_err() {
        replacement.discard();
        return assembled;
    }
    match replacement.finish() {
        Ok(()) => assembled,
        Err(error) => Err(Stop::Fault(ProgFault::Write.into(), Some(Failure::new(out, error)))),
    }
}

// Makes the file that a text denotes in the place of another.
fn replace<'a, T: AllocGlobal, F: Files, R: Read>(
    rt: &T,
    input: &mut Named<'a, R>,
    replacement: Replacement<'_, F, Global>,
    out: &'a str,
) -> Ended<'a> {
    let mut output = Named::new(out, replacement);
    let assembled = assemble_to(rt, input, &mut output);
    settle(assembled, output.into_inner(), out)
}

/// Makes the file that a text denotes. Where the text is faulty, the path of the output is not touched.
pub fn assemble<'a, R: Runtime + AllocGlobal>(rt: &R, text: &'a str, out: &'a str) -> Ended<'a> {
    let mut input = open(rt, text)?;
    if is_same_file(rt, text, out) {
        return Err(Stop::Misuse("TEXT and OUT are the same file"));
    }
    match Replacement::new(rt, rt.alloc(), out) {
        Ok(replacement) => replace(rt, &mut input, replacement, out),
        Err(_) => Err(Stop::Fault(ProgFault::Memory.into(), None)),
    }
}
