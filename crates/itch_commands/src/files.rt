//! The files that the arguments name, and how a run over them ended.
use crate::stop::Stop;
use crate::terminals::Terminals;
use engine_rules::ProgFault;
use itch_readings::StockFault;
use named_files::{Failure, Named};
use std::rt::Runtime;
use std::{fs, io};

/// How a run ended: with the number of refused messages, or before its work was done.
pub type Ended<'a> = Result<u32, Stop<'a>>;

// Why a run stopped whose input and output are these: they know why they failed.
fn stopped<'a, D, W>(fault: StockFault, input: &Named<'a, D>, output: &Named<'a, W>) -> Stop<'a> {
    Stop::Fault(fault, input.failure().or(output.failure()))
}

/// How a run ended that refuses no messages, by its input and its output.
pub fn ended<'a, F: Into<StockFault>, D, W>(
    run: Result<(), F>,
    input: &Named<'a, D>,
    output: &Named<'a, W>,
) -> Ended<'a> {
    match run {
        Ok(()) => Ok(0),
        Err(fault) => Err(stopped(fault.into(), input, output)),
    }
}

/// How a replay ended, by its input and its output.
pub fn replayed<'a, D, W>(
    run: Result<u32, ProgFault>,
    input: &Named<'a, D>,
    output: &Named<'a, W>,
) -> Ended<'a> {
    match run {
        Ok(refused) => Ok(refused),
        Err(fault) => Err(stopped(fault.into(), input, output)),
    }
}

/// A file, to be read from its start.
pub fn open<'a, R: Runtime>(rt: &R, path: &'a str) -> Result<Named<'a, R::File>, Stop<'a>> {
    match fs::open(rt, path) {
        Ok(file) => Ok(Named::new(path, file)),
        Err(error) => {
            let failure = Failure::new(path, error);
            Err(Stop::Fault(ProgFault::Read.into(), Some(failure)))
        }
    }
}

/// A day file, to be read from its start. Where it is compressed, that is said at a terminal.
pub fn open_day<'a, R: Runtime>(
    rt: &R,
    terminals: Terminals,
    path: &'a str,
) -> Result<Named<'a, R::File>, Stop<'a>> {
    let day = open(rt, path)?;
    terminals.tell_compressed(rt, path);
    Ok(day)
}

/// Standard output, to be written.
pub fn standard_output<R: Print>(rt: &R) -> Named<'static, io::Printer<'_, R>> {
    Named::new("standard output", io::writer(rt))
}
