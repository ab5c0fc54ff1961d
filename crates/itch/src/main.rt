//! The program `itch`: what its arguments ask for, and the lines that it prints on standard error.
#![tactic(auto)]

mod assembling;
mod progress;
mod prompt;
mod replays;
mod sessions;

use assembling::assemble;
use clap::error::ErrorKind;
use engine_rules::{ProgFault, status};
use itch_arguments::Task;
use itch_commands::{Ended, Extent, Reading, Stop, Terminals, read, show, why};
use replays::{Replaying, replay, replay_digits, watch};
use sessions::debug;
use std::env;
use std::io::{self, IsTerminal};
use std::process::ExitCode;
use std::rt::Runtime;
use std::sync::Wait;
use std::thread::Threads;

/// The status for invalid arguments.
const MISUSE: u8 = 2;

/// The status where something can't be read or written.
const DEVICE: u8 = 3;

// Ends with the status for how a run ended, and says why on standard error where it stopped before its work was done. A line
// that can't be printed changes no status.
fn end(rt: &impl Eprint, terminals: Terminals, ended: Ended) -> ExitCode {
    let stop = match ended {
        Ok(refused) => return ExitCode::from(status(&Ok(refused))),
        Err(stop) => stop,
    };
    match stop {
        Stop::Misuse(why) => refuse(rt, why),
        Stop::Fault(fault, failure) => {
            let _ = eprintln!(rt; "itch: {fault}");
            if let Some(failure) = failure
                && terminals.errors
            {
                let _ = eprintln!(rt; "itch: {failure}");
            }
            ExitCode::from(fault.status())
        }
    }
}

// Prints help, or usage where the arguments are invalid, and ends with the status for that.
fn explain<R: Runtime>(rt: &R, error: &clap::Error) -> ExitCode {
    if let ErrorKind::OutOfMemory = error.kind() {
        return refuse_memory(rt);
    }
    match error.print(rt) {
        Ok(()) => ExitCode::from(itch_arguments::usage_status(error)),
        Err(_) => ExitCode::from(DEVICE),
    }
}

// Does what the arguments ask for.
fn run<R: Runtime + AllocGlobal + Threads + Wait + Sync>(
    rt: &R,
    arguments: &[String],
    terminals: Terminals,
) -> ExitCode
where
    R::File: Send,
{
    let matches = match itch_arguments::parse(rt.alloc(), arguments) {
        Ok(matches) => matches,
        Err(error) => return explain(rt, &error),
    };
    let ended = match itch_arguments::chosen_task(&matches) {
        Task::Replay {
            file,
            workers,
            progress,
        } => replay(rt, terminals, file, workers, Replaying::Report { progress }),
        Task::Summarize { file, workers } => replay(
            rt,
            terminals,
            file,
            workers,
            Replaying::Summary,
        ),
        Task::Disassemble { file } => read(rt, terminals, file, Reading::Text),
        Task::DisassembleBetween { file, first, last } => {
            read(rt, terminals, file, Reading::TextBetween { first, last })
        }
        Task::Stocks { file } => read(rt, terminals, file, Reading::Stocks),
        Task::Tops { file, stock, every } => {
            read(rt, terminals, file, Reading::Tops { stock, every })
        }
        Task::Show {
            file,
            stock,
            after,
            at,
        } => show(rt, terminals, file, stock, after, at),
        Task::Why { file, number } => why(rt, terminals, file, number),
        Task::Order {
            file,
            stock,
            reference,
        } => read(rt, terminals, file, Reading::Order { stock, reference }),
        Task::Trades { file, stock } => read(rt, terminals, file, Reading::Trades { stock }),
        Task::Trace {
            file,
            stock,
            depth,
            first,
            last,
        } => {
            let last = last.unwrap_or(u32::MAX);
            let extent = Extent { depth, first, last };
            read(rt, terminals, file, Reading::Trace { stock, extent })
        }
        Task::Watch {
            file,
            stock,
            workers,
        } => watch(rt, terminals, file, stock, workers),
        Task::Assemble { text, out } => assemble(rt, text, out),
        Task::Debug { file } => debug(rt, terminals, file),
        Task::ReplayDigits => replay_digits(rt, terminals),
    };
    end(rt, terminals, ended)
}

// Ends where the arguments are invalid, and says why on standard error.
fn refuse(rt: &impl Eprint, why: &str) -> ExitCode {
    match eprintln!(rt; "itch: {why}") {
        Ok(()) => ExitCode::from(MISUSE),
        Err(_) => ExitCode::from(DEVICE),
    }
}

// Ends where the arguments were refused memory.
fn refuse_memory(rt: &impl Eprint) -> ExitCode {
    let terminals = Terminals::default();
    end(
        rt,
        terminals,
        Err(Stop::Fault(ProgFault::Memory.into(), None)),
    )
}

// Ends where the arguments can't be taken: one of them isn't UTF-8, or memory was refused.
fn refuse_arguments(rt: &impl Eprint, error: io::Error) -> ExitCode {
    if error.kind() == io::ErrorKind::OutOfMemory {
        return refuse_memory(rt);
    }
    refuse(rt, "a word isn't UTF-8")
}

fn main(rt: HostRuntime) -> ExitCode {
    let arguments = match env::args(&rt) {
        Ok(arguments) => arguments,
        Err(error) => return refuse_arguments(&rt, error),
    };
    let terminals = Terminals {
        input: rt.stdin().is_terminal(),
        errors: rt.stderr().is_terminal(),
    };
    match arguments.collect::<Vec<String>>(rt.alloc()) {
        Ok(arguments) => run(&rt, &arguments, terminals),
        Err(_) => refuse_memory(&rt),
    }
}
