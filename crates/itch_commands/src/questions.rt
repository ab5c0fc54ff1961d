//! Questions for which a file is read twice.
use crate::files::{Ended, ended, open, open_day, standard_output};
use crate::kept::Kept;
use crate::terminals::Terminals;
use binaryfile::{Feed, Sink};
use day_segments::SEGMENT_BYTES;
use engine_rules::limits::FILE_LIMITS;
use itch_readings::{StockFault, StockName};
use itch_show::{Place, read_up_to, show_run};
use itch_why::why_run;
use named_files::Named;
use std::alloc::Global;
use std::fs;
use std::io::{Read, Write};
use std::rt::Runtime;

/// What is asked of a file.
#[derive(Clone, Copy)]
pub enum Question {
    /// What a stock is at a place.
    Stock(StockName, Place),
    /// What became of a message, and why, by its number.
    Message(u32),
}

impl Question {
    // Up to where a file is read for it.
    fn place(&self) -> Place {
        match *self {
            Question::Stock(_, place) => place,
            Question::Message(number) => Place::After(number),
        }
    }

    // Writes the answer, of a file that both readers give.
    fn answer<R: Read, S: Read, W: Write>(
        &self,
        alloc: Global,
        feed: &mut Feed<R>,
        again: &mut Feed<S>,
        sink: &mut Sink<W>,
    ) -> Result<(), StockFault> {
        match *self {
            Question::Stock(name, place) => show_run(alloc, feed, again, sink, name, place),
            Question::Message(number) => why_run(alloc, feed, again, sink, number),
        }
    }
}

// Whether a path names a regular file, which gives the same bytes when it is opened again.
fn is_regular<R: Runtime>(rt: &R, path: &str) -> bool {
    match fs::metadata(rt, path) {
        Ok(metadata) => metadata.is_file(),
        Err(_) => false,
    }
}

// Answers a question of a file that can be opened again.
fn answer_of_file<'a, R: Runtime + AllocGlobal>(
    rt: &R,
    mut day: Named<'a, R::File>,
    path: &'a str,
    question: Question,
) -> Ended<'a> {
    let mut again = open(rt, path)?;
    let mut output = standard_output(rt);
    let run = question.answer(
        rt.alloc(),
        &mut Feed::new(&mut day),
        &mut Feed::new(&mut again),
        &mut Sink::new(&mut output),
    );
    let failed = if day.failure().is_some() { day } else { again };
    ended(run, &failed, &output)
}

// Answers a question of a pipe, whose messages up to the question's place are kept, since it can't be opened again.
fn answer_of_pipe<'a, R: Runtime + AllocGlobal>(
    rt: &R,
    mut day: Named<'a, R::File>,
    question: Question,
) -> Ended<'a> {
    let mut output = standard_output(rt);
    let mut kept = Kept::new(rt.alloc());
    let mut pipe = Feed::new(&mut day);
    let (place, alloc) = (question.place(), rt.alloc());
    let read = read_up_to(
        alloc,
        &mut pipe,
        FILE_LIMITS,
        SEGMENT_BYTES,
        &place,
        &mut kept,
    );
    if let Err(fault) = read {
        return ended(Err(StockFault::from(fault)), &day, &output);
    }
    let (mut feed, mut again, mut sink) = (
        Feed::new(kept.bytes()),
        Feed::new(kept.bytes()),
        Sink::new(&mut output),
    );
    let run = question.answer(alloc, &mut feed, &mut again, &mut sink);
    ended(run, &day, &output)
}

/// Writes the answer to a question of a file, which was opened, on standard output.
pub fn answer<'a, R: Runtime + AllocGlobal>(
    rt: &R,
    day: Named<'a, R::File>,
    path: &'a str,
    question: Question,
) -> Ended<'a> {
    if is_regular(rt, path) {
        answer_of_file(rt, day, path, question)
    } else {
        answer_of_pipe(rt, day, question)
    }
}

/// Writes what became of a message of a file, and why, on standard output.
pub fn why<'a, R: Runtime + AllocGlobal>(
    rt: &R,
    terminals: Terminals,
    path: &'a str,
    number: u32,
) -> Ended<'a> {
    let day = open_day(rt, terminals, path)?;
    answer(rt, day, path, Question::Message(number))
}
