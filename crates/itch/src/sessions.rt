//! Debugging sessions.
use crate::prompt::Prompting;
use binaryfile::{Day, Feed, Sink};
use engine_rules::ProgFault;
use engine_rules::limits::FILE_LIMITS;
use itch_commands::{Ended, Terminals, ended, open_day, standard_output};
use itch_debug::debug_run;
use named_files::Named;
use std::rt::Runtime;

/// Answers the commands of standard input about a file, on standard output. At a terminal each line is asked for.
pub fn debug<'a, R: Runtime + AllocGlobal>(
    rt: &R,
    terminals: Terminals,
    path: &'a str,
) -> Ended<'a> {
    let mut output = standard_output(rt);
    let mut file = open_day(rt, terminals, path)?;
    let day = match Day::load(rt.alloc(), &mut Feed::new(&mut file), FILE_LIMITS) {
        Ok(day) => day,
        Err(fault) => return ended(Err(ProgFault::from(fault)), &file, &output),
    };
    let mut commands = Named::new("standard input", Prompting::new(rt, rt.reader(), terminals));
    let run = debug_run(
        rt.alloc(),
        &day,
        &mut Feed::new(&mut commands),
        &mut Sink::new(&mut output),
    );
    ended(run, &commands, &output)
}
