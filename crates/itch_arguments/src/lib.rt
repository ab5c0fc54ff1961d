//! The arguments of the program `itch`: what it takes, and what it is asked for by them. They are of this project.
//!
//! ```rust
//! let matches = itch_arguments::parse(rt.alloc(), &arguments)?;
//! let task = itch_arguments::chosen_task(&matches);
//! ```
#![tactic(auto)]

ghost use Rattle.std.specs.Prelude.{◌≡◌, ◌≢◌, IfSome, Some, codes};
ghost use Rattle.clap.specs.Matches.{subcommand_name_of};
ghost use Rattle.clap.specs.Values.{kind_of};
ghost use Rattle.clap.specs.declared.error.kind.ErrorKind.TheVariants.{DisplayHelp, DisplayVersion};
ghost use Rattle.itch_arguments.specs.Tasks.{command_of};

mod help;
mod table;

use crate::table::{Argument, BOOKS, CommandRow, DAYS, ORDERS, SESSIONS, TEXTS, Takes, VERSION};
use clap::{Arg, ArgAction, ArgMatches, Command, Error};
use std::alloc::{AllocError, Global};

/// What the arguments ask for.
#[derive(Drop)]
pub enum Task<'a> {
    /// To replay a file, by as many workers as the arguments say.
    Replay {
        file: &'a str,
        workers: u32,
        /// Whether to say how far the replay is.
        progress: bool,
    },
    /// To replay a file, by as many workers as the arguments say, and write a line for each of its stocks.
    Summarize {
        file: &'a str,
        workers: u32,
    },
    /// To write a file's text.
    Disassemble {
        file: &'a str,
    },
    /// To write the lines of a file's messages from one number on, to another or to the file's end.
    DisassembleBetween {
        file: &'a str,
        first: u32,
        last: Option<u32>,
    },
    /// To list a file's stocks.
    Stocks {
        file: &'a str,
    },
    /// To write the best bid and ask of one of a file's stocks along it.
    Tops {
        file: &'a str,
        stock: &'a str,
        /// Whether after each of its messages, and not only where they change.
        every: bool,
    },
    /// To show one of a file's stocks after so many messages, at a time, or else at the end.
    Show {
        file: &'a str,
        stock: &'a str,
        after: Option<u64>,
        at: Option<&'a str>,
    },
    /// To write what became of a message of a file, and why.
    Why {
        file: &'a str,
        number: u32,
    },
    /// To write the life of an order of one of a file's stocks.
    Order {
        file: &'a str,
        stock: &'a str,
        reference: u64,
    },
    /// To write the trades of a file, or of one of its stocks.
    Trades {
        file: &'a str,
        stock: Option<&'a str>,
    },
    /// To write a line for each message of a file, or of one of its stocks, with so many of the best levels of each side,
    /// from one number on, to another or to the file's end.
    Trace {
        file: &'a str,
        stock: Option<&'a str>,
        depth: u32,
        first: u32,
        last: Option<u32>,
    },
    /// To replay a file, and write what a screen of one of its stocks sees meanwhile.
    Watch {
        file: &'a str,
        stock: &'a str,
        workers: u32,
    },
    /// To make a file of a text.
    Assemble {
        text: &'a str,
        out: &'a str,
    },
    /// To answer the commands of standard input about a file.
    Debug {
        file: &'a str,
    },
    /// To replay the file whose hexadecimal digits are standard input.
    ReplayDigits,
}

// An argument of a command.
fn argument<'a>(alloc: Global, row: &Argument) -> Arg<'a> {
    let arg = Arg::new(alloc, row.name).help(row.help);
    match row.takes {
        Takes::Operand(values) => arg.required(true).value_parser(values),
        Takes::OptionalOperand => arg,
        Takes::Nothing => arg.long(row.name).action(ArgAction::SetTrue),
        Takes::Value(name, values) => arg.long(row.name).value_name(name).value_parser(values),
        Takes::OneByDefault(name, values) => {
            arg.long(row.name)
                .value_name(name)
                .value_parser(values)
                .default_value("1")
        }
    }
}

// The arguments of a command.
fn arguments<'a>(alloc: Global, rows: &[Argument]) -> Result<Vec<Arg<'a>>, AllocError> {
    let mut arguments = Vec::new(alloc);
    for row in rows {
        arguments.push(argument(alloc, row))?;
    }
    Ok(arguments)
}

// A command.
fn command<'a>(alloc: Global, row: &CommandRow) -> Result<Command<'a>, AllocError> {
    let arguments = arguments(alloc, row.arguments)?;
    Command::new(alloc, row.name)
        .about(row.about)
        .after_help(row.lines)
        .args(arguments)
}

// Adds a command to others, where it was made.
fn add<'a>(
    commands: &mut Vec<Command<'a>>,
    made: Result<Command<'a>, AllocError>,
) -> Result<(), AllocError> {
    commands.push(made?)?;
    Ok(())
}

// Adds the commands of these rows.
fn add_all<'a>(
    alloc: Global,
    commands: &mut Vec<Command<'a>>,
    rows: &[CommandRow],
) -> Result<(), AllocError> {
    for row in rows {
        add(commands, command(alloc, row))?;
    }
    Ok(())
}

// Adds the commands of whole days. Each of these functions has rows of its own, since a proof looks into all that it has.
fn add_days<'a>(alloc: Global, commands: &mut Vec<Command<'a>>) -> Result<(), AllocError> {
    add_all(alloc, commands, DAYS)
}

// Adds those of stocks' books.
fn add_books<'a>(alloc: Global, commands: &mut Vec<Command<'a>>) -> Result<(), AllocError> {
    add_all(alloc, commands, BOOKS)
}

// Adds those of messages, orders and trades.
fn add_orders<'a>(alloc: Global, commands: &mut Vec<Command<'a>>) -> Result<(), AllocError> {
    add_all(alloc, commands, ORDERS)
}

// Adds those of texts.
fn add_texts<'a>(alloc: Global, commands: &mut Vec<Command<'a>>) -> Result<(), AllocError> {
    add_all(alloc, commands, TEXTS)
}

// Adds those of sessions and screens.
fn add_sessions<'a>(alloc: Global, commands: &mut Vec<Command<'a>>) -> Result<(), AllocError> {
    add_all(alloc, commands, SESSIONS)
}

// The commands that the program has, in the order of its help.
fn commands<'a>(alloc: Global) -> Result<Vec<Command<'a>>, AllocError> {
    let mut commands = Vec::new(alloc);
    add_days(alloc, &mut commands)?;
    add_books(alloc, &mut commands)?;
    add_orders(alloc, &mut commands)?;
    add_texts(alloc, &mut commands)?;
    add_sessions(alloc, &mut commands)?;
    Ok(commands)
}

// The arguments that the program takes.
fn itch_command<'a>(alloc: Global) -> Result<Command<'a>, AllocError> {
    let commands = commands(alloc)?;
    Command::new(alloc, "itch")
        .about("Replays a Nasdaq TotalView-ITCH 5.0 day file, and answers questions about it")
        .version(VERSION)
        .after_help(help::PROGRAM)
        .subcommands(commands)
}

/// The arguments, read, or why they are invalid.
pub fn parse<'a>(alloc: Global, arguments: &'a [String]) -> Result<ArgMatches<'a>, Error> {
    itch_command(alloc)?.try_get_matches_from(arguments)
}

// How a file is disassembled: whole, or between two of its messages.
fn disassembling<'a>(dis: &ArgMatches<'a>, file: &'a str) -> Task<'a>
    ensures { command_of result ≡ Some (codes "dis") }
{
    let (first, last): (Option<u32>, Option<u32>) = (dis.get_one("from"), dis.get_one("to"));
    match (first, last) {
        (None, None) => Task::Disassemble { file },
        (first, last) => Task::DisassembleBetween {
            file,
            first: first.unwrap_or(1),
            last,
        },
    }
}

// To replay a file, where the arguments ask for it.
fn replaying<'a>(matches: &ArgMatches<'a>) -> Option<Task<'a>>
    ensures { IfSome result (λ task. (command_of task ≡ Some (codes "replay"))
        × (subcommand_name_of matches.now ≡ Some (codes "replay"))) }
{
    let replay = matches.subcommand_matches("replay")?;
    Some(Task::Replay {
        file: replay.get_str("FILE")?,
        workers: replay.get_one("workers").unwrap_or(1),
        progress: replay.get_flag("progress"),
    })
}

// To write a line for each stock, where the arguments ask for it.
fn summarizing<'a>(matches: &ArgMatches<'a>) -> Option<Task<'a>>
    ensures { IfSome result (λ task. (command_of task ≡ Some (codes "summary"))
        × (subcommand_name_of matches.now ≡ Some (codes "summary"))) }
{
    let summary = matches.subcommand_matches("summary")?;
    Some(Task::Summarize {
        file: summary.get_str("FILE")?,
        workers: summary.get_one("workers").unwrap_or(1),
    })
}

// To write the best bid and ask of a stock, where the arguments ask for it.
fn printing_tops<'a>(matches: &ArgMatches<'a>) -> Option<Task<'a>>
    ensures { IfSome result (λ task. (command_of task ≡ Some (codes "tops"))
        × (subcommand_name_of matches.now ≡ Some (codes "tops"))) }
{
    let tops = matches.subcommand_matches("tops")?;
    Some(Task::Tops {
        file: tops.get_str("FILE")?,
        stock: tops.get_str("STOCK")?,
        every: tops.get_flag("every"),
    })
}

// To show a stock, where the arguments ask for it.
fn showing<'a>(matches: &ArgMatches<'a>) -> Option<Task<'a>>
    ensures { IfSome result (λ task. (command_of task ≡ Some (codes "show"))
        × (subcommand_name_of matches.now ≡ Some (codes "show"))) }
{
    let show = matches.subcommand_matches("show")?;
    Some(Task::Show {
        file: show.get_str("FILE")?,
        stock: show.get_str("STOCK")?,
        after: show.get_one("after"),
        at: show.get_str("at"),
    })
}

// To write what became of a message, and why, where the arguments ask for it.
fn explaining<'a>(matches: &ArgMatches<'a>) -> Option<Task<'a>>
    ensures { IfSome result (λ task. (command_of task ≡ Some (codes "why"))
        × (subcommand_name_of matches.now ≡ Some (codes "why"))) }
{
    let why = matches.subcommand_matches("why")?;
    Some(Task::Why {
        file: why.get_str("FILE")?,
        number: why.get_one("N")?,
    })
}

// To write an order's life, where the arguments ask for it.
fn printing_order<'a>(matches: &ArgMatches<'a>) -> Option<Task<'a>>
    ensures { IfSome result (λ task. (command_of task ≡ Some (codes "order"))
        × (subcommand_name_of matches.now ≡ Some (codes "order"))) }
{
    let order = matches.subcommand_matches("order")?;
    Some(Task::Order {
        file: order.get_str("FILE")?,
        stock: order.get_str("STOCK")?,
        reference: order.get_one("REFERENCE")?,
    })
}

// To write trades, where the arguments ask for it.
fn printing_trades<'a>(matches: &ArgMatches<'a>) -> Option<Task<'a>>
    ensures { IfSome result (λ task. (command_of task ≡ Some (codes "trades"))
        × (subcommand_name_of matches.now ≡ Some (codes "trades"))) }
{
    let trades = matches.subcommand_matches("trades")?;
    Some(Task::Trades {
        file: trades.get_str("FILE")?,
        stock: trades.get_str("STOCK"),
    })
}

// To write a trace, where the arguments ask for it.
fn tracing<'a>(matches: &ArgMatches<'a>) -> Option<Task<'a>>
    ensures { IfSome result (λ task. (command_of task ≡ Some (codes "trace"))
        × (subcommand_name_of matches.now ≡ Some (codes "trace"))) }
{
    let trace = matches.subcommand_matches("trace")?;
    Some(Task::Trace {
        file: trace.get_str("FILE")?,
        stock: trace.get_str("STOCK"),
        depth: trace.get_one("depth").unwrap_or(1),
        first: trace.get_one("from").unwrap_or(1),
        last: trace.get_one("to"),
    })
}

// To write what a screen of a stock sees, where the arguments ask for it.
fn watching<'a>(matches: &ArgMatches<'a>) -> Option<Task<'a>>
    ensures { IfSome result (λ task. (command_of task ≡ Some (codes "watch"))
        × (subcommand_name_of matches.now ≡ Some (codes "watch"))) }
{
    let watch = matches.subcommand_matches("watch")?;
    Some(Task::Watch {
        file: watch.get_str("FILE")?,
        stock: watch.get_str("STOCK")?,
        workers: watch.get_one("workers").unwrap_or(1),
    })
}

/// What the arguments ask for: what their command asks for, where they have one.
pub fn chosen_task<'a>(matches: &ArgMatches<'a>) -> Task<'a>
    ensures { IfSome (command_of result) (λ command. subcommand_name_of matches.now ≡ Some command) }
{
    if let Some(task) = replaying(matches) {
        return task;
    }
    if let Some(task) = summarizing(matches) {
        return task;
    }
    if let Some(task) = printing_tops(matches) {
        return task;
    }
    if let Some(task) = showing(matches) {
        return task;
    }
    if let Some(task) = explaining(matches) {
        return task;
    }
    if let Some(task) = printing_order(matches) {
        return task;
    }
    if let Some(task) = printing_trades(matches) {
        return task;
    }
    if let Some(task) = tracing(matches) {
        return task;
    }
    if let Some(task) = watching(matches) {
        return task;
    }
    if let Some(dis) = matches.subcommand_matches("dis")
        && let Some(file) = dis.get_str("FILE")
    {
        return disassembling(dis, file);
    }
    if let Some(stocks) = matches.subcommand_matches("stocks")
        && let Some(file) = stocks.get_str("FILE")
    {
        return Task::Stocks { file };
    }
    if let Some(asm) = matches.subcommand_matches("asm")
        && let Some(text) = asm.get_str("TEXT")
        && let Some(out) = asm.get_str("OUT")
    {
        return Task::Assemble { text, out };
    }
    if let Some(debug) = matches.subcommand_matches("debug")
        && let Some(file) = debug.get_str("FILE")
    {
        return Task::Debug { file };
    }
    Task::ReplayDigits
}

/// The exit status where the arguments gave no task: 0 where they asked for help or the version, and 2 where they are
/// invalid.
pub fn usage_status(error: &Error) -> u8
    ensures help { kind_of error.now ≡ DisplayHelp → result ≡ 0 }
    ensures version { kind_of error.now ≡ DisplayVersion → result ≡ 0 }
    ensures misuse { kind_of error.now ≢ DisplayHelp → kind_of error.now ≢ DisplayVersion → result ≡ 2 }
{
    error.exit_code() as u8
}
