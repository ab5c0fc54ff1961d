//! The commands of the program, a row each, and their arguments.

use crate::help;
use clap::builder::ValueParser;
use worker_count::WorkerCount;

/// What an argument takes.
#[derive(Clone, Copy)]
pub(crate) enum Takes {
    /// An operand that must be given.
    Operand(ValueParser<'static>),
    /// An operand, any text, that may be left out.
    OptionalOperand,
    /// Nothing: it is an option that is there or isn't.
    Nothing,
    /// A value: it is an option with this name for its value.
    Value(&'static str, ValueParser<'static>),
    /// A value that is 1 where the option isn't there.
    OneByDefault(&'static str, ValueParser<'static>),
}

/// An argument of a command.
#[derive(Clone, Copy)]
pub(crate) struct Argument {
    pub name: &'static str,
    pub takes: Takes,
    pub help: &'static str,
}

/// A command.
#[derive(Clone, Copy)]
pub(crate) struct CommandRow {
    pub name: &'static str,
    pub about: &'static str,
    /// An example, and what its help says of the lines that it prints.
    pub lines: &'static str,
    pub arguments: &'static [Argument],
}

/// The program's version. Its commands and their output may change until it is 1.0.0.
pub(crate) const VERSION: &str = "0.9.0";

// Any text.
const TEXT: ValueParser<'static> = ValueParser::String;

// The number of a message.
const NUMBER: ValueParser<'static> = ValueParser::Signed(1, 4_294_967_295);

// A count of messages, or a reference.
const COUNT: ValueParser<'static> = ValueParser::Unsigned(0, u64::MAX);

// How many threads.
const WORKERS: Takes = Takes::OneByDefault("N", ValueParser::Signed(1, WorkerCount::MOST as i64));

const FILE: Argument = Argument {
    name: "FILE",
    takes: Takes::Operand(TEXT),
    help: "A Nasdaq TotalView-ITCH 5.0 day in Nasdaq BinaryFILE form, not compressed",
};

const STOCK_HELP: &str =
    "A symbol in capitals, between quotes where it has digits alone, or a locate code in digits";

const STOCK: Argument = Argument {
    name: "STOCK",
    takes: Takes::Operand(TEXT),
    help: STOCK_HELP,
};

const ANY_STOCK: Argument = Argument {
    name: "STOCK",
    takes: Takes::OptionalOperand,
    help: STOCK_HELP,
};

const THREADS: Argument = Argument {
    name: "workers",
    takes: WORKERS,
    help: "How many threads replay the day, from 1 to 64, while one more reads it",
};

/// The commands of whole days.
pub(crate) const DAYS: &[CommandRow] = &[
    CommandRow {
        name: "replay",
        about: "Replays a day and prints its report, which is the same for every number of workers",
        lines: help::REPORT,
        arguments: &[
            FILE,
            THREADS,
            Argument {
                name: "progress",
                takes: Takes::Nothing,
                help: "Says on standard error how far it is, at most once a second and at the end",
            },
        ],
    },
    CommandRow {
        name: "summary",
        about: "Replays a day and prints a comma-separated line for each of its stocks",
        lines: help::SUMMARY,
        arguments: &[FILE, THREADS],
    },
];

/// Those of stocks' books.
pub(crate) const BOOKS: &[CommandRow] = &[
    CommandRow {
        name: "stocks",
        about: "Prints the stocks of a day: locate code, symbol and number of messages",
        lines: help::STOCKS,
        arguments: &[FILE],
    },
    CommandRow {
        name: "tops",
        about: "Prints the best bid and ask of a stock wherever they change, as comma-separated lines",
        lines: help::TOPS,
        arguments: &[
            FILE,
            STOCK,
            Argument {
                name: "every",
                takes: Takes::Nothing,
                help: "Prints them after each message of the stock",
            },
        ],
    },
    CommandRow {
        name: "show",
        about: "Prints a stock's levels, orders and sums over its trades after any message, or at a time",
        lines: help::SHOWN,
        arguments: &[
            FILE,
            STOCK,
            Argument {
                name: "after",
                takes: Takes::Value("N", COUNT),
                help: "Shows it after the first N messages of the day, and not at its end",
            },
            Argument {
                name: "at",
                takes: Takes::Value("TIME", TEXT),
                help: "Shows it as it was at a time, such as 09:30:00 or 34200000000000 (nanoseconds since midnight)",
            },
        ],
    },
    CommandRow {
        name: "trace",
        about: "Prints what became of each message, and its stock's best bid and ask after it, as comma-separated lines",
        lines: help::TRACE,
        arguments: &[
            FILE,
            ANY_STOCK,
            Argument {
                name: "depth",
                takes: Takes::OneByDefault("K", ValueParser::Signed(1, 10)),
                help: "How many of the best levels of each side a line has, from 1 to 10",
            },
            Argument {
                name: "from",
                takes: Takes::Value("N", NUMBER),
                help: "Prints no message before this one, counted from 1",
            },
            Argument {
                name: "to",
                takes: Takes::Value("N", NUMBER),
                help: "Prints no message after this one",
            },
        ],
    },
];

/// Those of messages, orders and trades.
pub(crate) const ORDERS: &[CommandRow] = &[
    CommandRow {
        name: "why",
        about: "Prints what became of a message, why it was refused, and its orders before it",
        lines: help::WHY,
        arguments: &[
            FILE,
            Argument {
                name: "N",
                takes: Takes::Operand(NUMBER),
                help: "The number of the message, counted from 1",
            },
        ],
    },
    CommandRow {
        name: "order",
        about: "Prints each message that names an order, through its replacements, and how it stands at the end",
        lines: help::ORDER,
        arguments: &[
            FILE,
            STOCK,
            Argument {
                name: "REFERENCE",
                takes: Takes::Operand(COUNT),
                help: "Any reference that the order has had",
            },
        ],
    },
    CommandRow {
        name: "trades",
        about: "Prints the trades of a day, or of one of its stocks, as comma-separated lines",
        lines: help::TRADES,
        arguments: &[FILE, ANY_STOCK],
    },
];

/// Those of texts.
pub(crate) const TEXTS: &[CommandRow] = &[
    CommandRow {
        name: "dis",
        about: "Prints a day as text, one line a message",
        lines: help::TEXT,
        arguments: &[
            FILE,
            Argument {
                name: "from",
                takes: Takes::Value("N", NUMBER),
                help: "Prints no message before this one, counted from 1, and not the file's end",
            },
            Argument {
                name: "to",
                takes: Takes::Value("N", NUMBER),
                help: "Prints no message after this one, and not the file's end",
            },
        ],
    },
    CommandRow {
        name: "asm",
        about: "Makes the file that a text stands for",
        lines: help::ASSEMBLED,
        arguments: &[
            Argument {
                name: "TEXT",
                takes: Takes::Operand(TEXT),
                help: "The text of a day: a line for each entry, as `itch dis` writes it or by hand",
            },
            Argument {
                name: "OUT",
                takes: Takes::Operand(TEXT),
                help: "The file to make or replace, which is left alone where the text is faulty",
            },
        ],
    },
];

/// Those of sessions and screens.
pub(crate) const SESSIONS: &[CommandRow] = &[
    CommandRow {
        name: "debug",
        about: "Goes through a day both ways, by commands on standard input",
        lines: help::SESSION,
        arguments: &[FILE],
    },
    CommandRow {
        name: "watch",
        about: "Replays a day, and prints what a screen of a stock sees of its best bid and ask meanwhile",
        lines: help::WATCH,
        arguments: &[
            FILE,
            STOCK,
            Argument {
                name: "workers",
                takes: WORKERS,
                help: "How many workers replay the day, from 1 to 64",
            },
        ],
    },
];
