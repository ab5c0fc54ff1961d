//! The laws of commands and of their answers.
ghost use Rattle.itch_debug.specs.Answering.{ShownIsAnswered};
ghost use Rattle.itch_debug.specs.Commands.{QuotesAreInNone};

/// No line with a quote in it is a command, so that the words of a command are what spaces separate.
pub fn quotes_are_in_no_command()
    ensures { QuotesAreInNone }
{}

/// What a text has of a stock at a position is what a session answers that goes to the position and shows the stock, wherever
/// it was before. So `itch show` prints what a session prints.
pub fn shown_is_answered()
    ensures { ShownIsAnswered }
{}
