//! The nine kinds of step: six that a writer or a screen makes on a word of its cell, and open, split and join.
ghost use Rattle.std.specs.Prelude.{ℕ, List, []};
ghost use Rattle.top_cell.specs.Kinds.{Opened, ReaderBegun, ReaderEnded, ReaderTook, WriterBegun, WriterEnded, WriterHasPut, joined, screen_beside};
ghost use Rattle.top_cell.specs.Rule.{Turns};
ghost use Rattle.top_cell.specs.declared.rule.DayStock.{DayStock};
ghost use Rattle.top_cell.specs.declared.rule.View.TheVariants.{Spent};

use crate::rule::View;
use atomic_table::{Join, Play, Split};
use std::marker::{Brand, PhantomData};

/// Names the stock of a cell.
pub trait Naming {
    ghost stock: { DayStock };
}

impl Naming for Brand {
    ghost stock = { record { day = []; locate = 0 } };
}

/// Open: the first seat of a new cell becomes that of its writer.
pub struct Opens<J: Naming> {
    named: PhantomData<J>,
}

impl<J: Naming> Play<(), View> for Opens<J> {
    ghost then = { λ _ before _ after. Turns (Opened J.stock) before after };
}

/// Names the words that a writer will put.
pub trait Coming {
    ghost words: { List ℕ };
}

impl Coming for Brand {
    ghost words = { [] };
}

/// Writer begins: the count goes up by one, and the writer will put four new words.
pub struct WriterBegins<J: Coming> {
    named: PhantomData<J>,
}

impl<J: Coming> Play<(), View> for WriterBegins<J> {
    ghost then = { λ _ before _ after. Turns (WriterBegun J.words) before after };
}

/// Writer puts a word: the next of the new words is stored.
pub struct WriterPuts;

impl Play<(), View> for WriterPuts {
    ghost then = { λ _ before _ after. Turns WriterHasPut before after };
}

/// Writer ends: the count goes up by one, where all four words were put, and the writer stands at their number.
pub struct WriterEnds;

impl Play<(), View> for WriterEnds {
    ghost then = { λ _ before _ after. Turns WriterEnded before after };
}

/// Reader begins: a screen without an open try loads the count, and where it is even opens a try.
pub struct ReaderBegins;

impl Play<(), View> for ReaderBegins {
    ghost then = { λ _ before found after. Turns (ReaderBegun found) before after };
}

/// Reader takes a word: in an open try of fewer than four words a screen loads the next one.
pub struct ReaderTakes;

impl Play<(), View> for ReaderTakes {
    ghost then = { λ _ before found after. Turns (ReaderTook found) before after };
}

/// Reader ends: a screen with an open try of four words loads the count and closes the try. Where the count is still
/// the one at which the try began, the screen stands at the number of its words.
pub struct ReaderEnds;

impl Play<(), View> for ReaderEnds {
    ghost then = { λ _ before found after. Turns (ReaderEnded found) before after };
}

/// Split: beside itself a writer or a screen gives a screen that stands where it stands.
pub struct Splits;

impl Split<View> for Splits {
    ghost left = { λ v. v };

    ghost right = { screen_beside };
}

/// Join: two screens of a cell become one, at the later of their messages.
pub struct Joins;

impl Join<View> for Joins {
    ghost both = { joined };

    ghost spent = { Spent };
}
