//! The rule of a cell, and what its writer and its screens know.
use atomic_table::{Shared, TableRule};
use std::collections::LinkedList;

/// A stock of a day. No value of it is made.
pub struct DayStock {
    pub day: LinkedList<LinkedList<u8>>,
    pub locate: u16,
}

/// What a screen knows: the number of the message that it has read last, how often it has loaded the count or a word,
/// how often it has loaded the count, has begun a try and has won one, the last count that it has loaded, the even one
/// at which its last try began, and, while a try is open, the words that it has taken. No value of it is made.
pub struct Sight {
    pub number: u32,
    pub loads: u64,
    pub looks: u64,
    pub tries: u64,
    pub wins: u64,
    pub last: u64,
    pub began: u64,
    pub taken: Option<LinkedList<u64>>,
}

/// What a writer knows outside any change: the number at which it stands, and what was known at each seat when it
/// changed the count last. No value of it is made.
pub struct Rest {
    pub number: u32,
    pub noted: LinkedList<Sight>,
}

/// What a writer knows in the middle of a change: the number at which it stands, the words that stood, those that it
/// puts, how many it has put, and what was known at each seat when it changed the count last. No value of it is made.
pub struct Change {
    pub number: u32,
    pub old: LinkedList<u64>,
    pub new: LinkedList<u64>,
    pub put: u64,
    pub noted: LinkedList<Sight>,
}

/// What is known of a cell at one seat. No value of it is made.
pub enum View {
    /// That the cell isn't opened yet.
    Unopened,
    /// The writer's outside any change: its stock, and what it knows, with the number of the message that the words
    /// show.
    WriterOf(DayStock, Rest),
    /// The writer's in the middle of a change.
    Writing(DayStock, Change),
    /// A screen's: its stock, and what it knows of the cell.
    ScreenOf(DayStock, Sight),
    /// Nothing: the seat isn't used any more.
    Spent,
}

/// The rule that every step of a cell keeps.
pub struct CellRule;

impl TableRule<(), View, ()> for CellRule {
    ghost use Rattle.top_cell.specs.Rule.{CellRule};
    ghost use Rattle.top_cell.specs.declared.rule.View.TheVariants.{Unopened};

    ghost holds = { λ _. CellRule };

    ghost first = { λ _. Unopened };
}

/// The count and the words of a cell, as all threads see them.
pub type SharedCell = Shared<(), View, (), CellRule>;

/// The same with their memory.
pub type CellTable<A> = atomic_table::Table<(), View, (), CellRule, A>;

/// What a writer or a screen holds of its cell: its place there, and what is known of the cell.
pub type Seat = atomic_table::Seat<(), View>;
