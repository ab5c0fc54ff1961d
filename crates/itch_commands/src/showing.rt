//! A stock at a place of a file.
use crate::files::{Ended, open_day};
use crate::questions::{Question, answer};
use crate::readings::named_stock;
use crate::stop::Stop;
use crate::terminals::Terminals;
use itch_readings::StockFault;
use itch_show::{Place, time_of_word};
use std::rt::Runtime;

// The place that the options name; none where it is past the end of every file.
fn place_of<'a>(after: Option<u64>, at: Option<&str>) -> Result<Option<Place>, Stop<'a>> {
    match (after, at) {
        (Some(_), Some(_)) => Err(Stop::Misuse("--after and --at exclude each other")),
        (Some(messages), None) => match u32::try_from(messages) {
            Ok(messages) => Ok(Some(Place::After(messages))),
            Err(_) => Ok(None),
        },
        (None, Some(word)) => match time_of_word(word.as_bytes()) {
            Some(time) => Ok(Some(Place::At(time))),
            None => Err(Stop::Misuse(
                "--at is no time: write HH:MM:SS, from 00:00:00 to 23:59:59.999999999, or nanoseconds since midnight below 2^48",
            )),
        },
        (None, None) => Ok(Some(Place::End)),
    }
}

/// Writes on standard output what a session prints of one of a file's stocks: after so many messages of the file, at a time
/// of day, or where neither is given at its end.
pub fn show<'a, R: Runtime + AllocGlobal>(
    rt: &R,
    terminals: Terminals,
    path: &'a str,
    stock: &str,
    after: Option<u64>,
    at: Option<&str>,
) -> Ended<'a> {
    let place = place_of(after, at)?;
    let day = open_day(rt, terminals, path)?;
    let name = named_stock(stock)?;
    let Some(place) = place else {
        return Err(StockFault::PastEnd.into());
    };
    answer(rt, day, path, Question::Stock(name, place))
}
