//! Which later message breaks a trade.
ghost use Rattle.std.specs.Prelude.{◌≡◌, ◌∷◌, [], List, OnOk};
ghost use Rattle.itch_readings.specs.BrokenTrades.{AreFirstBreaks, number_at};
ghost use Rattle.itch_readings.specs.Trades.{with_break, with_breaks};
ghost use Rattle.itch_readings.specs.declared.trades.TradeEvent.{TradeEvent};

use crate::trades::{TradeBreak, TradeEvent};
use std::alloc::{AllocError, Allocator};
use std::collections::BTreeMap;

/// A stock and a match number.
#[derive(Debug, Clone, Copy, PartialEq, Eq, PartialOrd, Ord)]
pub(crate) struct MatchKey {
    pub locate: u16,
    pub match_no: u64,
}

// Of the messages from one on, the number of the first that breaks the trades of a stock with a match number.
#[derive(Drop)]
struct FirstBreaks<A: Allocator> {
    numbers: BTreeMap<MatchKey, u32, A>,
}

impl<A: Allocator + Copy> FirstBreaks<A> {
    // Those of no message.
    fn new(alloc: A) -> FirstBreaks<A>
        ensures { AreFirstBreaks [] result.numbers }
    {
        FirstBreaks {
            numbers: BTreeMap::new(alloc),
        }
    }

    fn first(&self, locate: u16, match_no: u64) -> Option<u32>
        ensures { result ≡ number_at self.now.numbers locate match_no }
    {
        self.numbers.get(&MatchKey { locate, match_no }).copied()
    }

    fn put(&mut self, by: TradeBreak) -> Result<(), AllocError>
        ensures { OnOk result ((later : List TradeEvent) → AreFirstBreaks later self.old.numbers
            → AreFirstBreaks (TradeEvent.Broke by ∷ later) self.new.numbers) }
    {
        let key = MatchKey {
            locate: by.at.locate,
            match_no: by.match_no,
        };
        self.numbers.insert(key, by.at.message)?;
        Ok(())
    }

    // Takes the event before those that were taken. A trade is given the number of the first message that breaks it.
    fn take(&mut self, event: &mut TradeEvent) -> Result<(), AllocError>
        ensures { OnOk result ((later : List TradeEvent) → AreFirstBreaks later self.old.numbers
            → (event.new ≡ with_break event.old later)
            × AreFirstBreaks (event.old ∷ later) self.new.numbers) }
    {
        match event {
            TradeEvent::Made(trade) => {
                trade.broken = self.first(trade.at.locate, trade.match_no);
                Ok(())
            }
            TradeEvent::Broke(by) => self.put(*by),
        }
    }
}

/// Gives each trade the number of the first later message that breaks it. An error says that memory was refused; the trades
/// are of no use then.
pub(crate) fn mark_broken<A: Allocator + Copy>(
    alloc: A,
    events: &mut [TradeEvent],
) -> Result<(), AllocError>
    ensures { OnOk result (events.new ≡ with_breaks events.old) }
{
    let mut breaks = FirstBreaks::new(alloc);
    for index in (0..events.len()).rev() {
        breaks.take(&mut events[index])?;
    }
    Ok(())
}
