//! Moves by numbers, and what a stock is at a position.
use crate::calls::{Call, Line, Returned, follow_new};
use crate::days::tour;
use debugger::DebugFault;
use itch_table::{Outcome, Top, Totals};
use std::test::Fail;
use test_support::same;

// To a message that was applied.
const fn applied(n: u32) -> Result<Returned, DebugFault> {
    Ok(Returned::Moved(n, Some(Outcome::Applied)))
}

// The stock in its halt, with a bid of these shares and these totals of trades.
const fn halted(
    bid_shares: u64,
    trades: u64,
    shares: u128,
    notional: u128,
) -> Result<Returned, DebugFault> {
    let top = Top {
        bid_price: if bid_shares == 0 { 0 } else { 1_500_000 },
        bid_shares,
        ask_price: 0,
        ask_shares: 0,
    };
    let totals = Totals {
        trades,
        shares,
        notional,
        unprinted: 0,
    };
    Ok(Returned::Shown(top, totals, Some(b'H'), true))
}

// The stock before its first message.
const NOTHING: Returned = Returned::Shown(
    Top {
        bid_price: 0,
        bid_shares: 0,
        ask_price: 0,
        ask_shares: 0,
    },
    Totals::NONE,
    None,
    false,
);

const fn tour_script() -> [Line; 16] {
    [
        (Call::Goto(5), applied(5)),
        (Call::Stock(1), halted(50, 2, 50, 75_000_000)),
        (Call::Goto(0), Ok(Returned::Moved(0, None))),
        (Call::Stock(1), Ok(NOTHING)),
        (Call::Back, Err(DebugFault::BeforeStart)),
        (Call::Goto(6), applied(6)),
        (Call::Stock(1), halted(50, 1, 10, 15_000_000)),
        (Call::Goto(7), applied(7)),
        (Call::Stock(1), halted(0, 1, 10, 15_000_000)),
        (Call::Step, Err(DebugFault::PastEnd)),
        (Call::Goto(8), Err(DebugFault::PastEnd)),
        (Call::Back, applied(6)),
        (Call::Back, applied(5)),
        (Call::Stock(1), halted(50, 2, 50, 75_000_000)),
        (Call::Step, applied(6)),
        (Call::Stock(1), halted(50, 1, 10, 15_000_000)),
    ]
}

#[test]
fn a_tour_shows_the_stock_at_each_place(rt: HostRuntime) -> Result<(), Fail> {
    follow_new(rt.alloc(), &tour(rt.alloc())?, 2, &tour_script())
}

#[test]
fn faults_have_fixed_numbers(_rt: HostRuntime) -> Result<(), Fail> {
    let faults = [
        DebugFault::Memory,
        DebugFault::PastEnd,
        DebugFault::BeforeStart,
    ];
    same("their numbers", &faults.map(DebugFault::number), &[1, 2, 3])
}
