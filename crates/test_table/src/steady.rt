//! Steps that take no memory: those that are refused or passed over, and those of kinds that need no new row.
use itch_layouts::{Breach, Decline, Ipo, Msg};
use itch_table::{Fault, Outcome, Plain};
use std::alloc::{Allocator, Global};
use std::test::Fail;
use test_refusing::{Refusal, Refusing};
use test_support::{AAPL, MSFT, Ticker, head, known_of, payload_of, same, system, take};

// Messages after which the machine has a stock with the bids 1 and 2, the ask 3, and a trade with match number 1.
fn first_messages() -> [Msg; 5] {
    [
        AAPL.directory(),
        AAPL.add(1, b'B', 10, 100),
        AAPL.add(2, b'B', 10, 100),
        AAPL.add(3, b'S', 10, 200),
        AAPL.execute(1, 1, 1),
    ]
}

// Messages that are applied and need no new row.
fn rowless_messages() -> [Msg; 16] {
    let decline = Decline {
        level1: 1,
        level2: 2,
        level3: 3,
    };
    let offering = Ipo {
        stock: *b"AAPL    ",
        release: 0,
        qualifier: b'A',
        price: 0,
    };
    [
        system(0, b'O'),
        AAPL.directory(),
        AAPL.trading(b'H', *b"T1  "),
        AAPL.regsho(b'1'),
        AAPL.participant(),
        Msg::Decline(head(0), decline),
        Msg::Breach(head(0), Breach { level: b'1' }),
        Msg::Ipo(head(0), offering),
        AAPL.collar(),
        AAPL.operational(),
        AAPL.imbalance(),
        AAPL.retail(),
        AAPL.cancel(1, 4),
        AAPL.cancel(1, 5),
        AAPL.delete(2),
        AAPL.broken(1),
    ]
}

// Messages that are refused after all these, and their faults.
fn refused_messages() -> [(Msg, Fault); 15] {
    let unlisted = Ticker { locate: 3, ..AAPL };
    let other = Ticker { locate: 1, ..MSFT };
    [
        (AAPL.broken(1), Fault::NoTrade),
        (AAPL.execute(1, 1, 2), Fault::ReferenceUnknown),
        (AAPL.execute(3, 11, 2), Fault::TooManyShares),
        (AAPL.execute_price(3, 1, 2, b'Z', 5), Fault::BadPrintable),
        (AAPL.cancel(3, 11), Fault::TooManyShares),
        (AAPL.delete(1), Fault::ReferenceUnknown),
        (AAPL.replace(3, 3, 1, 1), Fault::ReferenceInUse),
        (AAPL.add_mpid(3, b'B', 1, 1), Fault::ReferenceInUse),
        (AAPL.add(1, b'B', 1, 1), Fault::ReferenceSpent),
        (AAPL.replace(3, 2, 1, 1), Fault::ReferenceSpent),
        (AAPL.trade(b'Z', 1, 1, 1), Fault::BadSide),
        (AAPL.add(1, b'B', 0, 1), Fault::ZeroShares),
        (unlisted.add(1, b'B', 1, 1), Fault::NoDirectory),
        (other.add(1, b'B', 1, 1), Fault::StockDiffers),
        (other.directory(), Fault::LocateTaken),
    ]
}

// Payloads that are no messages, and what becomes of them.
const OTHERS: [(&[u8], Outcome); 3] = [
    (b"A", Outcome::Refused(Fault::WrongLength)),
    (b"O", Outcome::Passed),
    (b"", Outcome::Passed),
];

// Passes messages that are applied to a machine.
fn apply_all<A: Allocator + Copy, B: Allocator + Copy>(
    alloc: B,
    machine: &mut Plain<A>,
    messages: &[Msg],
) -> Result<(), Fail> {
    for msg in messages {
        let payload = payload_of(alloc, msg)?;
        take(
            "a message that is applied",
            machine,
            &payload,
            Outcome::Applied,
        )?;
    }
    Ok(())
}

// Passes to a machine messages that are refused, and payloads that are no messages.
fn refuse_all<A: Allocator + Copy, B: Allocator + Copy>(
    alloc: B,
    machine: &mut Plain<A>,
) -> Result<(), Fail> {
    for (msg, fault) in refused_messages() {
        let payload = payload_of(alloc, &msg)?;
        take(
            "a refused message",
            machine,
            &payload,
            Outcome::Refused(fault),
        )?;
    }
    for (payload, outcome) in OTHERS {
        take("a payload that is no message", machine, payload, outcome)?;
    }
    Ok(())
}

// Leads a new machine over a heap through all these messages, with memory for the first ones alone.
fn lead<B: Allocator + Copy, A: Allocator + Copy>(
    heap: &Refusing<Global>,
    alloc: B,
    machine: &mut Plain<A>,
) -> Result<(), Fail> {
    apply_all(alloc, machine, &first_messages())?;
    heap.restart(Refusal::From(1));
    apply_all(alloc, machine, &rowless_messages())?;
    refuse_all(alloc, machine)?;
    let known = known_of(machine, 1);
    let orders = (machine.order(1, 1), machine.order(1, 2));
    let spent = (machine.spent(1, 1), machine.spent(1, 4));
    let found = (
        known.event,
        known.status.regsho,
        known.totals.trades,
        known.top.bid_shares,
    );
    let wanted = (Some(b'O'), Some(b'1'), 0, 0);
    same(
        "what is known, and growths",
        &(found, orders, spent, heap.asked()),
        &(wanted, (None, None), (true, false), 0),
    )
}

#[test]
fn steps_without_a_new_row_take_no_memory(rt: HostRuntime) -> Result<(), Fail> {
    let heap = Refusing::new(rt.alloc(), Refusal::Never);
    lead(&heap, rt.alloc(), &mut Plain::new(&heap))
}
