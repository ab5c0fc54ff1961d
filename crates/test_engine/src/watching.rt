//! What a screen sees of a stock.
use binaryfile::{Feed, Sink};
use itch_readings::StockName;
use itch_watch::watch_run;
use std::test::Fail;
use test_support::same;
use worker_count::WorkerCount;

// The bytes of examples/crossed-book.itch, a stock with a bid, and then an ask below it; and between these a lower bid,
// which leaves the best bid and ask as they are.
const FILE: &[u8] =
    b"\x00\x27R\x00\x01\x00\x00\x00\x00\x00\x00\x00\x00AAPL    QN\x00\x00\x00dNCZ PNN1N\x00\x00\x00\x00N\
      \x00\x24A\x00\x01\x00\x00\x00\x00\x00\x00\x00\x01\x00\x00\x00\x00\x00\x00\x00\x01B\x00\x00\x00\x64AAPL    \x00\x0f\x69\x50\
      \x00\x24A\x00\x01\x00\x00\x00\x00\x00\x00\x00\x02\x00\x00\x00\x00\x00\x00\x00\x03B\x00\x00\x00\x0aAAPL    \x00\x0f\x42\x40\
      \x00\x24A\x00\x01\x00\x00\x00\x00\x00\x00\x00\x03\x00\x00\x00\x00\x00\x00\x00\x02S\x00\x00\x00\x32AAPL    \x00\x0f\x42\x40";

// What a screen sees that misses none of its messages.
const SEEN: [&[u8]; 4] = [
    b"at 1 bid none ask none\n",
    b"at 2 bid 1010000 100 ask none\n",
    b"at 3 bid 1010000 100 ask none\n",
    b"at 4 bid 1010000 100 ask 1000000 50\n",
];

// Some of these lines in their order, and the last one.
fn try_lines(output: &[u8]) -> Result<(), Fail> {
    let mut rest = output;
    for line in SEEN {
        rest = rest.strip_prefix(line).unwrap_or(rest);
    }
    same("what no screen can have seen", &rest.len(), &0)?;
    same("the last line", &output.ends_with(SEEN[3]), &true)
}

#[test]
fn a_watch_has_lines_of_its_stock_to_the_last(rt: HostRuntime) -> Result<(), Fail> {
    let mut output = Vec::new(rt.alloc());
    let returned = watch_run(
        &rt,
        rt.alloc(),
        &mut Feed::new(FILE),
        &mut Sink::new(&mut output),
        StockName::Symbol(*b"AAPL    "),
        WorkerCount::ONE,
    );
    same("a result", &returned, &Ok(()))?;
    try_lines(&output)
}
