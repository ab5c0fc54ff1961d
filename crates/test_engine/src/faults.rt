//! Inputs that can't be taken, and what a fault is to the program.
use crate::engines::Engine;
use binaryfile::LoadFault;
use day_core::{MergeFault, SplitFault};
use itch_engine::{ProgFault, status};
use itch_readings::StockFault;
use itch_text::AsmFault;
use std::sync::Wait;
use std::test::Fail;
use std::thread::Threads;
use stock_workers::RunFault;
use test_support::{same, same_bytes};

// An engine's input that it can't take, and the fault.
const INPUTS: [(Engine, &[u8], StockFault); 12] = [
    (Engine::Digits, b"0", StockFault::Engine(ProgFault::BadHex)),
    (
        Engine::Digits,
        b"000",
        StockFault::Engine(ProgFault::BadHex),
    ),
    (Engine::Digits, b"0g", StockFault::Engine(ProgFault::BadHex)),
    (Engine::Digits, b"\t", StockFault::Engine(ProgFault::BadHex)),
    (
        Engine::Digits,
        b"00\t00",
        StockFault::Engine(ProgFault::BadHex),
    ),
    (
        Engine::Digits,
        b"00\r",
        StockFault::Engine(ProgFault::BadHex),
    ),
    (Engine::Tops, b"", StockFault::NoStock),
    (Engine::Tops, b"\x00\x01A", StockFault::NoStock),
    (Engine::Watch, b"\x00\x01A", StockFault::NoStock),
    (
        Engine::Assembler,
        b"# a comment\nsistem",
        StockFault::Engine(ProgFault::Asm(AsmFault::Mnemonic(2))),
    ),
    (
        Engine::Assembler,
        b"raw",
        StockFault::Engine(ProgFault::Asm(AsmFault::Field(1))),
    ),
    (
        Engine::Assembler,
        b"end\n\nend",
        StockFault::Engine(ProgFault::Asm(AsmFault::AfterEnd(3))),
    ),
];

// A run of an engine, with what it returns and what it writes.
fn try_run<T: AllocGlobal + Threads + Wait + Sync>(
    rt: &T,
    engine: Engine,
    input: &[u8],
    wanted: Result<u32, StockFault>,
    written: &[u8],
) -> Result<(), Fail> {
    let mut output = Vec::new(rt.alloc());
    let returned = engine.run(rt, rt.alloc(), input, &mut output);
    same("a result", &(engine, returned), &(engine, wanted))?;
    same_bytes("an output", &output, written)
}

#[test]
fn engines_send_nothing_for_a_faulty_input(rt: HostRuntime) -> Result<(), Fail> {
    for (engine, input, fault) in INPUTS {
        try_run(&rt, engine, input, Err(fault), b"")?;
    }
    Ok(())
}

// An empty input is an empty file, or an empty text; of digits also one without any.
#[test]
fn engines_take_an_empty_input(rt: HostRuntime) -> Result<(), Fail> {
    let report =
        b"messages 0 applied 0 passed 0 refused 0 marked no tail 0 event none\n".as_slice();
    let cases: [(Engine, &[u8], &[u8]); 7] = [
        (Engine::Replay, b"", report),
        (Engine::Digits, b"", report),
        (Engine::Digits, b" \n", report),
        (Engine::Digits, b"\n\n   \n", report),
        (Engine::Disassembler, b"", b""),
        (Engine::Stocks, b"", b""),
        (Engine::Assembler, b"", b""),
    ];
    for (engine, input, wanted) in cases {
        try_run(&rt, engine, input, Ok(0), wanted)?;
    }
    Ok(())
}

#[test]
fn statuses_and_words_are_those_of_the_fault(rt: HostRuntime) -> Result<(), Fail> {
    for (refused, wanted) in [(0, 0), (1, 1), (u32::MAX, 1)] {
        same(
            "a status by refused messages",
            &status(&Ok(refused)),
            &wanted,
        )?;
    }
    let faults = [
        (ProgFault::Memory, 4, "no memory"),
        (ProgFault::Read, 3, "read failed"),
        (ProgFault::TooManyBytes, 3, "too many bytes"),
        (ProgFault::TooManyMessages, 3, "too many messages"),
        (ProgFault::BadHex, 3, "bad hex"),
        (ProgFault::Write, 3, "write failed"),
        (ProgFault::Asm(AsmFault::Memory), 4, "no memory"),
        (ProgFault::Asm(AsmFault::Mnemonic(2)), 5, "line 2: mnemonic"),
        (ProgFault::Asm(AsmFault::Field(1)), 5, "line 1: field"),
        (
            ProgFault::Asm(AsmFault::AfterEnd(3)),
            5,
            "line 3: after end",
        ),
    ];
    for (fault, wanted, words) in faults {
        same("a status", &(fault, status(&Err(fault))), &(fault, wanted))?;
        let said = format!(in rt.alloc(); "{fault}")?;
        same("the words of a fault", &said.as_str(), &words)?;
        let engine = StockFault::Engine(fault);
        same(
            "a status of an engine of one stock",
            &engine.status(),
            &wanted,
        )?;
        let said = format!(in rt.alloc(); "{engine}")?;
        same("its words", &said.as_str(), &words)?;
    }
    let said = format!(in rt.alloc(); "{}", StockFault::NoStock)?;
    same(
        "a stock that isn't there",
        &(StockFault::NoStock.status(), said.as_str()),
        &(2, "no such stock"),
    )
}

#[test]
fn faults_have_fixed_numbers(_rt: HostRuntime) -> Result<(), Fail> {
    let loading = [
        LoadFault::Memory,
        LoadFault::Read,
        LoadFault::TooManyBytes,
        LoadFault::TooManyMessages,
    ];
    same("loading", &loading.map(LoadFault::number), &[1, 2, 3, 4])?;
    let assembling = [
        AsmFault::Memory,
        AsmFault::Mnemonic(9),
        AsmFault::Field(9),
        AsmFault::AfterEnd(9),
    ];
    same(
        "assembling",
        &assembling.map(AsmFault::number),
        &[1, 2, 3, 4],
    )?;
    let merging = [
        MergeFault::Memory,
        MergeFault::Double(9),
        MergeFault::Stranger(9),
        MergeFault::Missing(9),
    ];
    same("merging", &merging.map(MergeFault::number), &[1, 2, 3, 4])?;
    let splitting = [SplitFault::Memory, SplitFault::Workers];
    same("splitting", &splitting.map(SplitFault::number), &[1, 2])?;
    let running = [RunFault::Memory, RunFault::Workers];
    same("running", &running.map(RunFault::number), &[1, 2])
}
