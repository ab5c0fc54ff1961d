//! Compares the machines over each day file that is named, and for the word `random` over days at random. It prints a
//! line for each file and some for the days at random, and ends with status 1 where two differ.
#![tactic(auto)]

use std::env;
use std::rt::Runtime;
use std::sync::Wait;
use std::test::Fail;
use std::thread::Threads;
use test_machines::{compare_file, compare_random};

// Does what each argument asks for, up to the first difference.
fn run<R: Runtime + AllocGlobal + Threads + Wait + Sync>(rt: &R) -> Result<(), Fail> {
    let Ok(arguments) = env::args(rt) else {
        return Err(Fail::new("the arguments can't be read"));
    };
    for argument in arguments.skip(1) {
        if argument.as_str() == "random" {
            compare_random(rt)?;
        } else {
            compare_file(rt, &argument)?;
        }
    }
    Ok(())
}

fn main(rt: HostRuntime) -> Result<(), Fail> {
    run(&rt)
}
