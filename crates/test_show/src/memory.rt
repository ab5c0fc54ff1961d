//! Stocks that are shown where memory is refused.
use crate::worked::{MSFT_AT_7, file, show, symbol};
use binaryfile::Feed;
use engine_rules::ProgFault;
use itch_readings::StockFault;
use itch_show::Place;
use std::alloc::Allocator;
use std::test::Fail;
use test_refusing::{Refusal, Refusing, Tried, refuse_each};
use test_support::{AMPLE, MSFT, same, same_bytes};

// Whether memory is refused to what is shown of a file. Otherwise it is what is wanted.
fn is_refused<A: Allocator + Copy>(alloc: A, file: &[u8]) -> Result<bool, Fail> {
    let (mut feed, mut again) = (Feed::new(file), Feed::new(file));
    match show(
        alloc,
        &mut feed,
        &mut again,
        AMPLE,
        100,
        symbol(MSFT),
        Place::After(7),
    )? {
        Ok(text) => {
            same_bytes("what is shown", &text, MSFT_AT_7)?;
            Ok(false)
        }
        Err(fault) => {
            let refused = StockFault::Engine(ProgFault::Memory);
            same(
                "without memory",
                &(fault, feed.failed(), again.failed()),
                &(refused, false, false),
            )?;
            Ok(true)
        }
    }
}

#[test]
fn nothing_is_shown_without_memory(rt: HostRuntime) -> Result<(), Fail> {
    let file = file(rt.alloc())?;
    let growths = refuse_each(|refusal: Refusal| -> Result<Tried, Fail> {
        let heap = Refusing::new(rt.alloc(), refusal);
        let refused = is_refused(&heap, &file)?;
        Ok(heap.tried(refused))
    })?;
    same("that there are growths", &(growths > 8), &true)
}
