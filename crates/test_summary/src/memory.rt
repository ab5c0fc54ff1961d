//! Summaries where memory is refused.
use crate::cases::Case;
use crate::reading::summary;
use binaryfile::{Feed, LoadFault};
use std::alloc::Allocator;
use std::test::Fail;
use std::thread::Threads;
use test_refusing::{Refusal, Refusing, Tried, refuse_each};
use test_support::{AMPLE, same, same_bytes};

// Whether memory is refused to the summary of a file. Otherwise it is the one that is wanted.
fn is_refused<T: Threads + Sync, A: Allocator + Copy + Send + Sync>(
    rt: &T,
    alloc: A,
    file: &[u8],
) -> Result<bool, Fail> {
    match summary(rt, alloc, &mut Feed::new(file), AMPLE, 100, 1)? {
        Ok(text) => {
            same_bytes("a summary", &text, Case::Broken.summary())?;
            Ok(false)
        }
        Err(fault) => {
            same("without memory", &fault, &LoadFault::Memory)?;
            Ok(true)
        }
    }
}

// A summary under a refusal.
fn try_refusal<T: AllocGlobal + Threads + Sync>(
    rt: &T,
    file: &[u8],
    refusal: Refusal,
) -> Result<Tried, Fail> {
    let heap = Refusing::new(rt.alloc(), refusal);
    let refused = is_refused(rt, &heap, file)?;
    Ok(heap.tried(refused))
}

// The batches of a replay alone take more growths than there are batches.
#[test]
fn there_is_no_summary_without_memory(rt: HostRuntime) -> Result<(), Fail> {
    let file = Case::Broken.file(rt.alloc())?;
    let growths = refuse_each(|refusal: Refusal| -> Result<Tried, Fail> {
        try_refusal(&rt, &file, refusal)
    })?;
    same("that there are growths", &(growths > 128), &true)
}
