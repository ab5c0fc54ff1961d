//! Replacements that are refused memory.
use crate::replacing::{NEW, OLD, Replaced, expect_file, replace};
use std::fs;
use std::os::unix::fs::symlink;
use std::test::Fail;
use test_refusing::{Refusal, Refusing, Tried, refuse_each};

// Replaces what a link points at. Where memory is refused it is as it was.
fn attempt(rt: &HostRuntime, refusal: Refusal) -> Result<Tried, Fail> {
    fs::write(rt, "refused", OLD)?;
    let heap = Refusing::new(rt.alloc(), refusal);
    let replaced = replace(rt, &heap, "to-refused");
    let tried = heap.tried(replaced == Replaced::RefusedMemory);
    match replaced {
        Replaced::Whole => expect_file(rt, "refused", NEW)?,
        _ => expect_file(rt, "refused", OLD)?,
    }
    Ok(tried)
}

#[test]
fn a_replacement_is_refused_memory(rt: HostRuntime) -> Result<(), Fail> {
    symlink(&rt, "refused", "to-refused")?;
    refuse_each(|refusal| attempt(&rt, refusal))?;
    Ok(())
}
