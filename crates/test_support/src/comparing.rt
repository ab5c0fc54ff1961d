//! Comparisons that name the case.
use std::fmt::Debug;
use std::test::Fail;

/// A failure that names the case and shows both values, where what was found isn't what is wanted.
pub fn same<T: PartialEq + Debug>(case: &str, found: &T, wanted: &T) -> Result<(), Fail> {
    if found == wanted {
        Ok(())
    } else {
        Err(Fail::new(format_args!("{case}: found {found:?} and not {wanted:?}")))
    }
}

/// As [`same`], of lists.
pub fn same_list<T: PartialEq + Debug>(case: &str, found: &[T], wanted: &[T]) -> Result<(), Fail> {
    if found == wanted {
        Ok(())
    } else {
        Err(Fail::new(format_args!("{case}: found {found:?} and not {wanted:?}")))
    }
}

/// As [`same`], of strings of bytes, of which it shows the lengths and the first index at which they differ.
pub fn same_bytes(case: &str, found: &[u8], wanted: &[u8]) -> Result<(), Fail> {
    if found == wanted {
        return Ok(());
    }
    let mut index = 0u64;
    for (one, other) in found.iter().zip(wanted) {
        if one != other {
            break;
        }
        index = index.wrapping_add(1);
    }
    Err(Fail::new(format_args!(
        "{case}: found {} bytes and not {}, which differ first at byte {index}, counted from 0",
        found.len(),
        wanted.len()
    )))
}
