//! Calls that are tried with each of their growths refused.
use crate::Refusal;
use std::test::Fail;

/// What became of a call that was tried under a refusal.
#[derive(Debug, Clone, Copy, PartialEq, Eq)]
pub struct Tried {
    /// How many growths it asked for, refused ones among them.
    pub growths: u64,
    /// Whether it was refused memory.
    pub refused: bool,
}

impl Tried {
    /// Whether a call may end so: with memory it isn't refused, and where a growth of its own is refused with all after
    /// it, it is. Where a growth is refused alone, it comes to that one, and may do without it.
    pub fn is_allowed(self, refusal: Refusal) -> bool {
        match refusal {
            Refusal::Never => !self.refused,
            Refusal::Only(growth) => growth <= self.growths,
            Refusal::From(growth) => growth <= self.growths && self.refused,
        }
    }
}

// A failure that names the refusal, where a call may not end so.
fn demand(refusal: Refusal, tried: Tried) -> Result<(), Fail> {
    if tried.is_allowed(refusal) {
        Ok(())
    } else {
        Err(Fail::new(format_args!("a call under {refusal:?} isn't to end so: {tried:?}")))
    }
}

/// Tries a call with memory, and then with each of its growths refused, alone and with all after it. Returns how many
/// growths it has with memory, which may be none.
///
/// Each try is an `attempt`: it makes what the call needs anew, makes the call under the refusal, and fails where the
/// result, or what the call leaves, isn't as it must be. A try that ends otherwise than [`Tried::is_allowed`] says is a
/// failure too.
pub fn refuse_any<F: Fn(Refusal) -> Result<Tried, Fail>>(attempt: F) -> Result<u64, Fail>
    requires { F.IsAlwaysCallable attempt }
{
    let whole = attempt(Refusal::Never)?;
    demand(Refusal::Never, whole)?;
    for growth in 1..=whole.growths {
        for refusal in [Refusal::Only(growth), Refusal::From(growth)] {
            demand(refusal, attempt(refusal)?)?;
        }
    }
    Ok(whole.growths)
}

/// As [`refuse_any`], of a call that takes memory: it has one growth at least.
pub fn refuse_each<F: Fn(Refusal) -> Result<Tried, Fail>>(attempt: F) -> Result<u64, Fail>
    requires { F.IsAlwaysCallable attempt }
{
    let growths = refuse_any(attempt)?;
    if growths == 0 {
        return Err(Fail::new("a call that takes memory asks for none"));
    }
    Ok(growths)
}
