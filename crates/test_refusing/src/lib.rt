//! An allocator for tests, which refuses chosen growths, and a driver that refuses each growth of a call.
//!
//! A test that runs its code over a [`Refusing`] by [`refuse_each`] runs out of memory at each growth in turn.
#![tactic(auto)]

ghost use Rattle.std.specs.Prelude.{◌≡◌};
ghost use Rattle.test_refusing.specs.Refused.{RefusesBetween, inner_of};

mod trying;

use std::alloc::{AllocError, Allocator};
use std::sync::atomic::{AtomicU64, Ordering};
pub use trying::{Tried, refuse_any, refuse_each};

/// Which growths are refused. Growths are counted from 1.
#[derive(Debug, Clone, Copy, PartialEq, Eq)]
pub enum Refusal {
    /// None.
    Never,
    /// The growth with this number, and no other; none at 0.
    Only(u64),
    /// The growth with this number, and all after it.
    From(u64),
}

/// Passes each growth on to the allocator `B`, but for those that its [`Refusal`] names.
///
/// A growth is a call of `allocate`: the first block of a collection, or a larger one in place of it, since `grow` is
/// the trait's own and takes a new block. Threads may share one by `&Refusing<B>`, and a collection over it may go to
/// another thread, where that holds of `B`.
///
/// ```rust
/// let heap = Refusing::new(rt.alloc(), Refusal::Only(1));
/// let mut list = Vec::new(&heap);
/// assert!(rt; list.push(7).is_err());
/// assert!(rt; list.push(7).is_ok());
/// ```
pub struct Refusing<B: Allocator> {
    inner: B,
    growths: Growths,
}

// How many growths were asked for, and the first and the last that are refused.
#[derive(Drop)]
struct Growths {
    asked: AtomicU64,
    first: AtomicU64,
    last: AtomicU64,
}

impl Refusal {
    // The numbers of the first and of the last growth that are refused: none where the last is below the first.
    fn bounds(self) -> (u64, u64)
        ensures { RefusesBetween self result.0 result.1 }
    {
        match self {
            Refusal::Never => (1, 0),
            Refusal::Only(number) => (number, number),
            Refusal::From(number) => (number, u64::MAX),
        }
    }
}

impl<B: Allocator> Refusing<B> {
    /// An allocator over `inner` that has been asked for nothing yet.
    pub fn new(inner: B, refusal: Refusal) -> Refusing<B>
        ensures { inner_of result ≡ inner }
    {
        let (first, last) = refusal.bounds();
        Refusing {
            inner,
            growths: Growths {
                asked: AtomicU64::new(0),
                first: AtomicU64::new(first),
                last: AtomicU64::new(last),
            },
        }
    }

    /// How many growths were asked for since `new` or the last `restart`, refused ones among them.
    pub fn asked(&self) -> u64 {
        self.growths.asked.load(Ordering::SeqCst)
    }

    /// Counts from 0 again, and refuses by `refusal` from now on. Blocks that were given stay as they are.
    pub fn restart(&self, refusal: Refusal) {
        let (first, last) = refusal.bounds();
        self.growths.first.store(first, Ordering::SeqCst);
        self.growths.last.store(last, Ordering::SeqCst);
        self.growths.asked.store(0, Ordering::SeqCst);
    }

    /// What became of a call, made since `new` or the last `restart`, that was refused memory or wasn't. From now on
    /// none is refused, and growths are counted from 0 again.
    pub fn tried(&self, refused: bool) -> Tried {
        let growths = self.asked();
        self.restart(Refusal::Never);
        Tried { growths, refused }
    }
}

impl<B: Allocator> Drop for Refusing<B> {
    fn drop(self) {
        let Self {
            inner: _,
            growths: _,
        } = self;
    }
}

// Counts one growth, and returns whether it is refused.
fn is_refused(growths: &Growths) -> bool {
    let number = growths.asked.fetch_add(1, Ordering::SeqCst).wrapping_add(1);
    growths.first.load(Ordering::SeqCst) <= number && number <= growths.last.load(Ordering::SeqCst)
}

unsafe impl<B: Allocator> Allocator for Refusing<B> {
    ghost dealloc_token = { λ heap ty ptr. B.dealloc_token (inner_of heap) ty ptr };

    fn allocate(&self, size: usize, align: usize) -> Result<*mut u8, AllocError> {
        if is_refused(&self.growths) {
            return Err(AllocError);
        }
        self.inner.allocate(size, align)
    }

    unsafe fn deallocate(&self, ptr: *mut u8, size: usize, align: usize) {
        self.inner.deallocate(ptr, size, align);
    }
}
