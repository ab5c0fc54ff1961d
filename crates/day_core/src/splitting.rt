//! A day, split into the parts of its workers.
ghost use Rattle.std.specs.Prelude.{◌≡◌, ◌<◌, ◌⊎◌, ◌↔◌, IfOk, IsErrOf};
ghost use Rattle.day_core.specs.FaultNumbers.{split_number};
ghost use Rattle.day_core.specs.Splitting.{ArePartsOf};
ghost use Rattle.day_core.specs.declared.splitting.SplitFault.TheVariants.{Memory};

use crate::dealing::{deal, whose_messages};
use crate::parts::Parts;
use binaryfile::Day;
use std::alloc::{AllocError, Allocator};
use std::thread::Threads;
use worker_count::WorkerCount;

/// Why a day isn't split.
#[derive(Debug, Clone, Copy, PartialEq, Eq)]
pub enum SplitFault {
    /// Memory was refused.
    Memory,
    /// The number of workers isn't from 1 to 64.
    Workers,
}

impl SplitFault {
    /// The fault's fixed number, from 1 to 2.
    pub fn number(self) -> u8
        ensures { result ≡ split_number self }
    {
        match self {
            SplitFault::Memory => 1,
            SplitFault::Workers => 2,
        }
    }
}

impl From<AllocError> for SplitFault {
    ghost from_gives = { λ _ fault. fault ≡ Memory };

    fn from(_error: AllocError) -> SplitFault {
        SplitFault::Memory
    }
}

/// Splits a day into parts for this many workers, from 1 to 64. Threads look whose each message is, and then one thread
/// deals the messages.
///
/// [`SplitFault::Workers`] where the number is another, which is looked at first, and else [`SplitFault::Memory`] where
/// memory is refused; there are no parts after a fault.
pub fn split<R: Threads + Sync, A: Allocator + Copy + Send + Sync>(
    rt: &R,
    alloc: A,
    day: &Day<A>,
    workers: u32,
) -> Result<Parts<A>, SplitFault>
    ensures parts { IfOk result (ArePartsOf day.now.payloads) }
    ensures count { IfOk result (λ parts. parts.workers ≡ workers) }
    ensures workers { IsErrOf result SplitFault.Workers ↔ ((workers ≡ 0) ⊎ (64 < workers)) }
{
    let Some(workers) = WorkerCount::new(workers) else {
        return Err(SplitFault::Workers);
    };
    let whose = whose_messages(rt, alloc, day)?;
    Ok(deal(alloc, day, &whose, workers)?)
}
