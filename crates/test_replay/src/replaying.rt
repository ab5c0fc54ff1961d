//! Segments that are replayed one after another.
ghost use Rattle.std.specs.Prelude.{ℕ, List, OnOk};
ghost use Rattle.day_replay.specs.Dealing.{IsDealt};
ghost use Rattle.day_replay.specs.Replays.{HasReplayed};

use binaryfile::Day;
use day_replay::{DealtMessages, Replay, Summary};
use std::alloc::{AllocError, Allocator};
use std::thread::Threads;
use worker_count::WorkerCount;

// Goes on with a replay over segments. Where they have too many messages together, over the first ones alone.
fn go_on_over<R: Threads + Sync, A: Allocator + Copy + Send + Sync>(
    rt: &R,
    alloc: A,
    replay: &mut Replay<A>,
    dealt: &mut DealtMessages<A>,
    segments: &[Day<A>],
    threads: WorkerCount,
) -> Result<(), AllocError>
    requires { (day : List (List ℕ)) × HasReplayed day replay.old }
{
    for segment in segments {
        let before = replay.len();
        if u64::from(before) + u64::from(segment.len()) > u64::from(u32::MAX) {
            break;
        }
        dealt.clear();
        dealt.deal(before, segment)?;
        replay.go_on(rt, alloc, dealt, threads)?;
    }
    Ok(())
}

/// Replays segments by so many threads. Where they have too many messages together, the first ones alone.
pub fn replay_segments<R: Threads + Sync, A: Allocator + Copy + Send + Sync>(
    rt: &R,
    alloc: A,
    segments: &[Day<A>],
    threads: WorkerCount,
) -> Result<Summary<A>, AllocError> {
    let mut dealt = DealtMessages::new(alloc)?;
    let mut replay = Replay::new(alloc)?;
    go_on_over(rt, alloc, &mut replay, &mut dealt, segments, threads)?;
    replay.end(alloc)
}

/// Deals a whole day.
pub fn deal<A: Allocator>(dealt: &mut DealtMessages<A>, day: &Day<A>) -> Result<(), AllocError>
    ensures { OnOk result (IsDealt 0 day.now.payloads dealt.new) }
{
    // For the proof alone: its numbers fit.
    let _messages = day.len();
    dealt.clear();
    dealt.deal(0, day)
}

/// Deals a whole day anew, and replays it by so many threads.
pub fn replay_anew<R: Threads + Sync, A: Allocator + Copy + Send + Sync>(
    rt: &R,
    alloc: A,
    dealt: &mut DealtMessages<A>,
    day: &Day<A>,
    threads: WorkerCount,
) -> Result<Summary<A>, AllocError> {
    deal(dealt, day)?;
    let mut replay = Replay::new(alloc)?;
    replay.go_on(rt, alloc, dealt, threads)?;
    replay.end(alloc)
}
