//! Replaying a file while it is read.
ghost use Rattle.std.specs.Prelude.{◌≡◌, ◌+◌, ◌<◌, ◌≤◌, ◌^◌, ◌↔◌, [], IfErr, IfOk, IsErrOf, List, OnOk, Option, ℕ, length};
ghost use Rattle.std.specs.Thread.{IsSend, IsSync};
ghost use denote.Param.Send.{Frees};
ghost use Rattle.binaryfile.specs.Devices.{GaveUpTo, HasFailed};
ghost use Rattle.binaryfile.specs.Entries.{Contents};
ghost use Rattle.day_segments.specs.Reading.{Stops, nothing_read};
ghost use Rattle.day_replay.specs.Dealing.{IsDealt};
ghost use Rattle.day_replay.specs.Replays.{HasReplayed};
ghost use Rattle.file_replay.specs.Files.{DealsNext, HasReplayedWhole, IsReplayedFile, IsSoFar, ReplaysDealt};

use crate::file_reader::FileReader;
use crate::progress::Progress;
use binaryfile::{Feed, Limits, LoadFault};
use day_replay::{DealtMessages, Replay, Summary};
use std::alloc::{AllocError, Allocator};
use std::io::Read;
use std::mem;
use std::thread::{Threads, join_mut};
use worker_count::WorkerCount;

/// What a whole file makes, in short.
#[derive(Drop)]
pub struct FileSummary<A: Allocator> {
    /// What its messages make.
    pub summary: Summary<A>,
    /// Whether the file has an end marker.
    pub marked: bool,
    /// How many bytes come after the marker, or after the last entry.
    pub tail: u64,
}

// Replays what was dealt, by so many threads, while the next segments are read and dealt. It returns how each ended.
fn go_on<T: Threads + Sync, A: Allocator + Copy + Send + Sync, R: Read + Send>(
    rt: &T,
    alloc: A,
    feed: &mut Feed<R>,
    file: &mut FileReader<A>,
    dealt: &DealtMessages<A>,
    next: &mut DealtMessages<A>,
    replay: &mut Replay<A>,
    threads: WorkerCount,
) -> (Result<(), AllocError>, Result<bool, LoadFault>)
    requires file { (start : Option (List ℕ)) × (before : Contents)
        × IsSoFar start (R.remaining feed.old.device) before file.old }
    requires replay { (day payloads : List (List ℕ)) × HasReplayed day replay.old
        × IsDealt (length day) payloads dealt.now }
    ensures replay { ReplaysDealt replay.old replay.new dealt.now result.0 }
    ensures deals { DealsNext R.remaining feed.old feed.new file.old file.new next.new result.1 }
{
    let reader_alloc = alloc;
    let mut work = || -> Result<(), AllocError>
        requires { IsSync T.row × IsSend A.row × IsSync A.row × Frees A.Allocator A.dealloc_token
            × (day payloads : List (List ℕ)) × HasReplayed day replay.now
            × IsDealt (length day) payloads dealt.now }
        ensures { ReplaysDealt replay.entry.now replay.exit.now dealt.entry.now result }
    { replay.go_on(rt, alloc, dealt, threads) };
    let mut read = || -> Result<bool, LoadFault>
        requires { (start : Option (List ℕ)) × (before : Contents)
            × IsSoFar start (R.remaining feed.now.device) before file.now }
        ensures { DealsNext R.remaining feed.entry.now feed.exit.now
            file.entry.now file.exit.now next.exit.now result }
    { file.deal_next(reader_alloc, feed, next) };
    join_mut(rt, &mut work, &mut read)
}

// Replays a file from its first byte to its end: what was dealt, while the next messages are read and dealt.
fn replay_whole<T, A, R, P>(
    rt: &T,
    alloc: A,
    feed: &mut Feed<R>,
    file: &mut FileReader<A>,
    replay: &mut Replay<A>,
    threads: WorkerCount,
    progress: &P,
) -> Result<(), LoadFault>
where
    T: Threads + Sync,
    A: Allocator + Copy + Send + Sync,
    R: Read + Send,
    P: Progress,
    requires file { IsSoFar (R.remaining feed.old.device) (R.remaining feed.old.device) nothing_read file.old }
    requires replay { HasReplayed [] replay.old }
    requires works { ¬ HasFailed feed.old }
    ensures replayed { OnOk result (HasReplayedWhole (R.remaining feed.old.device) (R.remaining feed.new.device)
        file.old.reading.most file.old.limit file.new.end replay.new) }
    ensures fault { IfErr result (Stops (R.remaining feed.old.device) (R.remaining feed.new.device)
        file.old.reading.most file.old.limit) }
    ensures failed { IsErrOf result LoadFault.Read ↔ HasFailed feed.new }
    ensures taken { GaveUpTo (R.remaining feed.old.device) (R.remaining feed.new.device)
        (file.old.reading.most + 1) }
{
    let mut dealt = DealtMessages::new(alloc)?;
    let mut next = DealtMessages::new(alloc)?;
    let mut more = file.deal_next(alloc, feed, &mut dealt)?;
    while more {
        let (worked, read) = go_on(rt, alloc, feed, file, &dealt, &mut next, replay, threads);
        more = read?;
        worked?;
        mem::swap(&mut dealt, &mut next);
        progress.at(replay.len(), file.bytes());
    }
    Ok(())
}

/// Replays a day file by at most so many threads, while one more reads it. `segment` is how many bytes a segment takes, 1
/// to 2^30; threads replay up to 16 segments together, and each time `progress` is told how far it is.
///
/// No file is refused for its form. In the course of reading the first of these is returned: [`LoadFault::Read`] where the
/// feed fails (at once, and with no memory, where it had failed before), [`LoadFault::Memory`] where memory is refused,
/// [`LoadFault::TooManyBytes`] where the reader gave more than `limits.bytes` bytes, which are no more than 2^40, and
/// [`LoadFault::TooManyMessages`], once the whole input was read, where it has more than `limits.messages` messages.
/// Whatever the result, at most `limits.bytes + 1` bytes are taken from the reader. After a read that gave no byte it may be
/// asked up to two times more.
pub fn replay_file<T, A, R, P>(
    rt: &T,
    alloc: A,
    feed: &mut Feed<R>,
    limits: Limits,
    segment: u32,
    threads: WorkerCount,
    progress: &P,
) -> Result<FileSummary<A>, LoadFault>
where
    T: Threads + Sync,
    A: Allocator + Copy + Send + Sync,
    R: Read + Send,
    P: Progress,
    requires bytes { limits.bytes ≤ 2 ^ 40 }
    requires segment { (0 < segment) × (segment ≤ 2 ^ 30) }
    ensures replayed { IfOk result (λ made. IsReplayedFile
        (R.remaining feed.old.device) (R.remaining feed.new.device) limits.bytes limits.messages made) }
    ensures fault { IfErr result (
        Stops (R.remaining feed.old.device) (R.remaining feed.new.device) limits.bytes limits.messages) }
    ensures failed { IsErrOf result LoadFault.Read ↔ HasFailed feed.new }
    ensures for_good { HasFailed feed.old → feed.new ≡ feed.old }
    ensures taken { GaveUpTo (R.remaining feed.old.device) (R.remaining feed.new.device) (limits.bytes + 1) }
{
    if feed.failed() {
        return Err(LoadFault::Read);
    }
    let mut file = FileReader::new(alloc, segment, limits);
    let mut replay = Replay::new(alloc)?;
    replay_whole(rt, alloc, feed, &mut file, &mut replay, threads, progress)?;
    let end = file.end();
    Ok(FileSummary {
        summary: replay.end(alloc)?,
        marked: end.marked,
        tail: end.tail,
    })
}
