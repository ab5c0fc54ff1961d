//! The engine of a debugging session.
ghost use Rattle.std.specs.Prelude.{◌≡◌, ◌≤◌, ◌<◌, ◌-◌, [], ℕ, List, Option, length, vec_len, false, None, Ok, Some, IfErr, IfOk, IsErrOf, OnOk};
ghost use Rattle.std.specs.Io.KnownBytes.{IsAtEnd};
ghost use Rattle.binaryfile.specs.Devices.{HasFailed};
ghost use Rattle.itch_debug.specs.Going.{session_of};
ghost use Rattle.itch_debug.specs.Runs.{Answers, Fails, Faults, Serves, ServesAll, most_command_bytes};
ghost use Rattle.itch_debug.specs.Sessions.{start};

use crate::console::Console;
use binaryfile::{Day, Feed, Sink};
use debugger::Debugger;
use engine_rules::ProgFault;
use std::alloc::{AllocError, Allocator};
use std::io::{Read, Write};

// The most bytes of commands: 2^30.
const MOST_COMMAND_BYTES: u64 = 1 << 30;

// How many messages of a stock lie at least from one copy of its machine to the next.
const EVERY: u32 = 1000;

// The reader is asked for at most this number of bytes at once.
const PIECE: usize = 1 << 13;

// The debugger of a session that begins.
fn begin<'d, A: Allocator + Copy>(alloc: A, day: &'d Day<A>) -> Result<Debugger<'d, A>, AllocError>
    ensures { IfOk result (λ debugger. Some debugger ≡ start day.now.payloads) }
{
    Debugger::new(alloc, day, EVERY)
}

// Room for the bytes of one read.
fn piece_room<A: Allocator>(alloc: A) -> Result<Vec<u8, A>, AllocError>
    ensures { IfOk result (λ piece. 0 < vec_len piece) }
{
    Vec::from_elem(alloc, 0, PIECE)
}

// Reads once, and sends the answers of the lines that have come in whole. It returns how many bytes came, and refuses
// more than `left`.
fn serve_piece<A: Allocator + Copy, R: Read, W: Write>(
    alloc: A,
    console: &mut Console<'_, A>,
    piece: &mut [u8],
    left: u64,
    feed: &mut Feed<R>,
    sink: &mut Sink<W>,
) -> Result<u64, ProgFault>
    requires { 0 < length piece.old }
    ensures ok { (day : List (List ℕ)) (unread before : Option (List ℕ)) →
        Serves day unread (R.remaining feed.old.device) before (W.contents sink.old.device)
        (session_of console.old.next console.old.debugger) console.old.begun.items left →
        IfOk result (λ count.
        Serves day unread (R.remaining feed.new.device) before (W.contents sink.new.device)
        (session_of console.new.next console.new.debugger) console.new.begun.items (left - count)) }
    ensures within { IfOk result (λ count. count ≤ left) }
    ensures err { (day : List (List ℕ)) (unread before : Option (List ℕ)) →
        Serves day unread (R.remaining feed.old.device) before (W.contents sink.old.device)
        (session_of console.old.next console.old.debugger) console.old.begun.items left →
        IfErr result (Faults day unread (R.remaining feed.new.device) before (W.contents sink.new.device)
        feed.new.failed) }
    ensures end { result ≡ Ok 0 → IsAtEnd (R.remaining feed.new.device) }
    ensures working { OnOk result (feed.new.failed ≡ false) }
    ensures write { IsErrOf result ProgFault.Write → HasFailed sink.new }
    ensures for_good { HasFailed sink.old → sink.new ≡ sink.old }
{
    let Ok(count) = feed.read(piece) else {
        return Err(ProgFault::Read);
    };
    if count as u64 > left {
        return Err(ProgFault::Read);
    }
    console.take_piece(alloc, sink, &piece[..count])?;
    Ok(count as u64)
}

// Serves the commands piece by piece, to their end or to one that ends the session. `room` takes the bytes of a read.
fn serve<A: Allocator + Copy, R: Read, W: Write>(
    alloc: A,
    console: &mut Console<'_, A>,
    room: &mut [u8],
    feed: &mut Feed<R>,
    sink: &mut Sink<W>,
) -> Result<(), ProgFault>
    requires room { 0 < length room.old }
    requires working { feed.old.failed ≡ false }
    ensures ok { (day : List (List ℕ)) (unread before : Option (List ℕ)) →
        Serves day unread (R.remaining feed.old.device) before (W.contents sink.old.device)
        (session_of console.old.next console.old.debugger) console.old.begun.items most_command_bytes →
        OnOk result (ServesAll day unread (R.remaining feed.new.device) before (W.contents sink.new.device)
        (session_of console.new.next console.new.debugger) console.new.begun.items) }
    ensures err { (day : List (List ℕ)) (unread before : Option (List ℕ)) →
        Serves day unread (R.remaining feed.old.device) before (W.contents sink.old.device)
        (session_of console.old.next console.old.debugger) console.old.begun.items most_command_bytes →
        IfErr result (Faults day unread (R.remaining feed.new.device) before (W.contents sink.new.device)
        feed.new.failed) }
    ensures working { OnOk result (feed.new.failed ≡ false) }
    ensures write { IsErrOf result ProgFault.Write → HasFailed sink.new }
    ensures for_good { HasFailed sink.old → sink.new ≡ sink.old }
{
    let mut left = MOST_COMMAND_BYTES;
    'pieces: while !console.is_over() {
        let count = serve_piece(alloc, console, room, left, feed, sink)?;
        if count == 0 {
            return Ok(());
        }
        left -= count;
    }
    Ok(())
}

/// Debugs a day: answers the commands that a feed gives, line by line, to their end or to `quit`. The answers of the
/// lines that have come in whole are sent before the feed is asked for more.
///
/// An error is [`ProgFault::Read`] where the feed has failed or gave more than [`MOST_COMMAND_BYTES`],
/// [`ProgFault::Write`] where the sink has failed, or [`ProgFault::Memory`]. What was sent then is a prefix of the
/// answers, and after `Read` and `Memory` no part of an answer; where the feed has failed, it is the answers of all
/// lines that came in whole.
pub fn debug_run<A: Allocator + Copy, R: Read, W: Write>(
    alloc: A,
    day: &Day<A>,
    commands: &mut Feed<R>,
    sink: &mut Sink<W>,
) -> Result<(), ProgFault>
    ensures ok { OnOk result (Answers day.now.payloads
        (R.remaining commands.old.device) (R.remaining commands.new.device)
        (W.contents sink.old.device) (W.contents sink.new.device)) }
    ensures err { IfErr result (Fails day.now.payloads
        (R.remaining commands.old.device) (R.remaining commands.new.device)
        (W.contents sink.old.device) (W.contents sink.new.device) commands.new.failed) }
    ensures working { OnOk result (commands.new.failed ≡ false) }
    ensures write { IsErrOf result ProgFault.Write → HasFailed sink.new }
    ensures for_good { HasFailed sink.old → sink.new ≡ sink.old }
{
    if commands.failed() {
        return Err(ProgFault::Read);
    }
    let mut room = piece_room(alloc)?;
    let debugger = begin(alloc, day)?;
    let mut console = Console::new(alloc, debugger);
    serve(alloc, &mut console, &mut room, commands, sink)?;
    console.finish(alloc, sink)
}
