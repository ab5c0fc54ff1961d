//! A session that takes bytes, and sends the answer of each line that they end.
ghost use Rattle.std.specs.Prelude.{◌≡◌, ◌≢◌, ◌++◌, ◌∷◌, [], ℕ, List, Option, Some, Err, IfErr, IsErrOf, OnOk, is_none};
ghost use Rattle.std.specs.Io.KnownBytes.{Appends};
ghost use Rattle.binaryfile.specs.Devices.{HasFailed};
ghost use Rattle.itch_debug.specs.Going.{session_of};
ghost use Rattle.itch_debug.specs.Runs.{EndsEarly, Halts, Stands, Unfinished};
ghost use Rattle.itch_debug.specs.Sessions.{answers, reply_of};

use crate::command::LONGEST_LINE;
use crate::session::{Next, put_answer};
use binaryfile::{Sink, send};
use debugger::Debugger;
use engine_rules::ProgFault;
use std::alloc::Allocator;
use std::io::Write;

// How many bytes of a line are kept: one more than a line may have, so that a longer one is known.
const KEPT: usize = LONGEST_LINE + 1;

/// A session over a day, and the line that has begun.
#[derive(Drop)]
pub(crate) struct Console<'d, A: Allocator> {
    debugger: Debugger<'d, A>,
    next: Next,
    begun: Vec<u8, A>,
}

impl<'d, A: Allocator + Copy> Console<'d, A> {
    /// A session that begins.
    pub fn new(alloc: A, debugger: Debugger<'d, A>) -> Console<'d, A>
        ensures session { session_of result.next result.debugger ≡ Some debugger.entry }
        ensures begun { result.begun.items ≡ [] }
    {
        Console {
            debugger,
            next: Next::Going,
            begun: Vec::new(alloc),
        }
    }

    /// Whether the session is over.
    pub fn is_over(&self) -> bool
        ensures { result ≡ is_none (session_of self.now.next self.now.debugger) }
    {
        matches!(self.next, Next::Over)
    }

    // Answers the line that has begun, and sends the answer.
    fn answer_begun<W: Write>(&mut self, alloc: A, sink: &mut Sink<W>) -> Result<(), ProgFault>
        ensures sent { OnOk result (Appends (W.contents sink.old.device) (W.contents sink.new.device)
            (reply_of (session_of self.old.next self.old.debugger) self.old.begun.items).text) }
        ensures next { OnOk result (session_of self.new.next self.new.debugger
            ≡ (reply_of (session_of self.old.next self.old.debugger) self.old.begun.items).next) }
        ensures begun { OnOk result (self.new.begun.items ≡ self.old.begun.items) }
        ensures err { IfErr result (λ fault.
            Unfinished fault (W.contents sink.old.device) (W.contents sink.new.device)
            (reply_of (session_of self.old.next self.old.debugger) self.old.begun.items).text) }
        ensures write { IsErrOf result ProgFault.Write → HasFailed sink.new }
        ensures for_good { HasFailed sink.old → sink.new ≡ sink.old }
    {
        if let Next::Over = self.next {
            return Ok(());
        }
        let mut text = Vec::new(alloc);
        self.next = put_answer(alloc, &mut text, &mut self.debugger, &self.begun)?;
        send(sink, &text)?;
        Ok(())
    }

    /// Answers the line that has begun, and sends the answer. The next line is empty then.
    pub fn end_line<W: Write>(&mut self, alloc: A, sink: &mut Sink<W>) -> Result<(), ProgFault>
        ensures sent { OnOk result (Appends (W.contents sink.old.device) (W.contents sink.new.device)
            (reply_of (session_of self.old.next self.old.debugger) self.old.begun.items).text) }
        ensures next { OnOk result (session_of self.new.next self.new.debugger
            ≡ (reply_of (session_of self.old.next self.old.debugger) self.old.begun.items).next) }
        ensures begun { OnOk result (self.new.begun.items ≡ []) }
        ensures err { IfErr result (λ fault.
            Unfinished fault (W.contents sink.old.device) (W.contents sink.new.device)
            (reply_of (session_of self.old.next self.old.debugger) self.old.begun.items).text) }
        ensures write { IsErrOf result ProgFault.Write → HasFailed sink.new }
        ensures for_good { HasFailed sink.old → sink.new ≡ sink.old }
    {
        self.answer_begun(alloc, sink)?;
        self.begun.clear();
        Ok(())
    }

    /// Takes a byte, and where it ends a line sends the answer.
    pub fn take_byte<W: Write>(
        &mut self,
        alloc: A,
        sink: &mut Sink<W>,
        byte: u8,
    ) -> Result<(), ProgFault>
        ensures ok { (day : List (List ℕ)) (before : Option (List ℕ)) (commands : List ℕ) →
            Stands day before (W.contents sink.old.device) commands
            (session_of self.old.next self.old.debugger) self.old.begun.items →
            OnOk result (Stands day before (W.contents sink.new.device) (commands ++ byte ∷ [])
            (session_of self.new.next self.new.debugger) self.new.begun.items) }
        ensures err { (day : List (List ℕ)) (before : Option (List ℕ)) (commands : List ℕ) →
            Stands day before (W.contents sink.old.device) commands
            (session_of self.old.next self.old.debugger) self.old.begun.items →
            IfErr result (Halts day before (W.contents sink.new.device) (commands ++ byte ∷ [])) }
        ensures not_read { result ≢ Err ProgFault.Read }
        ensures write { IsErrOf result ProgFault.Write → HasFailed sink.new }
        ensures for_good { HasFailed sink.old → sink.new ≡ sink.old }
    {
        if byte == b'\n' {
            self.end_line(alloc, sink)?;
            return Ok(());
        }
        if self.begun.len() < KEPT {
            self.begun.push(byte)?;
        }
        Ok(())
    }

    /// Takes a piece of the commands, and sends the answer of each line that it ends.
    pub fn take_piece<W: Write>(
        &mut self,
        alloc: A,
        sink: &mut Sink<W>,
        piece: &[u8],
    ) -> Result<(), ProgFault>
        ensures ok { (day : List (List ℕ)) (before : Option (List ℕ)) (commands : List ℕ) →
            Stands day before (W.contents sink.old.device) commands
            (session_of self.old.next self.old.debugger) self.old.begun.items →
            OnOk result (Stands day before (W.contents sink.new.device) (commands ++ piece.now)
            (session_of self.new.next self.new.debugger) self.new.begun.items) }
        ensures err { (day : List (List ℕ)) (before : Option (List ℕ)) (commands : List ℕ) →
            Stands day before (W.contents sink.old.device) commands
            (session_of self.old.next self.old.debugger) self.old.begun.items →
            IfErr result (Halts day before (W.contents sink.new.device) (commands ++ piece.now)) }
        ensures not_read { result ≢ Err ProgFault.Read }
        ensures write { IsErrOf result ProgFault.Write → HasFailed sink.new }
        ensures for_good { HasFailed sink.old → sink.new ≡ sink.old }
    {
        for byte in piece {
            self.take_byte(alloc, sink, *byte)?;
        }
        Ok(())
    }

    /// Answers the line that has begun, which is the last, and sends the answer: then all commands are answered.
    pub fn finish<W: Write>(&mut self, alloc: A, sink: &mut Sink<W>) -> Result<(), ProgFault>
        ensures ok { (day : List (List ℕ)) (before : Option (List ℕ)) (commands : List ℕ) →
            Stands day before (W.contents sink.old.device) commands
            (session_of self.old.next self.old.debugger) self.old.begun.items →
            OnOk result (Appends before (W.contents sink.new.device) (answers day commands)) }
        ensures err { (day : List (List ℕ)) (before : Option (List ℕ)) (commands : List ℕ) →
            Stands day before (W.contents sink.old.device) commands
            (session_of self.old.next self.old.debugger) self.old.begun.items →
            IfErr result (EndsEarly day before (W.contents sink.new.device) commands) }
        ensures write { IsErrOf result ProgFault.Write → HasFailed sink.new }
        ensures for_good { HasFailed sink.old → sink.new ≡ sink.old }
    {
        self.end_line(alloc, sink)
    }
}
