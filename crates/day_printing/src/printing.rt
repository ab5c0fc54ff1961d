//! How the text of a file is made, segment by segment.
ghost use Rattle.std.specs.Prelude.{◌≡◌, ◌+◌, ◌≤◌, ◌-◌, ◌^◌, ◌++◌, ◌↔◌, IfOk, List, length, true, ℕ};
ghost use Rattle.binaryfile.specs.Entries.{Contents, Splits};
ghost use Rattle.day_printing.specs.Printers.{Printer};
ghost use Rattle.day_segments.specs.Reading.{followed_by};
ghost use Rattle.day_segments.specs.Segments.{carry_after};
ghost use Rattle.text_fields.specs.Prefixes.{IsPrefix};

use binaryfile::Day;
use std::alloc::{AllocError, Allocator};

/// How the text of a file is made, segment by segment.
///
/// What was read so far is the file's *beginning*. `first` stands for what a printing was before the first segment.
pub trait Printing<A: Allocator + Copy> {
    /// What it may write.
    ghost printer: { Self → Printer };

    /// What was read so far are these contents, and what was written of them is this text.
    ghost has_printed: { Self → Self → Contents → List ℕ → Type 0 };

    /// The file has ended, and what was written is this text.
    ghost has_ended: { Self → Self → Contents → List ℕ → Type 0 };

    /// Whether the beginning, of so many messages, suffices.
    fn suffices(&self, messages: u64) -> bool
        ensures { (first : Self) (read : Contents) (text : List ℕ) → has_printed first self.now read text
            → messages ≡ length read.payloads → ((result ≡ true) ↔ (printer first).Suffices read) };

    /// What is written of the next segment, which comes after so many messages. After an error, which says that memory was
    /// refused, nothing more is made.
    fn print_segment(
        &mut self,
        alloc: A,
        before: u32,
        segment: &Day<A>,
    ) -> Result<Vec<u8, A>, AllocError>
        requires { (first : Self) × (read : Contents) × (text : List ℕ)
            × has_printed first self.old read text × (before ≡ length read.payloads)
            × (length read.payloads + length segment.now.payloads ≤ 2 ^ 32 - 1) }
        ensures { IfOk result (λ more. (first : Self) (read : Contents) (text given : List ℕ)
            → has_printed first self.old read text → before ≡ length read.payloads
            → Splits (carry_after read ++ given) segment.now
            → has_printed first self.new (followed_by read segment.now) (text ++ more.items)) };

    /// What is written at the file's end, where these bytes were carried over to a next segment.
    fn print_end(&mut self, alloc: A, carried: &[u8]) -> Result<Vec<u8, A>, AllocError>
        ensures { IfOk result (λ more. (first : Self) (read : Contents) (text : List ℕ)
            → has_printed first self.old read text → carried.now ≡ carry_after read
            → has_ended first self.new read (text ++ more.items)) };

    /// A law: what was written begins each right text of a file that goes on, and is all of it where the beginning suffices;
    /// and at the end it is a right text. It does nothing.
    fn texts_go_on(&self)
        ensures leads { (first now : Self) (read next : Contents) (text given whole : List ℕ)
            → has_printed first now read text → Splits (carry_after read ++ given) next
            → (printer first).IsText (followed_by read next) whole → IsPrefix text whole }
        ensures enough { (first now : Self) (read next : Contents) (text given whole : List ℕ)
            → has_printed first now read text → Splits (carry_after read ++ given) next
            → (printer first).Suffices read → (printer first).IsText (followed_by read next) whole
            → text ≡ whole }
        ensures ended { (first now : Self) (read : Contents) (text : List ℕ)
            → has_ended first now read text → (printer first).IsText read text };
}
