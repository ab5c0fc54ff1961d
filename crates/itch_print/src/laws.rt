//! The law of the text that is written for a file.
ghost use Rattle.itch_print.specs.Disassembly.{DisassemblyDenotes};

/// The text that is written for a file denotes the file's bytes, whatever they are.
#[tactic(auto, using(crate::proofs::PrintedFiles::disassembly_denotes))]
pub fn disassembly_denotes()
    ensures { DisassemblyDenotes }
{}
