//! The laws of the text form.
ghost use Rattle.itch_text.specs.Faults.{HasOneFirstFault};
ghost use Rattle.itch_text.specs.Text.{HasOneMeaning};

/// A text denotes at most one string of bytes.
pub fn one_meaning()
    ensures { HasOneMeaning }
{}

/// A text has at most one first faulty line, and that line has one fault.
pub fn one_first_fault()
    ensures { HasOneFirstFault }
{}
