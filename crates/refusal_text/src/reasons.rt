//! The line of a refusal.
ghost use Rattle.std.specs.Prelude.{◌≡◌, ◌++◌, decimal};
ghost use Rattle.byte_strings.specs.Extending.{Extends};
ghost use Rattle.refusal_text.specs.Reasons.{deed_of, fault_name, kind_in, neither, other_stock, reason, reason_by, refusal_line, refusal_lines, wrong_length};
ghost use Rattle.itch_layouts.specs.Shapes.{shape_of};

use crate::before::Before;
use crate::fields::{
    broken_in, new_reference_in, printable_in, reference_in, shares_in, side_in, stock_in,
};
use itch_layouts::{Msg, Shape, read_msg, size_of_kind};
use itch_table::{Fault, Outcome};
use std::alloc::{AllocError, Allocator};
use text_fields::{put_count, put_number, put_quoted};

// The name of a fault.
fn name_of(fault: Fault) -> &'static [u8]
    ensures { result.now ≡ fault_name fault }
{
    match fault {
        Fault::WrongLength => b"WrongLength",
        Fault::NoDirectory => b"NoDirectory",
        Fault::StockDiffers => b"StockDiffers",
        Fault::LocateTaken => b"LocateTaken",
        Fault::ReferenceInUse => b"ReferenceInUse",
        Fault::ReferenceUnknown => b"ReferenceUnknown",
        Fault::BadSide => b"BadSide",
        Fault::ZeroShares => b"ZeroShares",
        Fault::TooManyShares => b"TooManyShares",
        Fault::BadPrintable => b"BadPrintable",
        Fault::NoTrade => b"NoTrade",
        Fault::ReferenceSpent => b"ReferenceSpent",
    }
}

// Adds a number between words.
fn put_between<A: Allocator>(
    text: &mut Vec<u8, A>,
    first: &[u8],
    number: u64,
    last: &[u8],
) -> Result<(), AllocError>
    ensures { Extends text.old text.new (first.now ++ decimal number ++ last.now) result }
{
    put_count(text, first, number)?;
    text.extend_from_slice(last)
}

// Adds that a message names one stock, and its locate code has another.
fn put_other_stock<A: Allocator>(
    text: &mut Vec<u8, A>,
    message: &Msg,
    before: Before,
) -> Result<(), AllocError>
    ensures { Extends text.old text.new (other_stock message.now before) result }
{
    text.extend_from_slice(b"stock ")?;
    put_quoted(text, &stock_in(message))?;
    put_count(text, b", and locate code ", message.head().locate)?;
    text.extend_from_slice(b" is ")?;
    put_quoted(text, &before.symbol)
}

// Adds that a byte isn't one of two.
fn put_neither<A: Allocator>(
    text: &mut Vec<u8, A>,
    field: &[u8],
    byte: u8,
    others: &[u8],
) -> Result<(), AllocError>
    ensures { Extends text.old text.new (neither field.now byte others.now) result }
{
    text.extend_from_slice(field)?;
    put_quoted(text, &[byte])?;
    text.extend_from_slice(b", which is neither ")?;
    text.extend_from_slice(others)
}

// What a message does with the shares that it takes off an order.
fn deed_of(message: &Msg) -> &'static [u8]
    ensures { result.now ≡ deed_of message.now }
{
    match message {
        Msg::Cancel(_, _) => b" shares cancelled of order ",
        _ => b" shares executed of order ",
    }
}

// Adds that a message takes more shares off an order than it has.
fn put_too_many_shares<A: Allocator>(
    text: &mut Vec<u8, A>,
    message: &Msg,
    before: Before,
) -> Result<(), AllocError>
    ensures { Extends text.old text.new (reason Fault.TooManyShares message.now before) result }
{
    put_number(text, shares_in(message))?;
    put_between(
        text,
        deed_of(message),
        reference_in(message),
        b", which has ",
    )?;
    put_number(text, before.shares)?;
    Ok(())
}

// Adds why a message is refused that has its type's length.
fn put_reason<A: Allocator>(
    text: &mut Vec<u8, A>,
    fault: Fault,
    message: &Msg,
    before: Before,
) -> Result<(), AllocError>
    ensures { Extends text.old text.new (reason fault message.now before) result }
{
    let (new, old) = (new_reference_in(message), reference_in(message));
    match fault {
        Fault::WrongLength => Ok(()),
        Fault::NoDirectory => {
            let locate = u64::from(message.head().locate);
            put_between(
                text,
                b"locate code ",
                locate,
                b" has no directory message before it",
            )
        }
        Fault::StockDiffers | Fault::LocateTaken => put_other_stock(text, message, before),
        Fault::ReferenceInUse => put_between(text, b"order ", new, b" lives"),
        Fault::ReferenceUnknown => put_between(text, b"no order ", old, b" lives"),
        Fault::BadSide => put_neither(text, b"side ", side_in(message), b"\"B\" nor \"S\""),
        Fault::ZeroShares => put_between(text, b"order ", new, b" would have no shares"),
        Fault::TooManyShares => put_too_many_shares(text, message, before),
        Fault::BadPrintable => {
            put_neither(
                text,
                b"printable ",
                printable_in(message),
                b"\"Y\" nor \"N\"",
            )
        }
        Fault::NoTrade => put_count(
            text,
            b"no unbroken trade has match number ",
            broken_in(message),
        ),
        Fault::ReferenceSpent => put_between(text, b"an earlier order had reference ", new, b""),
    }
}

// The type of a payload, its first byte; 0 where it is empty.
fn kind_in(payload: &[u8]) -> u8
    ensures { result ≡ kind_in payload.now }
{
    match payload.first() {
        Some(kind) => *kind,
        None => 0,
    }
}

// Adds why a payload is refused that hasn't its type's length.
fn put_wrong_length<A: Allocator>(text: &mut Vec<u8, A>, payload: &[u8]) -> Result<(), AllocError>
    ensures { Extends text.old text.new (wrong_length payload.now) result }
{
    let kind = kind_in(payload);
    text.extend_from_slice(b"a message of type ")?;
    text.push(kind)?;
    let size = u64::from(size_of_kind(kind).unwrap_or(0));
    put_between(text, b" has ", size, b" bytes, and this one ")?;
    put_number(text, payload.len())?;
    Ok(())
}

// Adds why a payload is refused.
fn put_reason_of<A: Allocator>(
    text: &mut Vec<u8, A>,
    fault: Fault,
    payload: &[u8],
    before: Before,
) -> Result<(), AllocError>
    ensures { Extends text.old text.new (reason_by (shape_of payload.now) fault payload.now before) result }
{
    match read_msg(payload) {
        Shape::Known(message) => put_reason(text, fault, &message, before),
        _ => put_wrong_length(text, payload),
    }
}

// Adds the line of a fault.
fn put_fault<A: Allocator>(
    text: &mut Vec<u8, A>,
    fault: Fault,
    payload: &[u8],
    before: Before,
) -> Result<(), AllocError>
    ensures { Extends text.old text.new (refusal_line fault payload.now before) result }
{
    put_count(text, b"F", fault.number())?;
    text.push(b' ')?;
    text.extend_from_slice(name_of(fault))?;
    text.extend_from_slice(b": ")?;
    put_reason_of(text, fault, payload, before)?;
    text.push(b'\n')?;
    Ok(())
}

/// Adds why a payload was refused, by its outcome; nothing where it wasn't. `before` is what the payload's stock had before it.
pub fn put_refusal<A: Allocator>(
    text: &mut Vec<u8, A>,
    outcome: Outcome,
    payload: &[u8],
    before: Before,
) -> Result<(), AllocError>
    ensures { Extends text.old text.new (refusal_lines outcome payload.now before) result }
{
    match outcome {
        Outcome::Refused(fault) => put_fault(text, fault, payload, before),
        _ => Ok(()),
    }
}
