//! What checks look at in a message. Where a message has no such field, no check of it looks there.
ghost use Rattle.std.specs.Prelude.{◌≡◌};
ghost use Rattle.refusal_text.specs.Reasons.{broken_in, new_reference_in, printable_in, reference_in, shares_in, side_in, stock_in};

use itch_layouts::Msg;

/// The stock that it names.
pub(crate) fn stock_in(message: &Msg) -> [u8; 8]
    ensures { result ≡ stock_in message.now }
{
    match *message {
        Msg::Directory(_, message) => message.stock,
        Msg::Trading(_, message) => message.stock,
        Msg::Regsho(_, message) => message.stock,
        Msg::Participant(_, message) => message.stock,
        Msg::Collar(_, message) => message.stock,
        Msg::Operational(_, message) => message.stock,
        Msg::Add(_, message) => message.stock,
        Msg::AddMpid(_, message) => message.stock,
        Msg::Trade(_, message) => message.stock,
        Msg::Cross(_, message) => message.stock,
        Msg::Imbalance(_, message) => message.stock,
        Msg::Retail(_, message) => message.stock,
        _ => *b"        ",
    }
}

/// The reference that a new order is to have.
pub(crate) fn new_reference_in(message: &Msg) -> u64
    ensures { result ≡ new_reference_in message.now }
{
    match *message {
        Msg::Add(_, message) => message.reference,
        Msg::AddMpid(_, message) => message.reference,
        Msg::Replace(_, message) => message.new_reference,
        _ => 0,
    }
}

/// The reference of the order that it changes.
pub(crate) fn reference_in(message: &Msg) -> u64
    ensures { result ≡ reference_in message.now }
{
    match *message {
        Msg::Execute(_, message) => message.reference,
        Msg::ExecutePrice(_, message) => message.reference,
        Msg::Cancel(_, message) => message.reference,
        Msg::Delete(_, message) => message.reference,
        Msg::Replace(_, message) => message.reference,
        _ => 0,
    }
}

/// The shares that it takes off an order.
pub(crate) fn shares_in(message: &Msg) -> u32
    ensures { result ≡ shares_in message.now }
{
    match *message {
        Msg::Execute(_, message) => message.shares,
        Msg::ExecutePrice(_, message) => message.shares,
        Msg::Cancel(_, message) => message.shares,
        _ => 0,
    }
}

/// The byte of a side.
pub(crate) fn side_in(message: &Msg) -> u8
    ensures { result ≡ side_in message.now }
{
    match *message {
        Msg::Add(_, message) => message.side,
        Msg::AddMpid(_, message) => message.side,
        Msg::Trade(_, message) => message.side,
        _ => 0,
    }
}

/// The byte that says whether an execution is printed.
pub(crate) fn printable_in(message: &Msg) -> u8
    ensures { result ≡ printable_in message.now }
{
    match *message {
        Msg::ExecutePrice(_, message) => message.printable,
        _ => 0,
    }
}

/// The match number of a trade that it breaks.
pub(crate) fn broken_in(message: &Msg) -> u64
    ensures { result ≡ broken_in message.now }
{
    match *message {
        Msg::Broken(_, message) => message.match_no,
        _ => 0,
    }
}
