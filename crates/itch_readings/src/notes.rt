//! Notes of a stock's messages, which are taken one by one.
ghost use Rattle.std.specs.Prelude.{◌≡◌, ◌-◌, ◌<◌, ◌^◌, ◌++◌, ◌∷◌, List, [], OnOk};
ghost use Rattle.itch_table.specs.declared.outcome.Part.{Part};
ghost use Rattle.itch_table.specs.Parts.{part};
ghost use Rattle.itch_readings.specs.Noting.{NotesNext};
ghost use Rattle.itch_readings.specs.OwnMessages.{OwnMessage, order_named, own_message};

use itch_layouts::{Shape, read_msg};
use itch_table::{Order, Outcome};
use std::alloc::{AllocError, Allocator};
use stock_machine::Stock;

/// Takes note of the messages of a stock, in their order.
pub trait Notes {
    /// How notes come from others by these messages.
    ghost noted: { Self → Self → List OwnMessage → Type 0 };

    /// Takes note of the stock's next message, by its number in the day, its payload, the order that its first reference
    /// named before it, its outcome, and the stock's machine after it. After an error, which says that memory was refused,
    /// the notes are of no use.
    fn note<B: Allocator + Copy>(
        &mut self,
        number: u32,
        payload: &[u8],
        named: Option<Order>,
        outcome: Outcome,
        stock: &Stock<B>,
    ) -> Result<(), AllocError>
        ensures { OnOk result ((first : Self) (before : List OwnMessage) → noted first self.old before
            → noted first self.new (before ++ own_message number payload.now named outcome stock.now ∷ [])) };
}

// The order that the first reference of a payload names, as a stock's machine has it.
fn order_named<A: Allocator + Copy>(stock: &Stock<A>, payload: &[u8]) -> Option<Order>
    ensures { result ≡ order_named stock.now.world stock.now.locate payload.now }
{
    let Shape::Known(message) = read_msg(payload) else {
        return None;
    };
    let (one, other) = message.references();
    match one.or(other) {
        Some(reference) => stock.order(reference),
        None => None,
    }
}

/// Steps a stock's machine by the stock's next message, of this number in the day, and takes note of it. After an error,
/// which says that memory was refused, the notes are of no use.
pub(crate) fn note_next<A: Allocator + Copy, N: Notes>(
    notes: &mut N,
    number: u32,
    payload: &[u8],
    stock: &mut Stock<A>,
) -> Result<(), AllocError>
    requires own { part payload.now ≡ Part.Locate stock.old.locate }
    requires few { stock.old.steps < 2 ^ 32 - 1 }
    ensures { OnOk result
        (NotesNext N.noted number payload.now stock.old stock.new notes.old notes.new) }
{
    let named = order_named(stock, payload);
    let outcome = stock.step(payload)?;
    notes.note(number, payload, named, outcome, stock)
}
