//! What a debugger stops at.
use itch_layouts::Nanos;
use itch_table::Side;
use std::hash::{Hash, Hasher};

/// Where a debugger stops.
#[derive(Debug, Clone, Copy, PartialEq, Eq)]
pub enum Break {
    /// At each message that changes the shares of a stock's level at a side and a price.
    Price {
        /// The stock's locate code.
        locate: u16,
        /// The side of its book.
        side: Side,
        /// The price, in 1/10,000 of a currency unit.
        price: u32,
    },
    /// At each message of a stock that has this order reference in a field `reference` or `new_reference`, whatever its
    /// outcome.
    Reference {
        /// The stock's locate code.
        locate: u16,
        /// The order reference.
        reference: u64,
    },
    /// At the first message of at least this time, whatever its kind.
    Time {
        /// The time.
        time: Nanos,
    },
}

impl Hash for Break {
    ghost use Rattle.std.specs.Cmp.Rules.{hashing};
    ghost use Rattle.std.proofs.Common.{rules};
    ghost use Rattle.debugger.specs.Stops.{hash_words};

    ghost hash_input = { hash_words };

    ghost respects_eq = { Prim.search (hashing, rules) };

    fn hash<H: Hasher>(&self, state: &mut H) {
        match *self {
            Break::Price {
                locate,
                side,
                price,
            } => {
                locate.hash(state);
                matches!(side, Side::Sell).hash(state);
                price.hash(state);
            }
            Break::Reference { locate, reference } => {
                locate.hash(state);
                reference.hash(state);
            }
            Break::Time { time } => time.get().hash(state),
        }
    }
}
