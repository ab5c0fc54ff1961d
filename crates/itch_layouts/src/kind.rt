//! What a payload is, by its type and its length.
ghost use Rattle.std.specs.Prelude.{◌≡◌, ◌≢◌, Some, length, slice_index};
ghost use Rattle.itch_layouts.specs.Layouts.{size_of};
ghost use Rattle.itch_layouts.specs.Means.{IsKind};

/// What a payload is, by its type and its length: a message of one of 22 types, or none.
///
/// The fields of a message are read by the function of [`readers`](crate::readers) for its kind. A layout's `kind` is
/// the byte that such messages begin with.
#[derive(Debug, Clone, Copy, PartialEq, Eq)]
pub enum Kind {
    /// A system event message.
    System,
    /// A stock directory message.
    Directory,
    /// A stock trading action message.
    Trading,
    /// A Reg SHO restriction message.
    Regsho,
    /// A market participant position message.
    Participant,
    /// A message of the levels of the market-wide circuit breaker.
    Decline,
    /// A message of a breach of one of these levels.
    Breach,
    /// A quoting period update of an offering.
    Ipo,
    /// An auction collar message.
    Collar,
    /// An operational halt message.
    Operational,
    /// A new order without attribution.
    Add,
    /// A new order with attribution.
    AddMpid,
    /// An execution at the price of the order.
    Execute,
    /// An execution at a price of its own.
    ExecutePrice,
    /// A partial cancellation.
    Cancel,
    /// A deletion.
    Delete,
    /// A replacement.
    Replace,
    /// A trade of an order that is not displayed.
    Trade,
    /// A cross trade.
    Cross,
    /// A broken trade message.
    Broken,
    /// A net order imbalance indicator.
    Imbalance,
    /// A retail price improvement indicator.
    Retail,
    /// The payload is empty, or its first byte is no type that has a layout.
    Unknown,
    /// The type has a layout, and the payload's length isn't its size.
    BadLength,
}

// The kind of a payload whose type has a layout of another size.
fn bad_length(_payload: &[u8], _size: usize) -> Kind
    requires size { size_of (slice_index _payload.now 0) ≡ Some _size }
    requires other { length _payload.now ≢ _size }
    ensures { IsKind _payload.now result }
{
    Kind::BadLength
}

// The kind of a payload whose type has a layout of this size.
macro_rules! sized {
    ($payload:ident $size:literal $kind:ident) => {
        if $payload.len() == $size {
            Kind::$kind
        } else {
            bad_length($payload, $size)
        }
    };
}

/// The kind of a payload of any bytes.
///
/// Nasdaq TotalView-ITCH 5.0, "Message Formats".
#[tactic(auto, using(std::proofs::lemmas::Bool::Decides::nat_tests), unfolding(crate::specs::Layouts::size_of, crate::specs::Layouts::layout_of_kind))]
#[inline(always)]
pub fn kind_of(payload: &[u8]) -> Kind
    ensures { IsKind payload.now result }
{
    let Some(first) = payload.first() else {
        return Kind::Unknown;
    };
    match *first {
        b'S' => sized!(payload 12 System),
        b'R' => sized!(payload 39 Directory),
        b'H' => sized!(payload 25 Trading),
        b'Y' => sized!(payload 20 Regsho),
        b'L' => sized!(payload 26 Participant),
        b'V' => sized!(payload 35 Decline),
        b'W' => sized!(payload 12 Breach),
        b'K' => sized!(payload 28 Ipo),
        b'J' => sized!(payload 35 Collar),
        b'h' => sized!(payload 21 Operational),
        b'A' => sized!(payload 36 Add),
        b'F' => sized!(payload 40 AddMpid),
        b'E' => sized!(payload 31 Execute),
        b'C' => sized!(payload 36 ExecutePrice),
        b'X' => sized!(payload 23 Cancel),
        b'D' => sized!(payload 19 Delete),
        b'U' => sized!(payload 35 Replace),
        b'P' => sized!(payload 44 Trade),
        b'Q' => sized!(payload 40 Cross),
        b'B' => sized!(payload 19 Broken),
        b'I' => sized!(payload 50 Imbalance),
        b'N' => sized!(payload 20 Retail),
        _ => Kind::Unknown,
    }
}
