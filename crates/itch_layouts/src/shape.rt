//! The shape of a payload, and the message that it means.
ghost use Rattle.std.specs.Prelude.{◌≡◌};
ghost use Rattle.itch_layouts.specs.Encoding.{Fits};
ghost use Rattle.itch_layouts.specs.Means.{Means, Reads};
ghost use Rattle.itch_layouts.specs.Shapes.{shape_of};
ghost use Rattle.itch_layouts.specs.declared.message.Msg.{Msg};

use crate::kind::{Kind, kind_of};
use crate::message::Msg;
use crate::readers;

/// What a payload is.
#[derive(Debug, Clone, Copy, PartialEq, Eq)]
pub enum Shape {
    /// The one message that the payload means.
    Known(Msg),
    /// The payload is empty, or its first byte is no type that has a layout.
    Unknown,
    /// The type has a layout, and the payload's length isn't its size.
    BadLength,
}

// The shape of a payload of this kind, whose fields are read by its reader.
macro_rules! known {
    ($payload:ident $reader:ident $message:ident) => {{
        let (head, message) = readers::$reader($payload);
        Shape::Known(Msg::$message(head, message))
    }};
}

// The shape of a payload.
fn read_shape(payload: &[u8]) -> Shape
    ensures { Reads payload.now result }
{
    match kind_of(payload) {
        Kind::Unknown => Shape::Unknown,
        Kind::BadLength => Shape::BadLength,
        Kind::System => known!(payload system_of System),
        Kind::Directory => known!(payload directory_of Directory),
        Kind::Trading => known!(payload trading_of Trading),
        Kind::Regsho => known!(payload regsho_of Regsho),
        Kind::Participant => known!(payload participant_of Participant),
        Kind::Decline => known!(payload decline_of Decline),
        Kind::Breach => known!(payload breach_of Breach),
        Kind::Ipo => known!(payload ipo_of Ipo),
        Kind::Collar => known!(payload collar_of Collar),
        Kind::Operational => known!(payload operational_of Operational),
        Kind::Add => known!(payload add_of Add),
        Kind::AddMpid => known!(payload add_mpid_of AddMpid),
        Kind::Execute => known!(payload execute_of Execute),
        Kind::ExecutePrice => known!(payload execute_price_of ExecutePrice),
        Kind::Cancel => known!(payload cancel_of Cancel),
        Kind::Delete => known!(payload delete_of Delete),
        Kind::Replace => known!(payload replace_of Replace),
        Kind::Trade => known!(payload trade_of Trade),
        Kind::Cross => known!(payload cross_of Cross),
        Kind::Broken => known!(payload broken_of Broken),
        Kind::Imbalance => known!(payload imbalance_of Imbalance),
        Kind::Retail => known!(payload retail_of Retail),
    }
}

/// Reads a payload of any bytes: the one message that it means, or why it means none.
///
/// Nasdaq TotalView-ITCH 5.0, "Message Formats".
///
/// ```text
/// let payload = b"D\x00\x07\x00\x00\x00\x00\x00\x00\x00\x01\x00\x00\x00\x00\x00\x00\x00\x02";
/// match read_msg(payload) {
///     Shape::Known(Msg::Delete(head, delete)) => {} // head.locate is 7, head.time.get() is 1, delete.reference is 2
///     Shape::Known(_) => {}                         // another message
///     Shape::Unknown | Shape::BadLength => {}
/// }
/// ```
#[tactic(auto, using(crate::proofs::Uniqueness::unique))]
pub fn read_msg(payload: &[u8]) -> Shape
    ensures shape { Reads payload.now result }
    ensures only { (m : Msg) → Means payload.now m → result ≡ Shape.Known m }
    ensures value { result ≡ shape_of payload.now }
    ensures fits { (m : Msg) → result ≡ Shape.Known m → Fits m }
{
    read_shape(payload)
}
