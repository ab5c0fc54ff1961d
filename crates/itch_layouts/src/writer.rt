//! The payload that means a message.
ghost use Rattle.std.specs.Prelude.{◌≡◌, OnOk, OnErr};
ghost use Rattle.byte_strings.specs.Extending.{Extends};
ghost use Rattle.itch_layouts.specs.Means.{Means};
ghost use Rattle.itch_layouts.specs.Encoding.{Fits, payload_of};

use crate::field_value::FieldValue::{Alpha1, Alpha2, Alpha4, Alpha8, U32, U64};
use crate::field_value::put_payload;
use crate::message::Msg;
use std::alloc::{AllocError, Allocator};

// Appends the payload of a type: its head, and of each other field the width and the name.
macro_rules! put {
    ($out:ident $kind:literal $head:ident $m:ident: $($form:ident $name:ident),+) => {
        put_payload($out, $kind, $head, &[$($form($m.$name)),+])
    };
}

// Appends the payload of a message.
fn put_msg<A: Allocator>(out: &mut Vec<u8, A>, msg: &Msg) -> Result<(), AllocError>
    ensures items { Extends out.old out.new (payload_of msg.now) result }
    ensures fits { OnOk result (Fits msg.now) }
    ensures err { OnErr result (out.new.items ≡ out.old.items) }
{
    match msg {
        Msg::System(head, m) => put!(out b'S' head m: Alpha1 event),
        Msg::Directory(head, m) => put!(out b'R' head m: Alpha8 stock, Alpha1 category,
            Alpha1 status, U32 lot, Alpha1 lots_only, Alpha1 issue_class, Alpha2 issue_subtype,
            Alpha1 authenticity, Alpha1 short_sale, Alpha1 ipo, Alpha1 luld, Alpha1 etp,
            U32 leverage, Alpha1 inverse),
        Msg::Trading(head, m) => put!(out b'H' head m: Alpha8 stock, Alpha1 state, Alpha1 reserved,
            Alpha4 reason),
        Msg::Regsho(head, m) => put!(out b'Y' head m: Alpha8 stock, Alpha1 action),
        Msg::Participant(head, m) => put!(out b'L' head m: Alpha4 mpid, Alpha8 stock,
            Alpha1 primary, Alpha1 mode, Alpha1 state),
        Msg::Decline(head, m) => put!(out b'V' head m: U64 level1, U64 level2, U64 level3),
        Msg::Breach(head, m) => put!(out b'W' head m: Alpha1 level),
        Msg::Ipo(head, m) => put!(out b'K' head m: Alpha8 stock, U32 release, Alpha1 qualifier,
            U32 price),
        Msg::Collar(head, m) => put!(out b'J' head m: Alpha8 stock, U32 reference_price, U32 upper,
            U32 lower, U32 extension),
        Msg::Operational(head, m) => put!(out b'h' head m: Alpha8 stock, Alpha1 market,
            Alpha1 action),
        Msg::Add(head, m) => put!(out b'A' head m: U64 reference, Alpha1 side, U32 shares,
            Alpha8 stock, U32 price),
        Msg::AddMpid(head, m) => put!(out b'F' head m: U64 reference, Alpha1 side, U32 shares,
            Alpha8 stock, U32 price, Alpha4 attribution),
        Msg::Execute(head, m) => put!(out b'E' head m: U64 reference, U32 shares, U64 match_no),
        Msg::ExecutePrice(head, m) => put!(out b'C' head m: U64 reference, U32 shares, U64 match_no,
            Alpha1 printable, U32 price),
        Msg::Cancel(head, m) => put!(out b'X' head m: U64 reference, U32 shares),
        Msg::Delete(head, m) => put!(out b'D' head m: U64 reference),
        Msg::Replace(head, m) => put!(out b'U' head m: U64 reference, U64 new_reference, U32 shares,
            U32 price),
        Msg::Trade(head, m) => put!(out b'P' head m: U64 reference, Alpha1 side, U32 shares,
            Alpha8 stock, U32 price, U64 match_no),
        Msg::Cross(head, m) => put!(out b'Q' head m: U64 shares, Alpha8 stock, U32 price,
            U64 match_no, Alpha1 cross_type),
        Msg::Broken(head, m) => put!(out b'B' head m: U64 match_no),
        Msg::Imbalance(head, m) => put!(out b'I' head m: U64 paired, U64 imbalance,
            Alpha1 direction, Alpha8 stock, U32 far, U32 near, U32 reference_price,
            Alpha1 cross_type, Alpha1 variation),
        Msg::Retail(head, m) => put!(out b'N' head m: Alpha8 stock, Alpha1 interest),
    }
}

/// Appends the one payload that means the message.
///
/// It reserves room for a payload of 50 bytes, the largest size, whatever the message. An error says that memory was
/// refused, and leaves the bytes of `out` as they were.
///
/// Nasdaq TotalView-ITCH 5.0, "Message Formats".
///
/// ```text
/// let head = Head { locate: 7, tracking: 0, time: Nanos::new(1).ok_or("six bytes can't hold the time")? };
/// let mut out = Vec::new(rt.alloc());
/// write_msg(&Msg::Delete(head, Delete { reference: 2 }), &mut out)?; // appends 19 bytes, the first of them `D`
/// ```
#[tactic(auto, using(crate::proofs::OnePayload::means_payload))]
pub fn write_msg<A: Allocator>(msg: &Msg, out: &mut Vec<u8, A>) -> Result<(), AllocError>
    ensures items { Extends out.old out.new (payload_of msg.now) result }
    ensures means { OnOk result (Means (payload_of msg.now) msg.now) }
    ensures fits { OnOk result (Fits msg.now) }
    ensures err { OnErr result (out.new.items ≡ out.old.items) }
{
    put_msg(out, msg)
}
