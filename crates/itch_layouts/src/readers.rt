//! The fields of payloads, one function for the messages of each kind: for code that knows the kind of a payload by
//! [`kind_of`](crate::kind_of). The caller passes a payload of that kind. Each function is inlined where it is called,
//! so that a field which isn't used there isn't read.
//!
//! Nasdaq TotalView-ITCH 5.0, "Message Formats".
ghost use Rattle.std.specs.Prelude.{◌≡◌, ◌<◌, length, map};
ghost use Rattle.itch_layouts.specs.Layouts.{head_fields, value_at};
ghost use Rattle.itch_layouts.specs.Layouts as layouts;
ghost use Rattle.itch_layouts.specs.Means.{head_values, IsOf, Means};
ghost use Rattle.itch_layouts.specs.declared.message.Msg.{Msg};

use crate::at_offset::{array_at, byte_at, nanos_at, u16_at, u32_at, u64_at};
use crate::message::*;

// The head of a payload.
#[inline(always)]
fn head_of(payload: &[u8]) -> Head
    requires { 10 < length payload.now }
    ensures { head_values result ≡ map (value_at payload.now) head_fields }
{
    Head {
        locate: u16_at(payload, 1),
        tracking: u16_at(payload, 3),
        time: nanos_at(payload, 5),
    }
}

/// The head and the fields of a payload of the layout `system`.
#[inline(always)]
pub fn system_of(payload: &[u8]) -> (Head, System)
    requires { IsOf layouts.system payload.now }
    ensures { Means payload.now (Msg.System result.0 result.1) }
{
    let system = System {
        event: byte_at(payload, 11),
    };
    (head_of(payload), system)
}

/// The head and the fields of a payload of the layout `directory`.
#[inline(always)]
pub fn directory_of(payload: &[u8]) -> (Head, Directory)
    requires { IsOf layouts.directory payload.now }
    ensures { Means payload.now (Msg.Directory result.0 result.1) }
{
    let directory = Directory {
        stock: array_at(payload, 11),
        category: byte_at(payload, 19),
        status: byte_at(payload, 20),
        lot: u32_at(payload, 21),
        lots_only: byte_at(payload, 25),
        issue_class: byte_at(payload, 26),
        issue_subtype: array_at(payload, 27),
        authenticity: byte_at(payload, 29),
        short_sale: byte_at(payload, 30),
        ipo: byte_at(payload, 31),
        luld: byte_at(payload, 32),
        etp: byte_at(payload, 33),
        leverage: u32_at(payload, 34),
        inverse: byte_at(payload, 38),
    };
    (head_of(payload), directory)
}

/// The head and the fields of a payload of the layout `trading`.
#[inline(always)]
pub fn trading_of(payload: &[u8]) -> (Head, TradingAction)
    requires { IsOf layouts.trading payload.now }
    ensures { Means payload.now (Msg.Trading result.0 result.1) }
{
    let trading = TradingAction {
        stock: array_at(payload, 11),
        state: byte_at(payload, 19),
        reserved: byte_at(payload, 20),
        reason: array_at(payload, 21),
    };
    (head_of(payload), trading)
}

/// The head and the fields of a payload of the layout `regsho`.
#[inline(always)]
pub fn regsho_of(payload: &[u8]) -> (Head, Regsho)
    requires { IsOf layouts.regsho payload.now }
    ensures { Means payload.now (Msg.Regsho result.0 result.1) }
{
    let regsho = Regsho {
        stock: array_at(payload, 11),
        action: byte_at(payload, 19),
    };
    (head_of(payload), regsho)
}

/// The head and the fields of a payload of the layout `participant`.
#[inline(always)]
pub fn participant_of(payload: &[u8]) -> (Head, Participant)
    requires { IsOf layouts.participant payload.now }
    ensures { Means payload.now (Msg.Participant result.0 result.1) }
{
    let participant = Participant {
        mpid: array_at(payload, 11),
        stock: array_at(payload, 15),
        primary: byte_at(payload, 23),
        mode: byte_at(payload, 24),
        state: byte_at(payload, 25),
    };
    (head_of(payload), participant)
}

/// The head and the fields of a payload of the layout `decline`.
#[inline(always)]
pub fn decline_of(payload: &[u8]) -> (Head, Decline)
    requires { IsOf layouts.decline payload.now }
    ensures { Means payload.now (Msg.Decline result.0 result.1) }
{
    let decline = Decline {
        level1: u64_at(payload, 11),
        level2: u64_at(payload, 19),
        level3: u64_at(payload, 27),
    };
    (head_of(payload), decline)
}

/// The head and the fields of a payload of the layout `breach`.
#[inline(always)]
pub fn breach_of(payload: &[u8]) -> (Head, Breach)
    requires { IsOf layouts.breach payload.now }
    ensures { Means payload.now (Msg.Breach result.0 result.1) }
{
    let breach = Breach {
        level: byte_at(payload, 11),
    };
    (head_of(payload), breach)
}

/// The head and the fields of a payload of the layout `ipo`.
#[inline(always)]
pub fn ipo_of(payload: &[u8]) -> (Head, Ipo)
    requires { IsOf layouts.ipo payload.now }
    ensures { Means payload.now (Msg.Ipo result.0 result.1) }
{
    let ipo = Ipo {
        stock: array_at(payload, 11),
        release: u32_at(payload, 19),
        qualifier: byte_at(payload, 23),
        price: u32_at(payload, 24),
    };
    (head_of(payload), ipo)
}

/// The head and the fields of a payload of the layout `collar`.
#[inline(always)]
pub fn collar_of(payload: &[u8]) -> (Head, Collar)
    requires { IsOf layouts.collar payload.now }
    ensures { Means payload.now (Msg.Collar result.0 result.1) }
{
    let collar = Collar {
        stock: array_at(payload, 11),
        reference_price: u32_at(payload, 19),
        upper: u32_at(payload, 23),
        lower: u32_at(payload, 27),
        extension: u32_at(payload, 31),
    };
    (head_of(payload), collar)
}

/// The head and the fields of a payload of the layout `operational`.
#[inline(always)]
pub fn operational_of(payload: &[u8]) -> (Head, Operational)
    requires { IsOf layouts.operational payload.now }
    ensures { Means payload.now (Msg.Operational result.0 result.1) }
{
    let operational = Operational {
        stock: array_at(payload, 11),
        market: byte_at(payload, 19),
        action: byte_at(payload, 20),
    };
    (head_of(payload), operational)
}

/// The head and the fields of a payload of the layout `add`.
#[inline(always)]
pub fn add_of(payload: &[u8]) -> (Head, Add)
    requires { IsOf layouts.add payload.now }
    ensures { Means payload.now (Msg.Add result.0 result.1) }
{
    let add = Add {
        reference: u64_at(payload, 11),
        side: byte_at(payload, 19),
        shares: u32_at(payload, 20),
        stock: array_at(payload, 24),
        price: u32_at(payload, 32),
    };
    (head_of(payload), add)
}

/// The head and the fields of a payload of the layout `add_mpid`.
#[inline(always)]
pub fn add_mpid_of(payload: &[u8]) -> (Head, AddMpid)
    requires { IsOf layouts.add_mpid payload.now }
    ensures { Means payload.now (Msg.AddMpid result.0 result.1) }
{
    let add_mpid = AddMpid {
        reference: u64_at(payload, 11),
        side: byte_at(payload, 19),
        shares: u32_at(payload, 20),
        stock: array_at(payload, 24),
        price: u32_at(payload, 32),
        attribution: array_at(payload, 36),
    };
    (head_of(payload), add_mpid)
}

/// The head and the fields of a payload of the layout `execute`.
#[inline(always)]
pub fn execute_of(payload: &[u8]) -> (Head, Execute)
    requires { IsOf layouts.execute payload.now }
    ensures { Means payload.now (Msg.Execute result.0 result.1) }
{
    let execute = Execute {
        reference: u64_at(payload, 11),
        shares: u32_at(payload, 19),
        match_no: u64_at(payload, 23),
    };
    (head_of(payload), execute)
}

/// The head and the fields of a payload of the layout `execute_price`.
#[inline(always)]
pub fn execute_price_of(payload: &[u8]) -> (Head, ExecutePrice)
    requires { IsOf layouts.execute_price payload.now }
    ensures { Means payload.now (Msg.ExecutePrice result.0 result.1) }
{
    let execute_price = ExecutePrice {
        reference: u64_at(payload, 11),
        shares: u32_at(payload, 19),
        match_no: u64_at(payload, 23),
        printable: byte_at(payload, 31),
        price: u32_at(payload, 32),
    };
    (head_of(payload), execute_price)
}

/// The head and the fields of a payload of the layout `cancel`.
#[inline(always)]
pub fn cancel_of(payload: &[u8]) -> (Head, Cancel)
    requires { IsOf layouts.cancel payload.now }
    ensures { Means payload.now (Msg.Cancel result.0 result.1) }
{
    let cancel = Cancel {
        reference: u64_at(payload, 11),
        shares: u32_at(payload, 19),
    };
    (head_of(payload), cancel)
}

/// The head and the fields of a payload of the layout `delete`.
#[inline(always)]
pub fn delete_of(payload: &[u8]) -> (Head, Delete)
    requires { IsOf layouts.delete payload.now }
    ensures { Means payload.now (Msg.Delete result.0 result.1) }
{
    let delete = Delete {
        reference: u64_at(payload, 11),
    };
    (head_of(payload), delete)
}

/// The head and the fields of a payload of the layout `replace`.
#[inline(always)]
pub fn replace_of(payload: &[u8]) -> (Head, Replace)
    requires { IsOf layouts.replace payload.now }
    ensures { Means payload.now (Msg.Replace result.0 result.1) }
{
    let replace = Replace {
        reference: u64_at(payload, 11),
        new_reference: u64_at(payload, 19),
        shares: u32_at(payload, 27),
        price: u32_at(payload, 31),
    };
    (head_of(payload), replace)
}

/// The head and the fields of a payload of the layout `trade`.
#[inline(always)]
pub fn trade_of(payload: &[u8]) -> (Head, NonCrossTrade)
    requires { IsOf layouts.trade payload.now }
    ensures { Means payload.now (Msg.Trade result.0 result.1) }
{
    let trade = NonCrossTrade {
        reference: u64_at(payload, 11),
        side: byte_at(payload, 19),
        shares: u32_at(payload, 20),
        stock: array_at(payload, 24),
        price: u32_at(payload, 32),
        match_no: u64_at(payload, 36),
    };
    (head_of(payload), trade)
}

/// The head and the fields of a payload of the layout `cross`.
#[inline(always)]
pub fn cross_of(payload: &[u8]) -> (Head, Cross)
    requires { IsOf layouts.cross payload.now }
    ensures { Means payload.now (Msg.Cross result.0 result.1) }
{
    let cross = Cross {
        shares: u64_at(payload, 11),
        stock: array_at(payload, 19),
        price: u32_at(payload, 27),
        match_no: u64_at(payload, 31),
        cross_type: byte_at(payload, 39),
    };
    (head_of(payload), cross)
}

/// The head and the fields of a payload of the layout `broken`.
#[inline(always)]
pub fn broken_of(payload: &[u8]) -> (Head, Broken)
    requires { IsOf layouts.broken payload.now }
    ensures { Means payload.now (Msg.Broken result.0 result.1) }
{
    let broken = Broken {
        match_no: u64_at(payload, 11),
    };
    (head_of(payload), broken)
}

/// The head and the fields of a payload of the layout `imbalance`.
#[inline(always)]
pub fn imbalance_of(payload: &[u8]) -> (Head, Imbalance)
    requires { IsOf layouts.imbalance payload.now }
    ensures { Means payload.now (Msg.Imbalance result.0 result.1) }
{
    let imbalance = Imbalance {
        paired: u64_at(payload, 11),
        imbalance: u64_at(payload, 19),
        direction: byte_at(payload, 27),
        stock: array_at(payload, 28),
        far: u32_at(payload, 36),
        near: u32_at(payload, 40),
        reference_price: u32_at(payload, 44),
        cross_type: byte_at(payload, 48),
        variation: byte_at(payload, 49),
    };
    (head_of(payload), imbalance)
}

/// The head and the fields of a payload of the layout `retail`.
#[inline(always)]
pub fn retail_of(payload: &[u8]) -> (Head, Retail)
    requires { IsOf layouts.retail payload.now }
    ensures { Means payload.now (Msg.Retail result.0 result.1) }
{
    let retail = Retail {
        stock: array_at(payload, 11),
        interest: byte_at(payload, 19),
    };
    (head_of(payload), retail)
}
