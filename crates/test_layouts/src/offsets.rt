//! A message of each type, each byte of which is its own offset, but for the first: so each field's value says where it
//! lies, how wide it is and which of its bytes comes first.
use crate::messages::{filled, try_both_ways};
use itch_layouts::{
    Add, AddMpid, Breach, Broken, Cancel, Collar, Cross, Decline, Delete, Directory, Execute,
    ExecutePrice, Head, Imbalance, Ipo, Msg, Nanos, NonCrossTrade, Operational, Participant,
    Regsho, Replace, Retail, System, TradingAction,
};
use std::test::Fail;

const SYSTEM: System = System { event: 11 };

const DIRECTORY: Directory = Directory {
    stock: [11, 12, 13, 14, 15, 16, 17, 18],
    category: 19,
    status: 20,
    lot: 0x1516_1718,
    lots_only: 25,
    issue_class: 26,
    issue_subtype: [27, 28],
    authenticity: 29,
    short_sale: 30,
    ipo: 31,
    luld: 32,
    etp: 33,
    leverage: 0x2223_2425,
    inverse: 38,
};

const TRADING: TradingAction = TradingAction {
    stock: [11, 12, 13, 14, 15, 16, 17, 18],
    state: 19,
    reserved: 20,
    reason: [21, 22, 23, 24],
};

const REGSHO: Regsho = Regsho {
    stock: [11, 12, 13, 14, 15, 16, 17, 18],
    action: 19,
};

const PARTICIPANT: Participant = Participant {
    mpid: [11, 12, 13, 14],
    stock: [15, 16, 17, 18, 19, 20, 21, 22],
    primary: 23,
    mode: 24,
    state: 25,
};

const DECLINE: Decline = Decline {
    level1: 0x0b0c_0d0e_0f10_1112,
    level2: 0x1314_1516_1718_191a,
    level3: 0x1b1c_1d1e_1f20_2122,
};

const BREACH: Breach = Breach { level: 11 };

const IPO: Ipo = Ipo {
    stock: [11, 12, 13, 14, 15, 16, 17, 18],
    release: 0x1314_1516,
    qualifier: 23,
    price: 0x1819_1a1b,
};

const COLLAR: Collar = Collar {
    stock: [11, 12, 13, 14, 15, 16, 17, 18],
    reference_price: 0x1314_1516,
    upper: 0x1718_191a,
    lower: 0x1b1c_1d1e,
    extension: 0x1f20_2122,
};

const OPERATIONAL: Operational = Operational {
    stock: [11, 12, 13, 14, 15, 16, 17, 18],
    market: 19,
    action: 20,
};

const ADD: Add = Add {
    reference: 0x0b0c_0d0e_0f10_1112,
    side: 19,
    shares: 0x1415_1617,
    stock: [24, 25, 26, 27, 28, 29, 30, 31],
    price: 0x2021_2223,
};

const ADD_MPID: AddMpid = AddMpid {
    reference: 0x0b0c_0d0e_0f10_1112,
    side: 19,
    shares: 0x1415_1617,
    stock: [24, 25, 26, 27, 28, 29, 30, 31],
    price: 0x2021_2223,
    attribution: [36, 37, 38, 39],
};

const EXECUTE: Execute = Execute {
    reference: 0x0b0c_0d0e_0f10_1112,
    shares: 0x1314_1516,
    match_no: 0x1718_191a_1b1c_1d1e,
};

const EXECUTE_PRICE: ExecutePrice = ExecutePrice {
    reference: 0x0b0c_0d0e_0f10_1112,
    shares: 0x1314_1516,
    match_no: 0x1718_191a_1b1c_1d1e,
    printable: 31,
    price: 0x2021_2223,
};

const CANCEL: Cancel = Cancel {
    reference: 0x0b0c_0d0e_0f10_1112,
    shares: 0x1314_1516,
};

const DELETE: Delete = Delete {
    reference: 0x0b0c_0d0e_0f10_1112,
};

const REPLACE: Replace = Replace {
    reference: 0x0b0c_0d0e_0f10_1112,
    new_reference: 0x1314_1516_1718_191a,
    shares: 0x1b1c_1d1e,
    price: 0x1f20_2122,
};

const TRADE: NonCrossTrade = NonCrossTrade {
    reference: 0x0b0c_0d0e_0f10_1112,
    side: 19,
    shares: 0x1415_1617,
    stock: [24, 25, 26, 27, 28, 29, 30, 31],
    price: 0x2021_2223,
    match_no: 0x2425_2627_2829_2a2b,
};

const CROSS: Cross = Cross {
    shares: 0x0b0c_0d0e_0f10_1112,
    stock: [19, 20, 21, 22, 23, 24, 25, 26],
    price: 0x1b1c_1d1e,
    match_no: 0x1f20_2122_2324_2526,
    cross_type: 39,
};

const BROKEN: Broken = Broken {
    match_no: 0x0b0c_0d0e_0f10_1112,
};

const IMBALANCE: Imbalance = Imbalance {
    paired: 0x0b0c_0d0e_0f10_1112,
    imbalance: 0x1314_1516_1718_191a,
    direction: 27,
    stock: [28, 29, 30, 31, 32, 33, 34, 35],
    far: 0x2425_2627,
    near: 0x2829_2a2b,
    reference_price: 0x2c2d_2e2f,
    cross_type: 48,
    variation: 49,
};

const RETAIL: Retail = Retail {
    stock: [11, 12, 13, 14, 15, 16, 17, 18],
    interest: 19,
};

fn head() -> Head {
    Head {
        locate: 0x0102,
        tracking: 0x0304,
        time: Nanos::new(0x0506_0708_090a).unwrap(),
    }
}

// The types, the sizes of their messages, and these messages.
fn messages() -> [(u8, u16, Msg); 22] {
    [
        (b'S', 12, Msg::System(head(), SYSTEM)),
        (b'R', 39, Msg::Directory(head(), DIRECTORY)),
        (b'H', 25, Msg::Trading(head(), TRADING)),
        (b'Y', 20, Msg::Regsho(head(), REGSHO)),
        (b'L', 26, Msg::Participant(head(), PARTICIPANT)),
        (b'V', 35, Msg::Decline(head(), DECLINE)),
        (b'W', 12, Msg::Breach(head(), BREACH)),
        (b'K', 28, Msg::Ipo(head(), IPO)),
        (b'J', 35, Msg::Collar(head(), COLLAR)),
        (b'h', 21, Msg::Operational(head(), OPERATIONAL)),
        (b'A', 36, Msg::Add(head(), ADD)),
        (b'F', 40, Msg::AddMpid(head(), ADD_MPID)),
        (b'E', 31, Msg::Execute(head(), EXECUTE)),
        (b'C', 36, Msg::ExecutePrice(head(), EXECUTE_PRICE)),
        (b'X', 23, Msg::Cancel(head(), CANCEL)),
        (b'D', 19, Msg::Delete(head(), DELETE)),
        (b'U', 35, Msg::Replace(head(), REPLACE)),
        (b'P', 44, Msg::Trade(head(), TRADE)),
        (b'Q', 40, Msg::Cross(head(), CROSS)),
        (b'B', 19, Msg::Broken(head(), BROKEN)),
        (b'I', 50, Msg::Imbalance(head(), IMBALANCE)),
        (b'N', 20, Msg::Retail(head(), RETAIL)),
    ]
}

#[test]
fn each_field_lies_at_its_offset(rt: HostRuntime) -> Result<(), Fail> {
    for (kind, size, msg) in messages() {
        let payload = filled(kind, 1, 1);
        try_both_ways(rt.alloc(), &msg, &payload[..usize::from(size.min(60))])?;
    }
    Ok(())
}
