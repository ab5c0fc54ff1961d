//! What is said of each message of the worked day. All was written by hand.
use crate::day::MESSAGES;
use std::alloc::Allocator;
use std::test::Fail;

// Each message's line of the day's text, and where it is refused, why.
const LINES: [&[u8]; MESSAGES as usize] = [
    b"system locate=0 tracking=0 time=0 event=\"O\"\n",
    b"directory locate=1 tracking=0 time=0 stock=\"AAPL\" category=\"Q\" status=\"N\" lot=100 lots_only=\"N\" issue_class=\"C\" issue_subtype=\"Z\" authenticity=\"P\" short_sale=\"N\" ipo=\"N\" luld=\"1\" etp=\"N\" leverage=0 inverse=\"N\"\n",
    b"directory locate=2 tracking=0 time=0 stock=\"MSFT\" category=\"Q\" status=\"N\" lot=100 lots_only=\"N\" issue_class=\"C\" issue_subtype=\"Z\" authenticity=\"P\" short_sale=\"N\" ipo=\"N\" luld=\"1\" etp=\"N\" leverage=0 inverse=\"N\"\n",
    b"add locate=1 tracking=0 time=0 reference=7 side=\"B\" shares=100 stock=\"AAPL\" price=1010000\n",
    b"add_mpid locate=2 tracking=0 time=0 reference=7 side=\"S\" shares=50 stock=\"MSFT\" price=200 attribution=\"ABCD\"\n",
    b"execute locate=1 tracking=0 time=0 reference=7 shares=150 match_no=1\nF9 TooManyShares: 150 shares executed of order 7, which has 100\n",
    b"execute locate=1 tracking=0 time=0 reference=7 shares=30 match_no=9\n",
    b"cancel locate=1 tracking=0 time=0 reference=7 shares=71\nF9 TooManyShares: 71 shares cancelled of order 7, which has 70\n",
    b"execute_price locate=1 tracking=0 time=0 reference=7 shares=10 match_no=9 printable=\"Z\" price=1000000\nF10 BadPrintable: printable \"Z\", which is neither \"Y\" nor \"N\"\n",
    b"execute_price locate=1 tracking=0 time=0 reference=7 shares=10 match_no=10 printable=\"N\" price=1000000\n",
    b"trade locate=1 tracking=0 time=0 reference=0 side=\"B\" shares=5 stock=\"AAPL\" price=1000000 match_no=9\n",
    b"broken locate=1 tracking=0 time=0 match_no=9\n",
    b"broken locate=1 tracking=0 time=0 match_no=9\nF11 NoTrade: no unbroken trade has match number 9\n",
    b"cross locate=1 tracking=0 time=0 shares=200 stock=\"AAPL\" price=1005000 match_no=9 cross_type=\"O\"\n",
    b"broken locate=1 tracking=0 time=0 match_no=9\n",
    b"trade locate=2 tracking=0 time=0 reference=0 side=\"S\" shares=5 stock=\"MSFT\" price=200 match_no=8\n",
    b"broken locate=1 tracking=0 time=0 match_no=8\nF11 NoTrade: no unbroken trade has match number 8\n",
    b"replace locate=1 tracking=0 time=0 reference=7 new_reference=7 shares=10 price=900000\nF5 ReferenceInUse: order 7 lives\n",
    b"replace locate=1 tracking=0 time=0 reference=7 new_reference=8 shares=40 price=990000\n",
    b"add_mpid locate=1 tracking=0 time=0 reference=7 side=\"S\" shares=10 stock=\"AAPL\" price=300 attribution=\"ABCD\"\nF12 ReferenceSpent: an earlier order had reference 7\n",
    b"replace locate=1 tracking=0 time=0 reference=8 new_reference=7 shares=10 price=900000\nF12 ReferenceSpent: an earlier order had reference 7\n",
    b"delete locate=1 tracking=0 time=0 reference=7\nF6 ReferenceUnknown: no order 7 lives\n",
    b"add locate=1 tracking=0 time=0 reference=9 side=\"X\" shares=10 stock=\"AAPL\" price=100\nF7 BadSide: side \"X\", which is neither \"B\" nor \"S\"\n",
    b"trade locate=1 tracking=0 time=0 reference=0 side=\"X\" shares=5 stock=\"AAPL\" price=1000000 match_no=12\nF7 BadSide: side \"X\", which is neither \"B\" nor \"S\"\n",
    b"add locate=1 tracking=0 time=0 reference=9 side=\"S\" shares=0 stock=\"AAPL\" price=100\nF8 ZeroShares: order 9 would have no shares\n",
    b"replace locate=1 tracking=0 time=0 reference=8 new_reference=9 shares=0 price=100\nF8 ZeroShares: order 9 would have no shares\n",
    b"add locate=1 tracking=0 time=0 reference=9 side=\"B\" shares=1 stock=\"MSFT\" price=100\nF3 StockDiffers: stock \"MSFT\", and locate code 1 is \"AAPL\"\n",
    b"directory locate=1 tracking=0 time=0 stock=\"MSFT\" category=\"Q\" status=\"N\" lot=100 lots_only=\"N\" issue_class=\"C\" issue_subtype=\"Z\" authenticity=\"P\" short_sale=\"N\" ipo=\"N\" luld=\"1\" etp=\"N\" leverage=0 inverse=\"N\"\nF4 LocateTaken: stock \"MSFT\", and locate code 1 is \"AAPL\"\n",
    b"raw 4f4b\n",
    b"raw 4400010000000000000000000000000000000700\nF1 WrongLength: a message of type D has 19 bytes, and this one 20\n",
    b"delete locate=3 tracking=0 time=0 reference=7\nF2 NoDirectory: locate code 3 has no directory message before it\n",
    b"add locate=1 tracking=0 time=0 reference=8 side=\"B\" shares=1 stock=\"AAPL\" price=1\nF5 ReferenceInUse: order 8 lives\n",
    b"execute locate=1 tracking=0 time=0 reference=8 shares=40 match_no=11\n",
    b"execute_price locate=1 tracking=0 time=0 reference=8 shares=1 match_no=12 printable=\"Y\" price=5\nF6 ReferenceUnknown: no order 8 lives\n",
    b"delete locate=2 tracking=0 time=0 reference=7\n",
    b"delete locate=1 tracking=0 time=0 reference=10\nF6 ReferenceUnknown: no order 10 lives\n",
    b"regsho locate=1 tracking=0 time=0 stock=\"AAPL\" action=\"1\"\n",
];

// What became of each message, the lines of the orders that it names, and the numbers of the earlier messages about them.
const ANSWERS: [(&[u8], &[u8], &[u32]); MESSAGES as usize] = [
    (b"applied", b"", &[]),
    (b"applied", b"", &[]),
    (b"applied", b"", &[]),
    (b"applied", b"no order 7\n", &[]),
    (b"applied", b"no order 7\n", &[]),
    (b"refused F9", b"order 7 B 100 1010000 none\n", &[4]),
    (b"applied", b"order 7 B 100 1010000 none\n", &[4]),
    (b"refused F9", b"order 7 B 70 1010000 none\n", &[4, 7]),
    (b"refused F10", b"order 7 B 70 1010000 none\n", &[4, 7]),
    (b"applied", b"order 7 B 70 1010000 none\n", &[4, 7]),
    (b"applied", b"", &[]),
    (b"applied", b"", &[7, 11]),
    (b"refused F11", b"", &[7, 11, 12]),
    (b"applied", b"", &[]),
    (b"applied", b"", &[7, 11, 12, 14]),
    (b"applied", b"", &[]),
    (b"refused F11", b"", &[]),
    (b"refused F5", b"order 7 B 60 1010000 none\n", &[4, 7, 10]),
    (
        b"applied",
        b"order 7 B 60 1010000 none\nno order 8\n",
        &[4, 7, 10],
    ),
    (b"refused F12", b"no order 7 spent\n", &[4, 7, 10, 19]),
    (
        b"refused F12",
        b"order 8 B 40 990000 none\nno order 7 spent\n",
        &[4, 7, 10, 19],
    ),
    (b"refused F6", b"no order 7 spent\n", &[4, 7, 10, 19]),
    (b"refused F7", b"no order 9\n", &[]),
    (b"refused F7", b"", &[]),
    (b"refused F8", b"no order 9\n", &[]),
    (
        b"refused F8",
        b"order 8 B 40 990000 none\nno order 9\n",
        &[19],
    ),
    (b"refused F3", b"no order 9\n", &[]),
    (b"refused F4", b"", &[]),
    (b"passed", b"", &[]),
    (b"refused F1", b"", &[]),
    (b"refused F2", b"no order 7\n", &[]),
    (b"refused F5", b"order 8 B 40 990000 none\n", &[19]),
    (b"applied", b"order 8 B 40 990000 none\n", &[19]),
    (b"refused F6", b"no order 8 spent\n", &[19, 33]),
    (b"applied", b"order 7 S 50 200 \"ABCD\"\n", &[5]),
    (b"refused F6", b"no order 10\n", &[]),
    (b"applied", b"", &[]),
];

// An item of a list, by its number, counted from 1.
fn item<T: Copy>(list: &[T], number: u32) -> Result<T, Fail> {
    let index = (number as usize).wrapping_sub(1);
    match list.get(index) {
        Some(found) => Ok(*found),
        None => Err(Fail::new("no such message")),
    }
}

/// What became of a message, and why.
pub fn text_of<A: Allocator + Copy>(alloc: A, number: u32) -> Result<Vec<u8, A>, Fail> {
    let (outcome, orders, earlier) = item(&ANSWERS, number)?;
    let mut text = Vec::new(alloc);
    text.extend_from_slice(format!(in alloc; "at {number} ")?.as_bytes())?;
    text.extend_from_slice(outcome)?;
    text.push(b'\n')?;
    text.extend_from_slice(item(&LINES, number)?)?;
    text.extend_from_slice(orders)?;
    for number in earlier {
        text.extend_from_slice(format!(in alloc; "{number} ")?.as_bytes())?;
        text.extend_from_slice(item(&LINES, *number)?)?;
    }
    Ok(text)
}
