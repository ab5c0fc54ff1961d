//! The stock that a payload speaks of.
use itch_layouts::{Ipo, Msg};
use itch_table::{Fault, Outcome, Part, part};
use std::test::Fail;
use test_support::{AAPL, head, payload_of, same, system};

#[test]
fn payloads_have_parts(rt: HostRuntime) -> Result<(), Fail> {
    let offering = Ipo {
        stock: [b' '; 8],
        release: 0,
        qualifier: b'A',
        price: 0,
    };
    let cases = [
        (system(7, b'O'), Part::Nowhere(Outcome::Applied)),
        (Msg::Ipo(head(0), offering), Part::Nowhere(Outcome::Applied)),
        (AAPL.directory(), Part::Locate(1)),
        (AAPL.delete(9), Part::Locate(1)),
    ];
    for (msg, wanted) in cases {
        let payload = payload_of(rt.alloc(), &msg)?;
        same("the part of a message", &part(&payload), &wanted)?;
    }
    let short = Outcome::Refused(Fault::WrongLength);
    let cases: [(&[u8], Part); 3] = [
        (b"", Part::Nowhere(Outcome::Passed)),
        (b"O", Part::Nowhere(Outcome::Passed)),
        (b"A\x00\x01", Part::Nowhere(short)),
    ];
    for (payload, wanted) in cases {
        same("the part of another payload", &part(payload), &wanted)?;
    }
    Ok(())
}
