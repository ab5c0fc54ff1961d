//! A worked file in all its forms: its bytes, its digits, its text and its report; and a shorter one by its bytes
//! alone.
//!
//! The worked file has a directory message, a bid, a payload of a wrong length, one of an unknown type, a system event,
//! the marker and two bytes after it. Tests run where no file of this repository is to be read, so the bytes stand
//! here; more worked files are in examples/, which tests/command-lines goes through.
use binaryfile::Limits;

/// Limits that no test's file comes near.
pub const AMPLE: Limits = Limits {
    bytes: 1 << 40,
    messages: u32::MAX,
};

/// The bytes of the file.
pub const FILE: &[u8] =
    b"\x00\x27R\x00\x01\x00\x00\x00\x00\x00\x00\x00\x00AAPL    QN\x00\x00\x00dNCZ PNN1N\x00\x00\x00\x00N\
      \x00\x24A\x00\x01\x00\x00\x00\x00\x00\x00\x00\x01\x00\x00\x00\x00\x00\x00\x00\x01B\x00\x00\x00dAAPL    \x00\x0fiP\
      \x00\x01A\
      \x00\x02OK\
      \x00\x0cS\x00\x00\x00\x00\x00\x00\x00\x00\x00\x00O\
      \x00\x00\xff\x00";

/// The same bytes in hexadecimal digits, with spaces and line feeds between them.
pub const DIGITS: &[u8] =
    b"0027 52 0001 0000 000000000000 4141504c20202020 51 4e 00000064 4e 43 5a20 50 4e 4e 31 4e 00000000 4e
    0024 41 0001 0000 000000000001 0000000000000001 42 00000064 4141504C20202020 000f6950
    0001 41
    0002 4f4B
    000c 53 0000 0000 000000000000 4f
    0000 F f00";

/// The text that the disassembler writes for the file.
pub const TEXT: &[u8] =
    b"directory locate=1 tracking=0 time=0 stock=\"AAPL\" category=\"Q\" status=\"N\" lot=100 lots_only=\"N\" issue_class=\"C\" issue_subtype=\"Z\" authenticity=\"P\" short_sale=\"N\" ipo=\"N\" luld=\"1\" etp=\"N\" leverage=0 inverse=\"N\"\n\
      add locate=1 tracking=0 time=1 reference=1 side=\"B\" shares=100 stock=\"AAPL\" price=1010000\n\
      raw 41\n\
      raw 4f4b\n\
      system locate=0 tracking=0 time=0 event=\"O\"\n\
      end\n\
      rest ff00\n";

/// The report of the file, of which one message is refused.
pub const REPORT: &[u8] = b"message 3 refused F1\n\
      messages 5 applied 3 passed 1 refused 1 marked yes tail 2 event \"O\"\n\
      stock 1 \"AAPL\" state none reason none regsho none\n\
      bid 1010000 100\n\
      trades 0 shares 0 notional 0 unprinted 0\n";

/// The bytes of examples/stored-run.itch: a directory message, a bid, an execution of all its shares, and the marker.
/// Of its 114 bytes the entries end after 41, 79 and 112.
pub const STORED_RUN: &[u8] =
    b"\x00\x27R\x00\x01\x00\x00\x00\x00\x00\x00\x00\x00AAPL    QN\x00\x00\x00dNCZ PNN1N\x00\x00\x00\x00N\
      \x00\x24A\x00\x01\x00\x00\x00\x00\x00\x00\x00\x01\x00\x00\x00\x00\x00\x00\x00\x01B\x00\x00\x00dAAPL    \x00\x16\xe3\x60\
      \x00\x1fE\x00\x01\x00\x00\x00\x00\x00\x00\x00\x02\x00\x00\x00\x00\x00\x00\x00\x01\x00\x00\x00d\x00\x00\x00\x00\x00\x00\x00\x09\
      \x00\x00";
