//! What the program takes, in one file.
use binaryfile::Limits;

/// The most bytes of a day file: 2^40.
pub const MOST_FILE_BYTES: u64 = 1 << 40;

/// The most messages of a day file: 2^32 - 1, as many as a message number counts.
pub const MOST_MESSAGES: u32 = u32::MAX;

/// The most bytes and messages of a day file.
pub const FILE_LIMITS: Limits = Limits {
    bytes: MOST_FILE_BYTES,
    messages: MOST_MESSAGES,
};

/// The most bytes of a text that is assembled: 2^40.
pub const MOST_TEXT_BYTES: u64 = 1 << 40;

/// The most bytes of a day file that is given in hexadecimal digits, digits and white space together: 2^30.
pub const MOST_HEX_BYTES: u64 = 1 << 30;
