//! What a compressed file begins with.
ghost use Rattle.std.specs.Prelude.{◌≡◌, nat_eq};
ghost use Rattle.std.specs.List.{starts_with};

/// The first bytes of a file that gzip has made: two that name the format, and the only method that it has (RFC 1952).
const GZIP: [u8; 3] = [0x1f, 0x8b, 8];

/// Whether a file that begins with these bytes is one that gzip has made.
pub fn is_gzip(beginning: &[u8]) -> bool
    ensures { result ≡ starts_with nat_eq beginning.now GZIP }
{
    beginning.starts_with(&GZIP)
}
