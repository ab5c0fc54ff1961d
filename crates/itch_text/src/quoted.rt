//! Text between quotes.
ghost use Rattle.std.specs.Prelude.{◌≡◌, ◌<◌, ◌≤◌, length, take, Some, None, MatchOption, option_map, IfSome};
ghost use Rattle.hex.specs.Hex.{hex_digit_value};
ghost use Rattle.itch_layouts.specs.Layouts.{Alpha, Bytes};
ghost use Rattle.itch_text.specs.Values.{byte_of, denotes_itself, unescaped, with_first};
ghost use Rattle.itch_text.specs.Parsing.{between_quotes, padded_within, value_in};

// The byte of two hexadecimal digits of either case, or `None` where one of them is no digit.
fn hex_byte(high: u8, low: u8) -> Option<u8>
    ensures { result ≡ byte_of (hex_digit_value high) (hex_digit_value low) }
{
    let mut byte = [0u8; 1];
    match hex::decode_to_slice([high, low], &mut byte) {
        Ok(()) => Some(byte[0]),
        Err(_) => None,
    }
}

/// Whether a byte denotes itself between quotes: one from the space to the tilde that is neither the quote nor the
/// backslash. Any other is written `\x` and two hexadecimal digits.
pub fn denotes_itself(byte: u8) -> bool
    ensures { result ≡ denotes_itself byte }
{
    (b' '..=b'~').contains(&byte) && byte != b'"' && byte != b'\\'
}

// The first byte that a text between quotes denotes, and the text after it.
#[tactic(auto, using(crate::proofs::Escapes::escapes))]
fn next_byte(text: &[u8]) -> Option<(u8, &[u8])>
    requires { 0 < length text.now }
    ensures byte { MatchOption result
        (unescaped text.now ≡ None)
        (λ next. unescaped text.now ≡ with_first (Some next.0) (unescaped next.1.now)) }
    ensures shorter { IfSome result (λ next. length next.1.now < length text.now) }
{
    let byte = text[0];
    if denotes_itself(byte) {
        return Some((byte, &text[1..]));
    }
    if text.len() < 4 || byte != b'\\' || text[1] != b'x' {
        return None;
    }
    match hex_byte(text[2], text[3]) {
        Some(byte) => Some((byte, &text[4..])),
        None => None,
    }
}

// What stands between two quotes, or `None` where the text doesn't begin and end with one.
#[tactic(auto, unfolding(crate::specs::Parsing::between_quotes))]
fn between_quotes(text: &[u8]) -> Option<&[u8]>
    ensures { option_map (λ inner. inner.now) result ≡ between_quotes text.now }
{
    if text.len() >= 2 && text[0] == b'"' && text[text.len() - 1] == b'"' {
        Some(&text[1..text.len() - 1])
    } else {
        None
    }
}

// The bytes that a text between quotes denotes, filled up with spaces, or `None` where it denotes none or too many for
// a field of this width.
fn unescape(inner: &[u8], width: usize) -> Option<[u8; 8]>
    requires { width ≤ 8 }
    ensures value { option_map (λ bytes. Bytes (take width bytes)) result
        ≡ padded_within width (unescaped inner.now) }
    ensures fits { IfSome result (λ bytes. length (take width bytes) ≡ width) }
{
    let mut bytes = [b' '; 8];
    let mut length = 0;
    let mut rest = inner;
    'bytes: while !rest.is_empty() {
        let Some((byte, following)) = next_byte(rest) else {
            return None;
        };
        if length == width {
            return None;
        }
        bytes[length] = byte;
        length += 1;
        rest = following;
    }
    Some(bytes)
}

/// The bytes of a quoted text, filled up with spaces, or `None` where it is none or too long for a field of this
/// width.
pub(crate) fn quoted(text: &[u8], width: u8) -> Option<[u8; 8]>
    requires { width ≤ 8 }
    ensures value { option_map (λ bytes. Bytes (take width bytes)) result ≡ value_in Alpha width text.now }
    ensures fits { IfSome result (λ bytes. length (take width bytes) ≡ width) }
{
    let inner = between_quotes(text)?;
    unescape(inner, usize::from(width))
}
