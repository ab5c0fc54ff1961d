//! Numbers in texts.
ghost use Rattle.std.specs.Prelude.{◌≡◌, ℕ, ◌+◌, ◌≤◌, ◌<◌, ◌^◌, IfSome, IfNone, IsTrue, option_map};
ghost use Rattle.std.specs.Str.Parse.{AllDigits, digits_value};
ghost use Rattle.itch_layouts.specs.Layouts.{Integer, Number};
ghost use Rattle.itch_layouts.specs.Soundness.{is_width};
ghost use Rattle.itch_text.specs.Values.{NumberText};
ghost use Rattle.itch_text.specs.Parsing.{value_in};

// The value of decimal digits, or `None` where a byte is no digit or the value needs more than 64 bits.
#[tactic(auto, using(crate::proofs::Numerals::grows_at))]
fn value_of_digits(text: &[u8]) -> Option<u64>
    ensures some { IfSome result (λ n. AllDigits 10 text.now × (digits_value 10 text.now ≡ n)) }
    ensures none { IfNone result (AllDigits 10 text.now → 2 ^ 64 ≤ digits_value 10 text.now) }
{
    let mut value = 0u64;
    'digits: for byte in text {
        if !byte.is_ascii_digit() {
            return None;
        }
        let digit = u64::from(*byte - b'0');
        let Some(tens) = value.checked_mul(10) else {
            return None;
        };
        let Some(sum) = tens.checked_add(digit) else {
            return None;
        };
        value = sum;
    }
    Some(value)
}

/// The number of a text of one to twenty decimal digits, or `None` where it isn't that or needs more than 64 bits.
pub fn number_of_text(text: &[u8]) -> Option<u64>
    ensures some { IfSome result (λ n. NumberText text.now n) }
    ensures none { IfNone result ((n : ℕ) → NumberText text.now n → n < 2 ^ 64 → ⊥) }
{
    if text.is_empty() || text.len() > 20 {
        return None;
    }
    value_of_digits(text)
}

// The greatest number of a field of this width.
#[tactic(auto, using(crate::proofs::Widths::greatest))]
fn greatest(width: u8) -> u64
    requires { IsTrue (is_width Integer width) }
    ensures { result + 1 ≡ 256 ^ width }
{
    match width {
        2 => u64::from(u16::MAX),
        4 => u64::from(u32::MAX),
        6 => 0xffff_ffff_ffff,
        _ => u64::MAX,
    }
}

/// The number of a text, or `None` where the text is no number or one that a field of this width doesn't hold.
#[tactic(auto, using(crate::proofs::Numerals::numbers))]
pub(crate) fn number(text: &[u8], width: u8) -> Option<u64>
    requires { IsTrue (is_width Integer width) }
    ensures value { option_map (λ n. Number n) result ≡ value_in Integer width text.now }
    ensures fits { IfSome result (λ n. n < 256 ^ width) }
{
    let number = number_of_text(text)?;
    (number <= greatest(width)).then_some(number)
}
