ghost use Rattle.std.specs.Prelude.{◌≡◌, ℕ, ◌≤◌, ◌-◌, ◌<◌, ◌↔◌, length, slice_index, IsTrue, IfSome, IfNone};
ghost use Rattle.bmp_specs.specs.NumberText.{IsNumberText, IsNumberUpTo};

// The value of a decimal digit.
fn decimal_digit(byte: u8) -> Option<u64>
    ensures some { IfSome result (λ digit. (48 ≤ byte) × (byte ≤ 57) × (digit ≡ byte - 48)) }
    ensures none { IfNone result ((48 ≤ byte) × (byte ≤ 57) → ⊥) }
{
    match byte {
        b'0'..=b'9' => Some((byte - b'0') as u64),
        _ => None,
    }
}

// Whether a zero stands before other bytes.
fn has_leading_zero(text: &[u8]) -> bool
    ensures { IsTrue result ↔ (1 < length text.now) × (slice_index text.now 0 ≡ 48) }
{
    text.len() > 1 && text[0] == b'0'
}

/// Reads a number of at most `most`: `0`, or decimal digits without a leading zero. None exactly where
/// the text is no such number.
pub fn parse_number_up_to(text: &[u8], most: u64) -> Option<u64>
    ensures some { IfSome result (λ n. IsNumberUpTo most text.now n) }
    ensures none { IfNone result ((n : ℕ) → IsNumberUpTo most text.now n → ⊥) }
{
    if text.is_empty() {
        return None;
    }
    if has_leading_zero(text) {
        return None;
    }
    let mut number: u64 = 0;
    for byte in text {
        let Some(digit) = decimal_digit(*byte) else {
            return None;
        };
        if number > (u64::MAX - digit) / 10 {
            return None;
        }
        number = number * 10 + digit;
    }
    if number > most {
        return None;
    }
    Some(number)
}

/// Reads a number of at most 4294967295: `0`, or decimal digits without a leading zero. None exactly
/// where the text is no such number.
pub fn parse_number(text: &[u8]) -> Option<u32>
    ensures some { IfSome result (λ n. IsNumberText text.now n) }
    ensures none { IfNone result ((n : ℕ) → IsNumberText text.now n → ⊥) }
{
    match parse_number_up_to(text, u32::MAX as u64) {
        Some(number) => Some(number as u32),
        None => None,
    }
}
