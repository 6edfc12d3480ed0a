// Decimal numbers, and AS numbers with or without `AS` in front.
ghost use Rattle.std.specs.Prelude.{◌≡◌, ℕ, List};
ghost use Rattle.ip_text.specs.Reader.{Reads};
ghost use Rattle.ip_text.specs.Number.{IsSaturatedText, FollowsMark, IsAsNumberText};

/// The number that the whole text writes in decimal, with no sign and no leading zero, or
/// `u64::MAX` where that number is greater.
pub fn read_saturating(text: &[u8]) -> Option<u64>
    ensures { Reads (IsSaturatedText text.now) result }
{
    if let [] | [b'0', _, ..] = text {
        return None;
    }
    let mut value = 0u64;
    for byte in text {
        if !byte.is_ascii_digit() {
            return None;
        }
        value = value
            .saturating_mul(10)
            .saturating_add(u64::from(*byte - b'0'));
    }
    Some(value)
}

// What stands behind `AS`, or the whole text where it doesn't begin so.
fn after_mark(text: &[u8]) -> &[u8]
    ensures { FollowsMark text.now result.now }
{
    match text.split_at_checked(2) {
        Some((mark, digits)) if mark.eq_ignore_ascii_case(b"as") => digits,
        _ => text,
    }
}

/// The AS number that the whole text writes: a decimal number below 2^32, with or without `AS` in
/// front, in any case of its letters (asplain, RFC 5396; of 32 bits, RFC 6793).
pub fn read_as_number(text: &[u8]) -> Option<u32>
    ensures { Reads (IsAsNumberText text.now) result }
{
    let number = read_saturating(after_mark(text))?;
    u32::try_from(number).ok()
}

/// A law, with nothing to run: no text writes two AS numbers.
pub fn reads_as_number_once()
    ensures { (text : List ℕ) (m n : ℕ) → IsAsNumberText text m → IsAsNumberText text n → m ≡ n }
{}
