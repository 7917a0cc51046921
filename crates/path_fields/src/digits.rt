//! Numbers at the beginning of texts.

ghost use Rattle.std.specs.Prelude.{◌≡◌, ◌≢◌, ℕ, ◌<◌, ◌^◌, ◌++◌, decimal, drop, length, slice_index, IfSome, IfNone, List};
ghost use Rattle.std.specs.Bool.{OnTrue, OnFalse};
ghost use Rattle.path_fields.specs.Splits.{IsDigit, HasNoDigitNext};

/// Whether there is a digit at this index of the text.
fn has_digit(text: &[u8], at: usize) -> bool
    ensures yes { OnTrue result ((at < length text.now) × IsDigit (slice_index text.now at)) }
    ensures no { OnFalse result (HasNoDigitNext (drop at text.now)) }
{
    match text.get(at) {
        Some(byte) => byte.is_ascii_digit(),
        None => false,
    }
}

/// The number that the text begins with, and what follows its last digit. The number is decimal, below 2 to the 64th and
/// without leading zeros; `None` if the text doesn't begin with one. One pass over the digits.
pub fn number(text: &[u8]) -> Option<(u64, &[u8])>
    ensures some { IfSome result (λ p. text.now ≡ decimal p.0 ++ p.1.now) }
    ensures end { IfSome result (λ p. HasNoDigitNext p.1.now) }
    ensures none { IfNone result ((n : ℕ) (rest : List ℕ) → n < 2 ^ 64 → HasNoDigitNext rest → text.now ≢ decimal n ++ rest) }
{
    let mut value = 0u64;
    let mut at = 0;
    while has_digit(text, at) {
        let digit = text[at] - b'0';
        value = value.checked_mul(10)?.checked_add(u64::from(digit))?;
        at += 1;
    }
    if at == 0 {
        return None;
    }
    if at > 1 && text[0] == b'0' {
        return None;
    }
    Some((value, &text[at..]))
}
