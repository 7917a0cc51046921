//! SHA-256 sums as hex digits.

ghost use Rattle.std.specs.Prelude.{◌≡◌, ◌≢◌, ℕ, ◌++◌, List, length, IfSome, IfNone};
ghost use Rattle.hex.specs.Hex.{encode_lower, IsBytes};

use hex::{decode_to_slice, encode_to_slice};

/// A SHA-256 sum.
#[derive(Clone, Copy, Debug, PartialEq, Eq)]
pub struct Sum(pub [u8; 32]);

/// The sum that the text begins with, as 64 lower-case hex digits, and what follows them.
pub(crate) fn first_sum(text: &[u8]) -> Option<(Sum, &[u8])>
    ensures some { IfSome result (λ p. (text.now ≡ encode_lower p.0.0 ++ p.1.now) × (length p.0.0 ≡ 32) × IsBytes p.0.0) }
    ensures none { IfNone result ((sum rest : List ℕ) → length sum ≡ 32 → IsBytes sum → text.now ≢ encode_lower sum ++ rest) }
{
    if text.len() < 64 {
        return None;
    }
    let (digits, rest) = text.split_at(64);
    let mut sum = [0u8; 32];
    if decode_to_slice(digits, &mut sum).is_err() {
        return None;
    }
    let mut again = [0u8; 64];
    if encode_to_slice(&sum[..], &mut again).is_err() {
        return None;
    }
    if digits != &again[..] {
        return None;
    }
    Some((Sum(sum), rest))
}

/// The 64 lower-case hex digits of a sum.
pub(crate) fn digits_of(sum: [u8; 32]) -> [u8; 64]
    ensures { result ≡ encode_lower sum }
{
    let mut digits = [0u8; 64];
    let _written = encode_to_slice(&sum[..], &mut digits);
    digits
}
