//! Numbers with what ends them.

ghost use Rattle.std.specs.Prelude.{◌≡◌, ◌≢◌, ℕ, ◌≤◌, ◌++◌, List, decimal, IfSome, IfNone};
ghost use Rattle.path_fields.specs.Splits.{HasNoDigitNext};

use path_fields::{number, strip};

/// A number of at most `most`, without leading zeros, that these bytes follow, and what follows them.
pub(crate) fn number_before<'a>(text: &'a [u8], most: u64, end: &[u8]) -> Option<(u64, &'a [u8])>
    requires { (rest : List ℕ) → HasNoDigitNext (end.now ++ rest) }
    ensures some { IfSome result (λ p. (text.now ≡ decimal p.0 ++ (end.now ++ p.1.now)) × (p.0 ≤ most)) }
    ensures none { IfNone result ((n : ℕ) (rest : List ℕ) → n ≤ most → text.now ≢ decimal n ++ (end.now ++ rest)) }
{
    let (value, rest) = number(text)?;
    if value > most {
        return None;
    }
    let rest = strip(rest, end)?;
    Some((value, rest))
}
