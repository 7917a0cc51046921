//! The numbers of a declaration.

ghost use Rattle.std.specs.Prelude.{◌≡◌, IfSome, IfNone};
ghost use Rattle.std.specs.Str.Parse.{digits_value};
ghost use Rattle.path_decl.specs.Numerals.{IsUpTo};

use path_fields::number;

/// The number that the digits denote if it is 1 to `most`; `None` for 0, for digits that begin with 0, and for a greater number.
/// Takes time in proportion to the digits.
pub(crate) fn number_up_to(most: u32, digits: &[u8]) -> Option<u32>
    ensures some { IfSome result (λ n. IsUpTo most digits.now × (n ≡ digits_value 10 digits.now)) }
    ensures none { IfNone result (IsUpTo most digits.now → ⊥) }
{
    let (value, rest) = number(digits)?;
    if !rest.is_empty() || value == 0 || value > u64::from(most) {
        return None;
    }
    Some(value as u32)
}
