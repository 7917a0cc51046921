//! Standard input in two parts.

ghost use Rattle.std.specs.Prelude.{◌≡◌, ℕ, List};
ghost use Rattle.tell_base.specs.Inputs.{Cuts};

use path_fields::cut;

/// Cuts at the first line that is exactly `%`: the declaration is what precedes that line, and the attempts are what follows it and
/// its line feed. Without a line `%` the declaration is the whole input. Allocates nothing.
pub fn whole(input: &[u8]) -> (&[u8], &[u8])
    ensures cuts { Cuts input.now result.0.now result.1.now }
    // There is only one way to cut.
    ensures only { (before after : List ℕ) → Cuts input.now before after → (before ≡ result.0.now) × (after ≡ result.1.now) }
{
    let mut at = 0usize;
    let mut rest = input;
    while let Some((line, after)) = cut(rest, b'\n') {
        if line == b"%".as_slice() {
            return (&input[..at], after);
        }
        at += line.len() + 1;
        rest = after;
    }
    if rest == b"%".as_slice() {
        return (&input[..at], b"");
    }
    (input, b"")
}
