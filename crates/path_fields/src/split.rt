//! Cutting texts into fields.

ghost use Rattle.std.specs.Prelude.{◌≡◌, ◌≢◌, ℕ, ◌+◌, ◌<◌, ◌≤◌, ◌∷◌, ◌++◌, length, slice_index, take, drop};
ghost use Rattle.std.specs.Prelude.{IfSome, IfNone, MatchOption, List};
ghost use Rattle.path_fields.specs.Splits.{HasNone, EndsAt};

/// The index of the first byte with this value.
fn place_of(text: &[u8], byte: u8) -> Option<usize>
    ensures within { IfSome result (λ at. at < length text.now) }
    ensures found { IfSome result (λ at. slice_index text.now at ≡ byte) }
    ensures first { IfSome result (λ at. HasNone byte (take at text.now)) }
    ensures none { IfNone result (HasNone byte text.now) }
{
    text.iter().position(|other| *other == byte)
}

/// The bytes before the first separator, and those after it; `None` if there is no separator. One pass over the text.
pub fn cut(text: &[u8], separator: u8) -> Option<(&[u8], &[u8])>
    ensures some { IfSome result (λ p. text.now ≡ p.0.now ++ separator ∷ p.1.now) }
    ensures first { IfSome result (λ p. HasNone separator p.0.now) }
    ensures none { IfNone result (HasNone separator text.now) }
{
    let at = place_of(text, separator)?;
    Some((&text[..at], &text[at + 1..]))
}

/// The bytes before the first separator, and the rest of the text from that separator on; without a separator, the whole text
/// and an empty rest. One pass over what is before it.
pub fn until(text: &[u8], separator: u8) -> (&[u8], &[u8])
    ensures parts { text.now ≡ result.0.now ++ result.1.now }
    ensures first { HasNone separator result.0.now }
    ensures end { EndsAt separator result.1.now }
{
    match place_of(text, separator) {
        Some(at) => (&text[..at], &text[at..]),
        None => (text, &[]),
    }
}

/// What follows `front` if the text begins with it.
pub fn strip<'a>(text: &'a [u8], front: &[u8]) -> Option<&'a [u8]>
    ensures { MatchOption result ((rest : List ℕ) → text.now ≢ front.now ++ rest) (λ rest. text.now ≡ front.now ++ rest.now) }
{
    if text.len() < front.len() {
        return None;
    }
    for at in 0..front.len() {
        if text[at] != front[at] {
            return None;
        }
    }
    Some(&text[front.len()..])
}

/// The text itself if the line has ended: the text is empty or begins with a line feed. Else `None`.
pub fn at_end(text: &[u8]) -> Option<&[u8]>
    ensures { MatchOption result (EndsAt 10 text.now → ⊥) (λ same. (same.now ≡ text.now) × EndsAt 10 same.now) }
{
    match text.first() {
        None => Some(text),
        Some(byte) if *byte == b'\n' => Some(text),
        Some(_) => None,
    }
}

/// What follows a line of `line` bytes and its line feed, which the last line of a text may lack.
pub fn after_line(text: &[u8], line: usize) -> &[u8]
    requires { line ≤ length text.now }
    ensures { result.now ≡ drop (line + 1) text.now }
{
    text.get(line + 1..).unwrap_or(&[])
}
