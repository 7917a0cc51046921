//! The next tokens.

ghost use Rattle.std.specs.Prelude.{◌≡◌, ℕ, ◌<◌, List, ◌∷◌, length, IfOk, IfErr, IfSome, IfNone};
ghost use Rattle.path_lex.specs.Spelling.{Piece, sign as a_sign, reserved as a_word, name as a_name, number as a_number};
ghost use Rattle.path_decl.specs.Forms.{LawForm};
ghost use Rattle.path_decl.specs.Grammar.{IsLaw};
ghost use Rattle.path_read.specs.Inner.Parts.{law_said};
ghost use Rattle.path_read.specs.Inner.Reading.{told, Begins, Fails};

use crate::part::LawText;
use path_lex::{DeclFault, Reserved, Sign, Token};

/// The offset of the next token, or the end of the text if there is none.
pub(crate) fn place(tokens: &[Token<'_>], end: u32) -> u32 {
    match tokens.first() {
        Some(token) => token.at(),
        None => end,
    }
}

/// If this sign comes first: its offset and the tokens after it.
pub(crate) fn after_sign<'t, 'a>(
    tokens: &'t [Token<'a>],
    wanted: Sign,
) -> Option<(u32, &'t [Token<'a>])>
    ensures some { IfSome result (λ p. told tokens.now ≡ a_sign wanted ∷ told p.1.now) }
    ensures shorter { IfSome result (λ p. length p.1.now < length tokens.now) }
    ensures none { IfNone result (Begins (a_sign wanted) (told tokens.now) → ⊥) }
{
    let (first, rest) = tokens.split_first()?;
    let Token::Sign(at, sign) = first else {
        return None;
    };
    if *sign == wanted {
        Some((*at, rest))
    } else {
        None
    }
}

/// If this word comes first: its offset and the tokens after it.
pub(crate) fn after_word<'t, 'a>(
    tokens: &'t [Token<'a>],
    wanted: Reserved,
) -> Option<(u32, &'t [Token<'a>])>
    ensures some { IfSome result (λ p. told tokens.now ≡ a_word wanted ∷ told p.1.now) }
    ensures shorter { IfSome result (λ p. length p.1.now < length tokens.now) }
    ensures none { IfNone result (Begins (a_word wanted) (told tokens.now) → ⊥) }
{
    let (first, rest) = tokens.split_first()?;
    let Token::Reserved(at, word) = first else {
        return None;
    };
    if *word == wanted {
        Some((*at, rest))
    } else {
        None
    }
}

/// If a name comes first: the name, its offset and the tokens after it.
pub(crate) fn split_name<'t, 'a>(tokens: &'t [Token<'a>]) -> Option<(&'a str, u32, &'t [Token<'a>])>
    ensures some { IfSome result (λ p. told tokens.now ≡ a_name p.0.now ∷ told p.2.now) }
    ensures shorter { IfSome result (λ p. length p.2.now < length tokens.now) }
    ensures none { IfNone result ((n : List ℕ) → Begins (a_name n) (told tokens.now) → ⊥) }
{
    let (first, rest) = tokens.split_first()?;
    let Token::Name(at, name) = first else {
        return None;
    };
    Some((*name, *at, rest))
}

/// If a number comes first: its digits, their offset and the tokens after them.
fn split_number<'t, 'a>(tokens: &'t [Token<'a>]) -> Option<(&'a [u8], u32, &'t [Token<'a>])>
    ensures some { IfSome result (λ p. told tokens.now ≡ a_number p.0.now ∷ told p.2.now) }
    ensures shorter { IfSome result (λ p. length p.2.now < length tokens.now) }
    ensures none { IfNone result ((n : List ℕ) → Begins (a_number n) (told tokens.now) → ⊥) }
{
    let (first, rest) = tokens.split_first()?;
    let Token::Number(at, digits) = first else {
        return None;
    };
    Some((*digits, *at, rest))
}

/// The tokens after this word, which must come first; else `Unexpected`.
pub(crate) fn expect_word<'t, 'a>(
    tokens: &'t [Token<'a>],
    wanted: Reserved,
    end: u32,
) -> Result<&'t [Token<'a>], DeclFault>
    ensures ok { IfOk result (λ rest. told tokens.now ≡ a_word wanted ∷ told rest.now) }
    ensures shorter { IfOk result (λ rest. length rest.now < length tokens.now) }
    ensures err { IfErr result (λ e. Fails e (Begins (a_word wanted) (told tokens.now) → ⊥)) }
{
    match after_word(tokens, wanted) {
        Some((_, rest)) => Ok(rest),
        None => Err(DeclFault::Unexpected(place(tokens, end))),
    }
}

/// The name that must come first, its offset and the tokens after it; else `Unexpected`.
pub(crate) fn expect_name<'t, 'a>(
    tokens: &'t [Token<'a>],
    end: u32,
) -> Result<(&'a str, u32, &'t [Token<'a>]), DeclFault>
    ensures ok { IfOk result (λ p. told tokens.now ≡ a_name p.0.now ∷ told p.2.now) }
    ensures shorter { IfOk result (λ p. length p.2.now < length tokens.now) }
    ensures err { IfErr result (λ e. Fails e ((n : List ℕ) → Begins (a_name n) (told tokens.now) → ⊥)) }
{
    match split_name(tokens) {
        Some(found) => Ok(found),
        None => Err(DeclFault::Unexpected(place(tokens, end))),
    }
}

/// The digits of the number that must come first, their offset and the tokens after them; else `Unexpected`.
pub(crate) fn expect_number<'t, 'a>(
    tokens: &'t [Token<'a>],
    end: u32,
) -> Result<(&'a [u8], u32, &'t [Token<'a>]), DeclFault>
    ensures ok { IfOk result (λ p. told tokens.now ≡ a_number p.0.now ∷ told p.2.now) }
    ensures shorter { IfOk result (λ p. length p.2.now < length tokens.now) }
    ensures err { IfErr result (λ e. Fails e ((n : List ℕ) → Begins (a_number n) (told tokens.now) → ⊥)) }
{
    match split_number(tokens) {
        Some(found) => Ok(found),
        None => Err(DeclFault::Unexpected(place(tokens, end))),
    }
}

/// The law that must come first, its offset and the tokens after it; else `Unexpected`. The offset of a queue is that of its capacity.
pub(crate) fn expect_law<'t, 'a>(
    tokens: &'t [Token<'a>],
    end: u32,
) -> Result<(LawText<'a>, u32, &'t [Token<'a>]), DeclFault>
    ensures ok { IfOk result (λ p. IsLaw (told tokens.now) (told p.2.now) (law_said p.0)) }
    ensures shorter { IfOk result (λ p. length p.2.now < length tokens.now) }
    ensures err { IfErr result (λ e. Fails e ((rest : List Piece) (l : LawForm) → IsLaw (told tokens.now) rest l → ⊥)) }
{
    if let Some((at, rest)) = after_word(tokens, Reserved::Cell) {
        return Ok((LawText::Cell, at, rest));
    }
    if let Some((at, rest)) = after_word(tokens, Reserved::Tally) {
        return Ok((LawText::Tally, at, rest));
    }
    let sized = expect_word(tokens, Reserved::Queue, end)?;
    let (digits, at, rest) = expect_number(sized, end)?;
    Ok((LawText::Queue(digits), at, rest))
}
