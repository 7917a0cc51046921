//! From bytes to tokens.

ghost use Rattle.std.specs.Prelude.{◌≡◌, ◌⊎◌, ℕ, ◌+◌, ◌-◌, ◌<◌, ◌≤◌, ◌↔◌, List, length, IsTrue, IfOk, OnErr, IfErr, IsErrOf};
ghost use Rattle.std.specs.Str.{IsAscii};
ghost use Rattle.path_lex.specs.Bytes.{class_of, IsBad, IsFirstBad};
ghost use Rattle.path_lex.specs.Names.{reserved_of, IsWordText, IsName};
ghost use Rattle.path_lex.specs.Spelling.{word_len, number_len, word, Placed, placed, view, views, Spells, AreWithin, AreTokensOf};
ghost use Rattle.path_lex.specs.Spelling.{IsFirstLongWord, IsFirstLongNumber};
ghost use Rattle.path_lex.specs.Tokenless.{CutFails, LongFails, NoTokens};

use crate::fault::DeclFault;
use crate::token::{Class, Reserved, Sign, Token};
use std::alloc::Allocator;

/// The most bytes of a text.
const LONGEST_TEXT: usize = 65_536;

/// The most bytes of a word.
const LONGEST_WORD: usize = 32;

/// The most digits of a number.
const LONGEST_NUMBER: usize = 9;

#[tactic(auto, unfolding(crate::specs::Bytes::class_of))]
fn class(b: u8) -> Class
    ensures { result ≡ class_of b }
{
    match b {
        b' ' | b'\t' | b'\n' | b'\r' => Class::Space,
        b'A'..=b'Z' | b'a'..=b'z' => Class::Letter,
        b'0'..=b'9' => Class::Digit,
        b'_' => Class::Underscore,
        b';' => Class::Sign(Sign::Semicolon),
        b',' => Class::Sign(Sign::Comma),
        b':' => Class::Sign(Sign::Colon),
        b'(' => Class::Sign(Sign::OpenParen),
        b')' => Class::Sign(Sign::CloseParen),
        b'{' => Class::Sign(Sign::OpenBrace),
        b'}' => Class::Sign(Sign::CloseBrace),
        _ => Class::Other,
    }
}

/// How many of the first bytes belong to a word.
fn word_part(bytes: &[u8]) -> usize
    ensures within { result ≤ length bytes.now }
    ensures part { result ≡ word_len bytes.now }
{
    bytes
        .iter()
        .take_while(|b| matches!(class(**b), Class::Letter | Class::Digit | Class::Underscore))
        .count()
}

/// How many of the first bytes belong to a number.
fn number_part(bytes: &[u8]) -> usize
    ensures within { result ≤ length bytes.now }
    ensures part { result ≡ number_len bytes.now }
{
    bytes
        .iter()
        .take_while(|b| matches!(class(**b), Class::Digit))
        .count()
}

/// The reserved word with these bytes, if there is one.
#[tactic(auto, unfolding(crate::specs::Names::reserved_of))]
fn reserved(word: &[u8]) -> Option<Reserved>
    ensures { result ≡ reserved_of word.now }
{
    if word == b"resource".as_slice() {
        Some(Reserved::Resource)
    } else if word == b"operation".as_slice() {
        Some(Reserved::Operation)
    } else if word == b"path".as_slice() {
        Some(Reserved::Path)
    } else if word == b"end".as_slice() {
        Some(Reserved::End)
    } else if word == b"cell".as_slice() {
        Some(Reserved::Cell)
    } else if word == b"tally".as_slice() {
        Some(Reserved::Tally)
    } else if word == b"queue".as_slice() {
        Some(Reserved::Queue)
    } else {
        None
    }
}

/// Whether the bytes are a letter followed by letters, digits and underscores.
fn is_word(text: &[u8]) -> bool
    ensures { IsTrue result ↔ IsWordText text.now }
{
    let Some((first, rest)) = text.split_first() else {
        return false;
    };
    match class(*first) {
        Class::Letter => word_part(rest) == rest.len(),
        _ => false,
    }
}

/// Whether the bytes are a name: a letter followed by letters, digits and underscores, at most 32 bytes, and not a reserved
/// word. Looks at no more than 33 of the bytes.
pub fn is_name(text: &[u8]) -> bool
    ensures { IsTrue result ↔ IsName text.now }
{
    if text.len() > LONGEST_WORD {
        return false;
    }
    if !is_word(text) {
        return false;
    }
    reserved(text).is_none()
}

/// The token of a word at this offset: reserved, or a name. The bytes of a word are ASCII.
fn word_token(at: u32, text: &[u8]) -> Token<'_>
    requires { IsAscii text.now }
    ensures { view result ≡ placed (word text.now) at }
{
    if let Some(reserved) = reserved(text) {
        return Token::Reserved(at, reserved);
    }
    let name = unsafe { std::str::from_utf8_unchecked(text) };
    Token::Name(at, name)
}

/// The tokens of a text, with words and numbers of any length.
fn cut<A: Allocator + Copy>(alloc: A, text: &[u8]) -> Result<Vec<Token<'_>, A>, DeclFault>
    requires { length text.now ≤ 65536 }
    ensures ok { IfOk result (λ v. Spells 0 text.now (views v.items)) }
    ensures only { IfOk result (λ v. (ts : List Placed) → Spells 0 text.now ts → ts ≡ views v.items) }
    ensures good { IfOk result (λ _. (k : ℕ) → IsBad text.now k → ⊥) }
    ensures err { IfErr result (λ e. CutFails text.now e) }
{
    let mut tokens = Vec::new(alloc);
    let mut at = 0usize;
    while at < text.len() {
        match class(text[at]) {
            Class::Space => at += 1,
            Class::Sign(sign) => {
                tokens.push(Token::Sign(at as u32, sign))?;
                at += 1;
            }
            Class::Letter => {
                let end = at + 1 + word_part(&text[at + 1..]);
                tokens.push(word_token(at as u32, &text[at..end]))?;
                at = end;
            }
            Class::Digit => {
                let end = at + 1 + number_part(&text[at + 1..]);
                tokens.push(Token::Number(at as u32, &text[at..end]))?;
                at = end;
            }
            Class::Underscore | Class::Other => return Err(DeclFault::BadByte(at as u32)),
        }
    }
    Ok(tokens)
}

/// Fails at the first word or number that is too long.
fn check_lengths(tokens: &[Token<'_>]) -> Result<(), DeclFault>
    ensures ok { IfOk result (λ _. AreWithin (views tokens.now)) }
    ensures err { IfErr result (λ e. LongFails (views tokens.now) e) }
{
    for token in tokens {
        match token {
            Token::Name(at, name) if name.len() > LONGEST_WORD => {
                return Err(DeclFault::WordTooLong(*at));
            }
            Token::Number(at, digits) if digits.len() > LONGEST_NUMBER => {
                return Err(DeclFault::NumberTooLong(*at));
            }
            _ => {}
        }
    }
    Ok(())
}

/// Cuts a text into tokens. Fails with the first fault in this order: the text is too long; the first bad byte; the first word or
/// number that is too long. `OutOfMemory` may come at any point. Takes time in proportion to the text, and memory in proportion to
/// its tokens.
pub fn tokens<A: Allocator + Copy>(alloc: A, text: &[u8]) -> Result<Vec<Token<'_>, A>, DeclFault>
    // The text is made of these tokens, and of no others.
    ensures ok { IfOk result (λ v. AreTokensOf text.now (views v.items)) }
    ensures only { IfOk result (λ v. (ts : List Placed) → AreTokensOf text.now ts → ts ≡ views v.items) }
    // Any error but OutOfMemory: the text isn't made of tokens within the limits.
    ensures err { IfErr result (λ e. NoTokens text.now e) }
    // If a text that isn't too long has a bad byte, the error names the first one, unless allocation fails.
    ensures bad_byte { (at : ℕ) → length text.now ≤ 65536 → IsFirstBad text.now at
        → IsErrOf result (DeclFault.BadByte at) ⊎ IsErrOf result DeclFault.OutOfMemory }
    // The same of the first word or number that is too long, in a text that can be cut into tokens.
    ensures word_too_long { (at : ℕ) → length text.now ≤ 65536 → IsFirstLongWord text.now at
        → IsErrOf result (DeclFault.WordTooLong at) ⊎ IsErrOf result DeclFault.OutOfMemory }
    ensures number_too_long { (at : ℕ) → length text.now ≤ 65536 → IsFirstLongNumber text.now at
        → IsErrOf result (DeclFault.NumberTooLong at) ⊎ IsErrOf result DeclFault.OutOfMemory }
    ensures too_long { IsErrOf result DeclFault.TooLong ↔ (65536 < length text.now) }
{
    if text.len() > LONGEST_TEXT {
        return Err(DeclFault::TooLong);
    }
    let tokens = cut(alloc, text)?;
    check_lengths(&tokens)?;
    Ok(tokens)
}
