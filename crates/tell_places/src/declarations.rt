//! Texts of declarations.

ghost use Rattle.std.specs.Prelude.{◌≡◌, ◌<◌, IfNone, IfOk, IfSome, length};
ghost use Rattle.path_lex.specs.declared.fault.DeclFault.TheVariants as faults;
ghost use Rattle.tell_places.specs.Places.{IsDeclarationSpot, IsSpotAt, offset_of};

use crate::finding::Finding;
use crate::likely::{Likely, likely_at};
use crate::near::{is_misspelled, nearest_name};
use crate::places::{Spot, spot_at};
use crate::wording::Wrong;
use path_lex::{DeclFault, Reserved, Token, tokens};
use path_model::OutOfMemory;
use path_read::read;
use std::alloc::Allocator;

/// The most bytes of a declaration.
const LIMIT: u32 = 65_536;

/// Each kind of token: how it is told, and one of its kind.
const KINDS: &[(&str, &[u8])] = &[
    ("`resource`", b"resource"),
    ("`operation`", b"operation"),
    ("`path`", b"path"),
    ("`end`", b"end"),
    ("`cell`", b"cell"),
    ("`tally`", b"tally"),
    ("`queue`", b"queue"),
    ("a name", b"x"),
    ("a number", b"1"),
    ("`;`", b";"),
    ("`,`", b","),
    ("`:`", b":"),
    ("`(`", b"("),
    ("`)`", b")"),
    ("`{`", b"{"),
    ("`}`", b"}"),
];

/// The reserved words.
const RESERVED: &[&str] = &[
    "resource",
    "operation",
    "path",
    "end",
    "cell",
    "tally",
    "queue",
];

/// These bytes, a space and a token.
fn with_token<A: Allocator + Copy>(
    alloc: A,
    before: &[u8],
    token: &[u8],
) -> Result<Vec<u8, A>, OutOfMemory> {
    let mut text = Vec::new(alloc);
    text.extend_from_slice(before)?;
    text.push(b' ')?;
    text.extend_from_slice(token)?;
    Ok(text)
}

/// Whether a token can go on behind these bytes: a text that ends with it isn't at fault there or before, by the grammar. None can if a
/// token among these bytes is too long.
fn goes_on<A: Allocator + Copy>(
    alloc: A,
    before: &[u8],
    token: &[u8],
) -> Result<bool, OutOfMemory> {
    let text = with_token(alloc, before, token)?;
    let place = text.len().saturating_sub(token.len());
    match read(alloc, &text) {
        Err(DeclFault::OutOfMemory) => Err(OutOfMemory),
        Err(DeclFault::Unexpected(at) | DeclFault::TooDeep(at)) => Ok(at as usize > place),
        Err(
            DeclFault::TooLong
            | DeclFault::BadByte(_)
            | DeclFault::WordTooLong(_)
            | DeclFault::NumberTooLong(_),
        ) => Ok(false),
        _ => Ok(true),
    }
}

/// Appends one more of several choices.
fn push_choice<A: Allocator + Copy>(out: &mut String<A>, choice: &str) -> Result<(), OutOfMemory> {
    if !out.is_empty() {
        out.push_str(" or ")?;
    }
    out.push_str(choice)?;
    Ok(())
}

/// The tokens that can go on behind these bytes.
fn choices<A: Allocator + Copy>(alloc: A, before: &[u8]) -> Result<String<A>, OutOfMemory> {
    let mut out = String::new(alloc);
    for (told, token) in KINDS {
        if goes_on(alloc, before, token)? {
            push_choice(&mut out, told)?;
        }
    }
    Ok(out)
}

/// What a token that breaks a rule should have been; empty if that can't be said in few words.
fn rule(fault: DeclFault) -> &'static str {
    match fault {
        DeclFault::BadCapacity(_) => "a number from 1 to 1024, without leading zeros",
        DeclFault::BadCount(_) => "a number from 1 to 65535, without leading zeros",
        DeclFault::Undeclared(_) => "an operation that the resource declares",
        DeclFault::DuplicateResource(_) | DeclFault::DuplicateOperation(_) => "a name of its own",
        DeclFault::RepeatedName(_) => "each name once in a path",
        DeclFault::NestedBraces(_) => "a name or `(`",
        _ => "",
    }
}

/// What could stand where a declaration has this fault.
fn wanted<A: Allocator + Copy>(
    alloc: A,
    text: &[u8],
    fault: DeclFault,
) -> Result<String<A>, OutOfMemory> {
    match fault {
        DeclFault::BadByte(at)
        | DeclFault::WordTooLong(at)
        | DeclFault::NumberTooLong(at)
        | DeclFault::Unexpected(at)
        | DeclFault::TooDeep(at) => choices(alloc, text.get(..at as usize).unwrap_or(text)),
        DeclFault::TooMany(at) => limit(alloc, text, at),
        _ => Ok(String::from_str(alloc, rule(fault))?),
    }
}

/// Which limit the token at this offset passes.
fn limit_at(tokens: &[Token<'_>], offset: u32) -> &'static str {
    let mut last = (0, Reserved::Resource);
    for token in tokens.iter().take_while(|token| token.at() <= offset) {
        if let Token::Reserved(at, word) = token {
            last = (*at, *word);
        }
    }
    match last {
        (_, Reserved::Resource) => "at most 64 resources",
        (_, Reserved::Operation) => "at most 256 operations",
        (at, _) if at == offset => "at most 256 paths",
        _ => "at most 64 names in a path",
    }
}

/// Which limit the token at this offset of a text passes.
fn limit<A: Allocator + Copy>(
    alloc: A,
    text: &[u8],
    offset: u32,
) -> Result<String<A>, OutOfMemory> {
    match tokens(alloc, text) {
        Ok(tokens) => Ok(String::from_str(alloc, limit_at(&tokens, offset))?),
        Err(DeclFault::OutOfMemory) => Err(OutOfMemory),
        Err(_) => Ok(String::new(alloc)),
    }
}

/// The operations that the resource declares in which the token at this offset stands.
fn operations_before<'a, A: Allocator + Copy>(
    alloc: A,
    tokens: &[Token<'a>],
    offset: u32,
) -> Result<Vec<&'a str, A>, OutOfMemory> {
    let mut names = Vec::new(alloc);
    let mut declares = false;
    for token in tokens {
        if token.at() >= offset {
            break;
        }
        match token {
            Token::Reserved(_, word) => {
                if *word == Reserved::Resource {
                    names.clear();
                }
                declares = *word == Reserved::Operation;
            }
            Token::Name(_, name) if declares => names.push(*name)?,
            _ => {}
        }
    }
    Ok(names)
}

/// The name at this offset.
fn name_at<'a>(tokens: &[Token<'a>], offset: u32) -> Option<&'a str> {
    tokens.iter().find_map(|token| match token {
        Token::Name(at, name) if *at == offset => Some(*name),
        _ => None,
    })
}

/// The operation that is nearest to the name at this offset, of the resource in which that stands; empty if none is near.
fn nearest_operation<A: Allocator + Copy>(
    alloc: A,
    tokens: &[Token<'_>],
    offset: u32,
) -> Result<String<A>, OutOfMemory> {
    let names = operations_before(alloc, tokens, offset)?;
    let name = name_at(tokens, offset).unwrap_or("");
    nearest_name(alloc, name, &names)
}

/// The operation of the resource that is nearest to an undeclared one; empty if none is near.
fn nearest_to<A: Allocator + Copy>(
    alloc: A,
    text: &[u8],
    fault: DeclFault,
) -> Result<String<A>, OutOfMemory> {
    let DeclFault::Undeclared(offset) = fault else {
        return Ok(String::new(alloc));
    };
    match tokens(alloc, text) {
        Ok(tokens) => nearest_operation(alloc, &tokens, offset),
        Err(DeclFault::OutOfMemory) => Err(OutOfMemory),
        Err(_) => Ok(String::new(alloc)),
    }
}

/// The offset of a fault.
fn offset(fault: DeclFault) -> Option<u32>
    ensures { result ≡ offset_of fault }
{
    match fault {
        DeclFault::OutOfMemory => None,
        DeclFault::TooLong => Some(LIMIT),
        DeclFault::BadByte(at)
        | DeclFault::WordTooLong(at)
        | DeclFault::NumberTooLong(at)
        | DeclFault::Unexpected(at)
        | DeclFault::TooDeep(at)
        | DeclFault::DuplicateResource(at)
        | DeclFault::DuplicateOperation(at)
        | DeclFault::Undeclared(at)
        | DeclFault::RepeatedName(at)
        | DeclFault::NestedBraces(at)
        | DeclFault::BadCapacity(at)
        | DeclFault::BadCount(at)
        | DeclFault::TooMany(at) => Some(at),
    }
}

/// The place of an offset; at the end of the text, the end of its last token.
fn place(text: &[u8], offset: u32) -> Spot<'_>
    ensures { offset < length text.now → IsSpotAt text.now offset result }
{
    let offset = offset as usize;
    if offset < text.len() {
        return spot_at(text, offset);
    }
    spot_at(text, text.trim_ascii_end().len())
}

/// Whether this can be the cause of a declaration's fault: white space has no meaning there.
fn matters(likely: Likely) -> bool {
    !matches!(
        likely,
        Likely::CarriageReturn | Likely::Tab | Likely::BlankLine | Likely::Space
    )
}

/// The reserved word that is misspelled here, if it could stand behind these bytes.
fn misspelled_word<A: Allocator + Copy>(
    alloc: A,
    before: &[u8],
    token: &[u8],
) -> Result<Option<Likely>, OutOfMemory> {
    for word in RESERVED {
        if is_misspelled(alloc, token, *word)? && goes_on(alloc, before, word.as_bytes())? {
            return Ok(Some(Likely::Misspelled(*word)));
        }
    }
    Ok(None)
}

/// The likely cause of a token that can't stand behind these bytes.
fn likely_token<A: Allocator + Copy>(
    alloc: A,
    before: &[u8],
    token: &[u8],
) -> Result<Option<Likely>, OutOfMemory> {
    match token {
        b"path" | b"operation" if goes_on(alloc, before, b"resource")? => {
            Ok(Some(Likely::OutsideResource))
        }
        _ => misspelled_word(alloc, before, token),
    }
}

/// The likely cause of a declaration's fault at this place.
fn likely_cause<A: Allocator + Copy>(
    alloc: A,
    text: &[u8],
    fault: DeclFault,
    spot: &Spot<'_>,
) -> Result<Option<Likely>, OutOfMemory> {
    let told = likely_at(spot).filter(|likely| matters(*likely));
    match (told, fault) {
        (None, DeclFault::Unexpected(at)) => {
            likely_token(alloc, text.get(..at as usize).unwrap_or(text), spot.token())
        }
        _ => Ok(told),
    }
}

/// Where a text has this fault, which [`read`](path_read::read) found in it; `None` if memory was wanting then. At the end of the text
/// the place is the end of the last token. Where no token can stand there, or none of its kind, all kinds of tokens are told that the
/// grammar allows behind those before; where a rule is broken, what the rule asks for.
///
/// Fails only if allocation fails. The cost is at most that of reading what is before the place once for each of the 16 kinds of tokens
/// and of the seven reserved words, and of a few passes over the text.
pub fn declaration_finding<A: Allocator + Copy>(
    alloc: A,
    text: &[u8],
    fault: DeclFault,
) -> Result<Option<Finding<'_, A>>, OutOfMemory>
    ensures spot { IfOk result (λ found. IfSome found (λ finding. IsDeclarationSpot text.now fault finding.spot)) }
    ensures none { IfOk result (λ found. IfNone found (fault ≡ faults.OutOfMemory)) }
{
    let Some(offset) = offset(fault) else {
        return Ok(None);
    };
    let spot = place(text, offset);
    Ok(Some(Finding {
        spot,
        wrong: Wrong::Declaration(fault),
        wanted: wanted(alloc, text, fault)?,
        nearest: nearest_to(alloc, text, fault)?,
        likely: likely_cause(alloc, text, fault, &spot)?,
    }))
}
