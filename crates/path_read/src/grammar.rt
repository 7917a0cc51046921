//! Paths: from tokens to parts, by the grammar.

ghost use Rattle.std.specs.Prelude.{ℕ, ◌<◌, List, [], ◌∷◌, Option, length, IfOk, IfErr};
ghost use Rattle.path_lex.specs.Spelling.{Piece};
ghost use Rattle.path_decl.specs.Forms.{Form};
ghost use Rattle.path_decl.specs.Grammar.{IsClosing};
ghost use Rattle.path_read.specs.Inner.Parts.{a_closing, form_parts};
ghost use Rattle.path_read.specs.Inner.Reading.{told, Fails, ReadsUnit, ReadsBraces, ReadsAlt, ReadsSeq};
ghost use Rattle.path_read.specs.Inner.Taking.{taken, Adds};

use crate::ahead::{after_sign, expect_number, place, split_name};
use crate::intake::Intake;
use crate::part::Part;
use path_lex::{DeclFault, Sign, Token};
use std::alloc::Allocator;

/// Reads what closes braces, with the bound if a colon comes first, and takes its part. Returns the tokens after it.
fn closing<'t, 'a, A: Allocator + Copy>(
    out: &mut Intake<A>,
    tokens: &'t [Token<'a>],
    end: u32,
) -> Result<&'t [Token<'a>], DeclFault>
    ensures found { IfOk result (λ rest.
        Adds (λ b. a_closing b ∷ []) (IsClosing (told tokens.now) (told rest.now)) (taken out.old) (taken out.new)) }
    ensures shorter { IfOk result (λ rest. length rest.now < length tokens.now) }
    ensures none { IfErr result (λ e. Fails e ((rest : List Piece) (b : Option (List ℕ)) → IsClosing (told tokens.now) rest b → ⊥)) }
{
    if let Some((_, bounded)) = after_sign(tokens, Sign::Colon) {
        let (digits, at, last) = expect_number(bounded, end)?;
        let Some((_, rest)) = after_sign(last, Sign::CloseBrace) else {
            return Err(DeclFault::Unexpected(place(last, end)));
        };
        out.take(Part::Bound(digits), at);
        return Ok(rest);
    }
    let Some((at, rest)) = after_sign(tokens, Sign::CloseBrace) else {
        return Err(DeclFault::Unexpected(place(tokens, end)));
    };
    out.take(Part::Closing, at);
    Ok(rest)
}

/// Reads braces after the one that opens them at `at`, and takes their parts. Returns the tokens after them.
#[cycle(grammar)]
fn braces<'t, 'a, A: Allocator + Copy>(
    out: &mut Intake<A>,
    inside: &'t [Token<'a>],
    at: u32,
    end: u32,
    depth: u32,
) -> Result<&'t [Token<'a>], DeclFault>
    ensures found { IfOk result (λ rest.
        Adds form_parts (ReadsBraces depth (told inside.now) (told rest.now)) (taken out.old) (taken out.new)) }
    ensures shorter { IfOk result (λ rest. length rest.now < length inside.now) }
    ensures none { IfErr result (λ e. Fails e ((rest : List Piece) (f : Form) → ReadsBraces depth (told inside.now) rest f → ⊥)) }
{
    if depth == 0 {
        return Err(DeclFault::TooDeep(at));
    }
    out.take(Part::Opening, at);
    let left = seq(out, inside, end, depth - 1)?;
    closing(out, left, end)
}

/// Reads a name, or a sequence in parentheses or braces, and takes its parts; at most `depth` parentheses and braces may open.
/// Returns the tokens after it.
#[cycle(grammar)]
fn unit<'t, 'a, A: Allocator + Copy>(
    out: &mut Intake<A>,
    tokens: &'t [Token<'a>],
    end: u32,
    depth: u32,
) -> Result<&'t [Token<'a>], DeclFault>
    ensures found { IfOk result (λ rest.
        Adds form_parts (ReadsUnit depth (told tokens.now) (told rest.now)) (taken out.old) (taken out.new)) }
    ensures shorter { IfOk result (λ rest. length rest.now < length tokens.now) }
    ensures none { IfErr result (λ e. Fails e ((rest : List Piece) (f : Form) → ReadsUnit depth (told tokens.now) rest f → ⊥)) }
{
    if let Some((name, at, rest)) = split_name(tokens) {
        out.take(Part::Name(name), at);
        return Ok(rest);
    }
    if let Some((at, inside)) = after_sign(tokens, Sign::OpenBrace) {
        return braces(out, inside, at, end, depth);
    }
    let Some((at, inside)) = after_sign(tokens, Sign::OpenParen) else {
        return Err(DeclFault::Unexpected(place(tokens, end)));
    };
    if depth == 0 {
        return Err(DeclFault::TooDeep(at));
    }
    let left = seq(out, inside, end, depth - 1)?;
    let Some((_, rest)) = after_sign(left, Sign::CloseParen) else {
        return Err(DeclFault::Unexpected(place(left, end)));
    };
    Ok(rest)
}

/// Reads units with `,` between them, and takes their parts. Returns the tokens after them.
#[cycle(grammar)]
fn alt<'t, 'a, A: Allocator + Copy>(
    out: &mut Intake<A>,
    tokens: &'t [Token<'a>],
    end: u32,
    depth: u32,
) -> Result<&'t [Token<'a>], DeclFault>
    ensures found { IfOk result (λ rest.
        Adds form_parts (ReadsAlt depth (told tokens.now) (told rest.now)) (taken out.old) (taken out.new)) }
    ensures shorter { IfOk result (λ rest. length rest.now < length tokens.now) }
    ensures none { IfErr result (λ e. Fails e ((rest : List Piece) (f : Form) → ReadsAlt depth (told tokens.now) rest f → ⊥)) }
{
    let mut rest = unit(out, tokens, end, depth)?;
    while let Some((at, left)) = after_sign(rest, Sign::Comma) {
        rest = unit(out, left, end, depth)?;
        out.take(Part::Selection, at);
    }
    Ok(rest)
}

/// Reads alternatives with `;` between them, and takes their parts. Returns the tokens after them.
#[cycle(grammar)]
pub(crate) fn seq<'t, 'a, A: Allocator + Copy>(
    out: &mut Intake<A>,
    tokens: &'t [Token<'a>],
    end: u32,
    depth: u32,
) -> Result<&'t [Token<'a>], DeclFault>
    ensures found { IfOk result (λ rest.
        Adds form_parts (ReadsSeq depth (told tokens.now) (told rest.now)) (taken out.old) (taken out.new)) }
    ensures shorter { IfOk result (λ rest. length rest.now < length tokens.now) }
    ensures none { IfErr result (λ e. Fails e ((rest : List Piece) (f : Form) → ReadsSeq depth (told tokens.now) rest f → ⊥)) }
{
    let mut rest = alt(out, tokens, end, depth)?;
    while let Some((at, left)) = after_sign(rest, Sign::Semicolon) {
        rest = alt(out, left, end, depth)?;
        out.take(Part::Sequence, at);
    }
    Ok(rest)
}
