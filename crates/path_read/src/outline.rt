//! Files: from tokens to parts, by the grammar.

ghost use Rattle.std.specs.Prelude.{◌≡◌, ℕ, ◌<◌, List, [], ◌∷◌, length, map, IfOk, OnOk, IfErr};
ghost use Rattle.path_lex.specs.Spelling.{Piece};
ghost use Rattle.path_decl.specs.Forms.{Form, LawForm, ResourceForm};
ghost use Rattle.path_decl.specs.Grammar.{IsLaw, IsFile};
ghost use Rattle.path_read.specs.Inner.Parts.{a_law, an_operation, body_parts, inner_parts, resource_parts, file_parts};
ghost use Rattle.path_read.specs.Inner.Reading.{told, Fails, ReadsNames, ReadsPath, ReadsBody, ReadsResource};
ghost use Rattle.path_read.specs.Inner.Building.{drafted, nothing, AllAllowed, after_all};
ghost use Rattle.path_read.specs.Inner.Taking.{taken, Adds};

use crate::ahead::{after_sign, after_word, expect_law, expect_name, expect_word, place};
use crate::draft::Draft;
use crate::grammar::seq;
use crate::intake::Intake;
use crate::part::Part;
use path_lex::{DeclFault, Reserved, Sign, Token};
use std::alloc::Allocator;

/// How many parentheses and braces may be open at once.
const DEEPEST: u32 = 32;

/// Reads a path after its first word, and takes its parts. Returns the tokens after it.
fn path<'t, 'a, A: Allocator + Copy>(
    out: &mut Intake<A>,
    tokens: &'t [Token<'a>],
    end: u32,
) -> Result<&'t [Token<'a>], DeclFault>
    ensures found { IfOk result (λ rest.
        Adds body_parts (ReadsPath (told tokens.now) (told rest.now)) (taken out.old) (taken out.new)) }
    ensures shorter { IfOk result (λ rest. length rest.now < length tokens.now) }
    ensures none { IfErr result (λ e. Fails e ((rest : List Piece) (f : Form) → ReadsPath (told tokens.now) rest f → ⊥)) }
{
    let left = seq(out, tokens, end, DEEPEST)?;
    let Some((at, rest)) = after_word(left, Reserved::End) else {
        return Err(DeclFault::Unexpected(place(left, end)));
    };
    out.take(Part::End, at);
    Ok(rest)
}

/// Reads the names of operations, with commas between them, and takes their parts. Returns the tokens after them.
fn operations<'t, 'a, A: Allocator + Copy>(
    out: &mut Intake<A>,
    tokens: &'t [Token<'a>],
    end: u32,
) -> Result<&'t [Token<'a>], DeclFault>
    ensures found { IfOk result (λ rest.
        Adds (map an_operation) (ReadsNames (told tokens.now) (told rest.now)) (taken out.old) (taken out.new)) }
    ensures shorter { IfOk result (λ rest. length rest.now < length tokens.now) }
    ensures none { IfErr result (λ e. Fails e ((rest : List Piece) (ns : List (List ℕ)) → ReadsNames (told tokens.now) rest ns → ⊥)) }
{
    let (name, at, mut rest) = expect_name(tokens, end)?;
    out.take(Part::Operation(name), at);
    while let Some((_, left)) = after_sign(rest, Sign::Comma) {
        let (name, at, after) = expect_name(left, end)?;
        out.take(Part::Operation(name), at);
        rest = after;
    }
    Ok(rest)
}

/// Reads operations and then paths, as many as follow, and takes their parts. Returns the tokens after them.
fn body<'t, 'a, A: Allocator + Copy>(
    out: &mut Intake<A>,
    tokens: &'t [Token<'a>],
    end: u32,
) -> Result<&'t [Token<'a>], DeclFault>
    ensures found { IfOk result (λ rest.
        Adds inner_parts (λ b. ReadsBody (told tokens.now) (told rest.now) b.0 b.1) (taken out.old) (taken out.new)) }
    ensures shorter { IfOk result (λ rest. length rest.now < length tokens.now) }
    ensures none { IfErr result (λ e.
        Fails e ((rest : List Piece) (ns : List (List ℕ)) (fs : List Form) → ReadsBody (told tokens.now) rest ns fs → ⊥)) }
{
    let mut rest = operations(out, tokens, end)?;
    while let Some((at, left)) = after_word(rest, Reserved::Path) {
        out.take(Part::Path, at);
        rest = path(out, left, end)?;
    }
    Ok(rest)
}

/// Reads a law, and takes its part. Returns the tokens after it.
fn law<'t, 'a, A: Allocator + Copy>(
    out: &mut Intake<A>,
    tokens: &'t [Token<'a>],
    end: u32,
) -> Result<&'t [Token<'a>], DeclFault>
    ensures found { IfOk result (λ rest.
        Adds (λ l. a_law l ∷ []) (IsLaw (told tokens.now) (told rest.now)) (taken out.old) (taken out.new)) }
    ensures shorter { IfOk result (λ rest. length rest.now < length tokens.now) }
    ensures none { IfErr result (λ e. Fails e ((rest : List Piece) (l : LawForm) → IsLaw (told tokens.now) rest l → ⊥)) }
{
    let (law, at, rest) = expect_law(tokens, end)?;
    out.take(Part::Law(law), at);
    Ok(rest)
}

/// Reads a resource, and takes its parts. Returns the tokens after it.
fn resource<'t, 'a, A: Allocator + Copy>(
    out: &mut Intake<A>,
    tokens: &'t [Token<'a>],
    end: u32,
) -> Result<&'t [Token<'a>], DeclFault>
    ensures found { IfOk result (λ rest.
        Adds resource_parts (ReadsResource (told tokens.now) (told rest.now)) (taken out.old) (taken out.new)) }
    ensures shorter { IfOk result (λ rest. length rest.now < length tokens.now) }
    ensures none { IfErr result (λ e. Fails e ((rest : List Piece) (r : ResourceForm) → ReadsResource (told tokens.now) rest r → ⊥)) }
{
    let named = expect_word(tokens, Reserved::Resource, end)?;
    let (name, at, lawful) = expect_name(named, end)?;
    out.take(Part::Resource(name), at);
    let kind = law(out, lawful, end)?;
    let inside = expect_word(kind, Reserved::Operation, end)?;
    let last = body(out, inside, end)?;
    expect_word(last, Reserved::End, end)
}

/// Reads resources up to the end of the text, and takes their parts.
fn resources<A: Allocator + Copy>(
    out: &mut Intake<A>,
    tokens: &[Token<'_>],
    end: u32,
) -> Result<(), DeclFault>
    ensures found { OnOk result (Adds file_parts (IsFile (told tokens.now)) (taken out.old) (taken out.new)) }
    ensures none { IfErr result (λ e. Fails e ((rs : List ResourceForm) → IsFile (told tokens.now) rs → ⊥)) }
{
    let mut rest = resource(out, tokens, end)?;
    while !rest.is_empty() {
        rest = resource(out, rest, end)?;
    }
    Ok(())
}

/// Reads the tokens of a whole file and returns the draft of its parts. The text ends at `end`. Fails with the first fault: the first
/// token that continues no file, or the first parenthesis or brace that would be the 33rd open one; if there is none of these,
/// the first part that breaks a rule. Takes time in proportion to the tokens, and memory in proportion to the draft.
pub(crate) fn file<A: Allocator + Copy>(
    alloc: A,
    tokens: &[Token<'_>],
    end: u32,
) -> Result<Draft<A>, DeclFault>
    // The tokens are a file whose parts keep the rules, and the draft is made of these.
    ensures found { IfOk result (λ draft. (rs : List ResourceForm) × IsFile (told tokens.now) rs
        × AllAllowed (file_parts rs) nothing × (drafted draft ≡ after_all (file_parts rs) nothing)) }
    // Any error but OutOfMemory: they aren't.
    ensures none { IfErr result (λ e.
        Fails e ((rs : List ResourceForm) → IsFile (told tokens.now) rs → AllAllowed (file_parts rs) nothing → ⊥)) }
{
    let mut out = Intake::new(alloc);
    resources(&mut out, tokens, end).and(out.finish())
}
