//! From bytes to declarations.

ghost use Rattle.std.specs.Prelude.{◌≡◌, ◌⊎◌, ℕ, ◌<◌, ◌≤◌, ◌↔◌, length, IsSome, Some, IfOk, IfErr, IsErrOf};
ghost use Rattle.path_lex.specs.Bytes.{IsFirstBad};
ghost use Rattle.path_lex.specs.Spelling.{IsFirstLongWord, IsFirstLongNumber};
ghost use Rattle.path_decl.specs.Text.{IsDeclarationText, IsDeclared};
ghost use Rattle.path_read.specs.Inner.Building.{drafted, declared_by};
ghost use Rattle.path_read.specs.Refused.{Refuses};
ghost use Rattle.path_read.specs.Computed.{declared_in};

use crate::draft::Draft;
use crate::outline::file;
use path_decl::Decl;
use path_lex::{DeclFault, tokens};
use path_model::OutOfMemory;
use std::alloc::Allocator;

/// The declaration that a draft has become. Fails only if allocation fails.
fn finish<A: Allocator + Copy>(alloc: A, draft: Draft<A>) -> Result<Decl<A>, OutOfMemory>
    requires { IsDeclared (declared_by (drafted draft)) }
    ensures { IfOk result (λ d. d.declaration ≡ declared_by (drafted draft)) }
{
    let Draft {
        resources,
        operations,
        paths,
        resource: _,
        open_trees: _,
        named: _,
        in_braces: _,
    } = draft;
    Decl::new(alloc, resources, operations, paths)
}

/// Reads the text of a declaration, of at most 65,536 bytes.
///
/// Fails with the first fault in this order: the text is too long; the first bad byte; the first word or number that is too long; the
/// first token in the whole text that is unexpected, or parenthesis or brace that is too deep; then the first token that breaks a rule
/// or passes a limit: a name that is declared twice, undeclared or repeated, a brace inside open braces, a queue's capacity that
/// begins with the digit 0 or is greater than 1,024, a bound of braces that begins with the digit 0 or is greater than 65,535, or one
/// resource, operation, path or name too many. `OutOfMemory` may come at any point. Takes time in proportion to the text, and memory in
/// proportion to its tokens.
pub fn read<A: Allocator + Copy>(alloc: A, text: &[u8]) -> Result<Decl<A>, DeclFault>
    // The text is this declaration.
    ensures ok { IfOk result (λ d. IsDeclarationText text.now d.declaration) }
    // Any error but OutOfMemory: the text isn't a declaration.
    ensures err { IfErr result (λ e. Refuses text.now e) }
    ensures too_long { IsErrOf result DeclFault.TooLong ↔ (65536 < length text.now) }
    // If a text that isn't too long has a bad byte, the error names the first one, unless allocation fails; it never names another byte.
    ensures bad_byte { (at : ℕ) → length text.now ≤ 65536 → IsFirstBad text.now at
        → IsErrOf result (DeclFault.BadByte at) ⊎ IsErrOf result DeclFault.OutOfMemory }
    ensures first_bad { (at : ℕ) → IsErrOf result (DeclFault.BadByte at) → IsFirstBad text.now at }
    // The same of the first word or number that is too long, in a text that can be cut into tokens.
    ensures word_too_long { (at : ℕ) → length text.now ≤ 65536 → IsFirstLongWord text.now at
        → IsErrOf result (DeclFault.WordTooLong at) ⊎ IsErrOf result DeclFault.OutOfMemory }
    ensures first_long_word { (at : ℕ) → IsErrOf result (DeclFault.WordTooLong at) → IsFirstLongWord text.now at }
    ensures number_too_long { (at : ℕ) → length text.now ≤ 65536 → IsFirstLongNumber text.now at
        → IsErrOf result (DeclFault.NumberTooLong at) ⊎ IsErrOf result DeclFault.OutOfMemory }
    ensures first_long_number { (at : ℕ) → IsErrOf result (DeclFault.NumberTooLong at) → IsFirstLongNumber text.now at }
{
    let tokens = tokens(alloc, text)?;
    let draft = file(alloc, &tokens, text.len() as u32)?;
    let decl = finish(alloc, draft)?;
    Ok(decl)
}

/// Reads a constant text that is a declaration. Fails only if allocation fails. Takes the time and the memory of [`read`].
///
/// Which declaration the constant is, the proof of a caller computes: `#[tactic(auto, unfolding(path_read::specs::Computed::declared_in))]`
/// on the calling function shows what is required, and that the result is the declaration that the function's own contract names.
pub fn read_constant<A: Allocator + Copy>(alloc: A, text: &[u8]) -> Result<Decl<A>, OutOfMemory>
    requires { IsSome (declared_in text.now) }
    ensures computed { IfOk result (λ d. declared_in text.now ≡ Some d.declaration) }
    ensures text { IfOk result (λ d. IsDeclarationText text.now d.declaration) }
{
    match read(alloc, text) {
        Ok(decl) => Ok(decl),
        Err(fault) => {
            prove!(fault == DeclFault::OutOfMemory);
            Err(OutOfMemory)
        }
    }
}
