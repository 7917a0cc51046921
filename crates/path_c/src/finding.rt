//! Why a text isn't a declaration, in words for people.

ghost use Rattle.std.specs.Prelude.{◌≡◌, ◌≢◌, [], IfOk};
ghost use Rattle.std.specs.String.{string_bytes};
ghost use Rattle.path_decl.specs.Text.{IsDeclarationText};
ghost use Rattle.path_model.specs.Declarations.{Declaration};
ghost use Rattle.path_c.specs.Answers.{out_of_memory};
ghost use Rattle.path_c.specs.Calls.{IsFindingGiven};

use crate::answer::{CodedAnswer, plainly, undeclared};
use crate::codes;
use crate::texts::give;
use path_model::OutOfMemory;
use path_read::read;
use std::alloc::Global;
use tell_places::{declaration_finding, push_finding};

/// What messages call the text.
const NAME: &str = "declaration";

/// The place, the line with a mark below it, and what is known of the fault; empty if the text is a declaration. Fails only if
/// allocation fails.
fn words(alloc: Global, text: &[u8]) -> Result<String<Global>, OutOfMemory>
    ensures { IfOk result (λ told. (d : Declaration) → IsDeclarationText text.now d → string_bytes told ≡ []) }
{
    let mut told = String::new(alloc);
    let Err(fault) = read(alloc, text) else {
        return Ok(told);
    };
    if undeclared(fault).code == codes::OUT_OF_MEMORY {
        return Err(OutOfMemory);
    }
    if let Some(finding) = declaration_finding(alloc, text, fault)? {
        push_finding(&mut told, NAME, &finding)?;
    }
    Ok(told)
}

/// Says in words for people why a text isn't a declaration. Of a declaration there is nothing to say: the text in the buffer is empty.
#[unsafe(no_mangle)]
pub extern "C" fn path_c_finding(alloc: Global, text: &[u8], buffer: &mut [u8]) -> CodedAnswer
    ensures memory { result ≡ out_of_memory → buffer.new ≡ buffer.old }
    ensures given { result ≢ out_of_memory → IsFindingGiven text.now buffer.old result buffer.new }
{
    match words(alloc, text) {
        Ok(words) => give(buffer, words.as_bytes()),
        Err(_) => plainly(codes::OUT_OF_MEMORY),
    }
}
