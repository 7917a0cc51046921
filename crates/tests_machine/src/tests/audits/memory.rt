//! Refuses each request for memory of an audit.

use crate::tests::audits::verdict::{DEPOSITED, Refusal, SLOT, opening, verdict};
use path_audit::{AuditFault, Verdict};
use path_decl::Decl;
use path_lex::DeclFault;
use path_lines::TextFault;
use path_model::OutOfMemory;
use path_read::read;
use std::alloc::{Allocator, Global};
use test_support::{Refusing, refuse_in_turn};

// Whether a text is a sound journal of a slot that opens with 0.
fn is_sound_of<A: Allocator + Copy>(
    alloc: A,
    decl: &Decl<A>,
    text: &str,
) -> Result<bool, OutOfMemory> {
    let openings = opening(alloc, &[0])?;
    let found = verdict(alloc, decl, 4096, &openings, text);
    drop(openings);
    match found {
        Ok(found) => Ok(found == Verdict::Sound),
        Err(Refusal::Text(TextFault::OutOfMemory) | Refusal::Audit(AuditFault::OutOfMemory)) => {
            Err(OutOfMemory)
        }
        Err(_) => Ok(false),
    }
}

// Whether a text is a sound journal of the declaration in another text.
fn is_sound<A: Allocator + Copy>(
    alloc: A,
    declaration: &[u8],
    text: &str,
) -> Result<bool, OutOfMemory> {
    match read(alloc, declaration) {
        Ok(decl) => {
            let is_sound = is_sound_of(alloc, &decl, text);
            drop(decl);
            is_sound
        }
        Err(DeclFault::OutOfMemory) => Err(OutOfMemory),
        Err(_) => Ok(false),
    }
}

#[test]
fn each_request_is_refused(rt: HostRuntime) {
    let refused = refuse_in_turn(rt.alloc(), OutOfMemory, |heap: &Refusing<Global>| {
        is_sound(heap, SLOT, DEPOSITED)
    });
    assert_eq!(rt; refused, Ok(()));
}
