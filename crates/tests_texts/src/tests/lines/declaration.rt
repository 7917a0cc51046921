//! Declarations of texts.

use path_decl::Decl;
use path_read::read;
use std::alloc::Global;
use std::process::Abort;

/// The declaration in a text.
pub(crate) fn declared(rt: &impl Abort, heap: Global, text: &[u8]) -> Decl {
    read(heap, text).expect(rt, "it is a declaration")
}
