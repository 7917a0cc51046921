//! What the tests share: a declaration, and lines of its journal.

use crate::MemoryFile;
use path_decl::Decl;
use path_model::{ActId, Attempt, Line, OpId, PathId, Reply, Verb};
use path_read::read;
use path_store::{Opened, Store};
use std::alloc::Global;
use std::process::Abort;

const DECLARATION: &[u8] =
    b"resource slot cell operation deposit, remove path deposit ; remove end end";

/// The declaration of a slot.
pub(crate) fn slot(rt: &impl Abort, heap: Global) -> Decl {
    read(heap, DECLARATION).expect(rt, "it is a declaration")
}

/// The lines of an honest journal over it.
pub(crate) const LINES: [Line; 8] = [
    Line {
        worker: 1,
        attempt: Attempt::Start(OpId(0)),
        reply: Reply::Started(ActId(0)),
    },
    Line {
        worker: 2,
        attempt: Attempt::Start(OpId(1)),
        reply: Reply::Blocked(PathId(0)),
    },
    Line {
        worker: 1,
        attempt: Attempt::Apply(ActId(0), Verb::Put(7)),
        reply: Reply::Used(0),
    },
    Line {
        worker: 1,
        attempt: Attempt::Finish(ActId(0)),
        reply: Reply::Finished,
    },
    Line {
        worker: 2,
        attempt: Attempt::Start(OpId(1)),
        reply: Reply::Started(ActId(1)),
    },
    Line {
        worker: 2,
        attempt: Attempt::Apply(ActId(1), Verb::Take),
        reply: Reply::NotOffered,
    },
    Line {
        worker: 2,
        attempt: Attempt::Finish(ActId(1)),
        reply: Reply::Finished,
    },
    Line {
        worker: 1,
        attempt: Attempt::Start(OpId(0)),
        reply: Reply::Started(ActId(2)),
    },
];

/// The store in this file, with room for 7 lines.
pub(crate) fn opened(rt: &impl Abort, heap: Global, file: MemoryFile) -> Opened<MemoryFile> {
    match Store::open(heap, slot(rt, heap), 7, file) {
        Ok(opened) => opened,
        Err((fault, _file)) => panic!(rt; "it isn't opened: {fault:?}"),
    }
}
