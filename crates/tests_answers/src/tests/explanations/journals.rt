//! A journal in, its first wrong line and what was owed to it out.

use crate::tests::explanations::endings::{Asked, Row};
use tell_base::Status;

/// The paths of a slot.
const SLOT: &str = "resource slot cell operation deposit, remove path deposit ; remove end end";

/// A sound journal; one whose second line started too early; and some that lack room, as their heads or as the command line have it.
pub const JOURNALS: &[Row] = &[
    (
        SLOT,
        Asked::Journal(4096, "1 start deposit: started 0\n1 finish 0: finished\n"),
        Status::Done,
        "sound: 2 lines\n\
         \nslot\n   can start: remove\n   blocked: deposit by path 0\n   live: nothing\n   stuck for ever: no\n",
        "",
    ),
    (
        SLOT,
        Asked::Journal(
            4096,
            "1 start deposit: started 0\n2 start remove: started 1\n1 finish 0: finished\n",
        ),
        Status::Unsound,
        "line 2 is wrong: 2 start remove: started 1\n   owed: blocked 0\n   forbidden by path 0: path deposit; remove end\n   \
         in progress: deposit (activation 0, worker 1); may begin next: nothing\n\
         \nslot\n   can start: nothing\n   blocked: deposit by path 0, remove by path 0\n   live: deposit (activation 0, worker 1)\n   \
         stuck for ever: no\n",
        "",
    ),
    (
        SLOT,
        Asked::Journal(
            4096,
            "journal 2 room 3\n1 start deposit: started 0\n1 finish 0: finished\n2 start remove: started 1\n2 finish 1: finished\n",
        ),
        Status::Unsound,
        "line 4 is wrong: 2 start remove: started 1\n   owed: no room\n   right with --room 4, or with that room in its head\n\
         \nslot\n   can start: remove\n   blocked: deposit by path 0\n   live: nothing\n   stuck for ever: no\n",
        "",
    ),
];

/// What isn't a journal, or not under this declaration.
pub const NO_JOURNALS: &[Row] = &[
    (
        SLOT,
        Asked::Journal(4096, "1 start deposit: started 0\r\n"),
        Status::TextRefused,
        "",
        "tries:1:27: this line can't be read\n1 start deposit: started 0␍\n                          ^\nexpected the end of the line\n\
         likely: a carriage return; save the file with line feeds alone\n",
    ),
    (
        SLOT,
        Asked::Journal(0, "1 start deposit: started 0\n"),
        Status::CommandRefused,
        "",
        "open: bad room\n",
    ),
];
