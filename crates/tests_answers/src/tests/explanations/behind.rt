//! Attempts behind a journal in files, in words.

use crate::tests::explanations::endings::{Asked, Row};
use tell_base::Status;

const SLOT: &str = "resource slot cell operation deposit, remove path deposit ; remove end end";

/// What is in progress in a file is in progress, and what it kept is kept.
pub const BEHIND: &[Row] = &[
    // Who waits is known of the lines of files, too, also of one before the last.
    (
        "resource table cell operation left, right path left end path right end end",
        Asked::Behind(
            4096,
            &[
                (
                    "one",
                    "1 start left: started 0\n2 start right: started 1\n1 start right: blocked 1\n",
                ),
                ("two", "journal 2 room 4096\n"),
            ],
            "2 start left\n",
        ),
        Status::Done,
        "1: 2 start left: blocked 0\n   forbidden by path 0: path left end\n\
        \x20  in progress: left (activation 0, worker 1); may begin next: nothing\n\
         \ntable\n   can start: nothing\n   blocked: left by path 0, right by path 1\n\
        \x20  live: left (activation 0, worker 1), right (activation 1, worker 2)\n   stuck for ever: no\n\
         \nall that is live waits\n   worker 1 holds left and was refused right\n\
        \x20  worker 2 holds right and was refused left\n   none of these starts before something finishes\n",
        "",
    ),
];

/// A refused text is told with its place, and a wrong line with its file.
pub const REFUSED: &[Row] = &[
    (
        SLOT,
        Asked::Behind(
            4096,
            &[
                ("one", ""),
                ("two", "1 start deposit: started 0\n1 finish 0: done\n"),
            ],
            "x\n",
        ),
        Status::TextRefused,
        "",
        "two:2:13: this line can't be read\n1 finish 0: done\n            ^^^^\n\
         expected a reply, as `started 0`, `blocked 0`, `used 0`, `finished` or `stale`\n",
    ),
    (
        SLOT,
        Asked::Behind(0, &[("one", "")], ""),
        Status::CommandRefused,
        "",
        "open: bad room\n",
    ),
];
