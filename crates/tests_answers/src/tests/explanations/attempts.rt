//! Attempts in, each with its reply and why it was refused out.

use crate::tests::explanations::endings::{Asked, Row};
use tell_base::Status;

/// Each reply that isn't blocked, once or more.
pub const USES: &[Row] = &[(
    "resource t tally operation count end",
    Asked::Attempts(
        6,
        "1 start count\n1 use 0 add 18446744073709551615\n1 use 0 add 1\n1 use 0 put 1\n2 start count\n1 use 0 look\n1 finish 0\n",
    ),
    Status::Done,
    "1: 1 start count: started 0\n\
         2: 1 use 0 add 18446744073709551615: used 18446744073709551615\n\
         3: 1 use 0 add 1: overflow\n   the total of t would pass 18446744073709551615\n\
         4: 1 use 0 put 1: not offered\n   t is a tally, which offers add and look\n\
         5: 2 start count: no room\n   places: 4 for lines, 1 for finishes to come, 2 for it; --room 7 would do\n\
         6: 1 use 0 look: used 18446744073709551615\n\
         7: 1 finish 0: finished\n\
         \nt\n   can start: count\n   blocked: nothing\n   live: nothing\n   stuck for ever: no\n",
    "",
)];

/// Starts that are blocked: by two paths with the same tree and by a third; by five activations; and for ever, beside a resource that
/// goes on.
pub const BLOCKED: &[Row] = &[(
    "resource r cell operation a, b path a ; b end path a ; b end path b ; a end end resource s cell operation c end",
    Asked::Attempts(4096, "1 start b\n1 start a\n1 start c"),
    Status::Done,
    "1: 1 start b: blocked 0\n   forbidden by path 0 (also path 1): path a; b end\n   in progress: nothing; may begin next: a\n\
         2: 1 start a: blocked 2\n   forbidden by path 2: path b; a end\n   in progress: nothing; may begin next: b\n\
         3: 1 start c: started 0\n\
         \nr\n   can start: nothing\n   blocked: a by path 2, b by path 0\n   live: nothing\n   stuck for ever: yes\n\
         \ns\n   can start: c\n   blocked: nothing\n   live: c (activation 0, worker 1)\n   stuck for ever: no\n",
    "",
)];

/// Which of several faults counts, and where it is.
pub const REFUSED: &[Row] = &[
    (
        "resource r cell operation remove end",
        Asked::Attempts(0, "1 start remove\n1 start remvoe"),
        Status::TextRefused,
        "",
        "tries:2:9: this isn't a declared operation\n1 start remvoe\n        ^^^^^^\n\
         expected the name of a declared operation\nnearest name: remove\n",
    ),
    (
        "resource r cell operation a end",
        Asked::Attempts(0, "1 start a\n"),
        Status::CommandRefused,
        "",
        "open: bad room\n",
    ),
];
