//! What a follow writes, and each refusal with its status.

use crate::tests::follows::ends::{ROOM, Row, SLOT, check_all, refuse_each_request};
use tell_base::Status;

const ANSWERED: &[Row<'static>] = &[
    ("an empty input", (SLOT, ROOM, ""), (Status::Done, "", "")),
    (
        "the slot, without a last line feed",
        (
            SLOT,
            ROOM,
            "1 start deposit\n2 start remove\n1 use 0 put 7\n1 finish 0\n2 start remove\n2 use 1 look",
        ),
        (
            Status::Done,
            "1 start deposit: started 0\n2 start remove: blocked 0\n1 use 0 put 7: used 0\n1 finish 0: finished\n\
             2 start remove: started 1\n2 use 1 look: used 7\n",
            "",
        ),
    ),
    (
        "reports at the beginning and at the end",
        (SLOT, ROOM, "?\n1 start deposit\n?"),
        (
            Status::Done,
            "startable deposit\nblocked remove 0\nfrozen no\n1 start deposit: started 0\nstartable\nblocked deposit 0\n\
             blocked remove 0\nlive 0 1 deposit\nfrozen no\n",
            "",
        ),
    ),
    (
        "no room is a reply",
        (SLOT, 1, "1 start deposit\n"),
        (Status::Done, "1 start deposit: no room\n", ""),
    ),
];

#[test]
fn each_line_is_answered(rt: HostRuntime) {
    check_all(&rt, rt.alloc(), ANSWERED);
}

const REFUSED: &[Row<'static>] = &[
    (
        "faulty lines are told and skipped",
        (
            SLOT,
            ROOM,
            "\n1 start deposit\n1 start insert\n? \n1 finish 0\r\n1 finish 0\n",
        ),
        (
            Status::TextRefused,
            "1 start deposit: started 0\n1 finish 0: finished\n",
            "text: bad line 0\nstandard input:1:1: this line can't be read\n\n^\nexpected a worker's number, 0 to 4294967295\n\
             likely: a blank line; take it out\n\
             text: undeclared in line 2\nstandard input:3:9: this isn't a declared operation\n1 start insert\n        ^^^^^^\n\
             expected the name of a declared operation\n\
             text: bad line 3\nstandard input:4:1: this line can't be read\n? \n^\nexpected a worker's number, 0 to 4294967295\n\
             text: bad line 4\nstandard input:5:11: this line can't be read\n1 finish 0␍\n          ^\nexpected the end of the line\n\
             likely: a carriage return; save the file with line feeds alone\n",
        ),
    ),
    (
        "a last line that is faulty",
        (SLOT, ROOM, "1 start deposit\n1 finish"),
        (
            Status::TextRefused,
            "1 start deposit: started 0\n",
            "text: bad line 1\nstandard input:2:9: this line can't be read\n1 finish\n        ^\nexpected one space\n",
        ),
    ),
    (
        "the declaration counts before the room",
        ("", 0, "1 start deposit\n"),
        (
            Status::DeclarationRefused,
            "",
            "declaration: unexpected at 0\n",
        ),
    ),
    (
        "no system has the room",
        (SLOT, 0, "1 start deposit\n"),
        (Status::CommandRefused, "", "open: bad room\n"),
    ),
];

#[test]
fn faulty_lines_are_skipped(rt: HostRuntime) {
    check_all(&rt, rt.alloc(), REFUSED);
}

/// Each kind of line.
const EACH: Row<'static> = (
    "an attempt, a report and a faulty line",
    (SLOT, ROOM, "1 start deposit\n?\nx\n1 finish 0\n"),
    (
        Status::TextRefused,
        "1 start deposit: started 0\nstartable\nblocked deposit 0\nblocked remove 0\nlive 0 1 deposit\nfrozen no\n\
         1 finish 0: finished\n",
        "text: bad line 2\nstandard input:3:1: this line can't be read\nx\n^\nexpected a worker's number, 0 to 4294967295\n",
    ),
);

#[test]
fn each_request_of_a_follow_is_refused(rt: HostRuntime) {
    refuse_each_request(&rt, rt.alloc(), &EACH);
}
