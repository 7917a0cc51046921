//! Where a journal is full, and the room in which it isn't.

use cmd_explain::{FullJournal, full_journal};

const SLOT: &str = "resource slot cell operation deposit, remove path deposit ; remove end end";

/// A sound journal that takes four lines.
const ROUND: &str =
    "1 start deposit: started 0\n1 finish 0: finished\n2 start remove: started 1\n2 finish 1: finished\n";

/// A journal's text, the room where none is named, and where it is full.
type Row = (&'static str, u32, Option<FullJournal>);

const ROWS: &[Row] = &[
    (ROUND, 4, None),
    (
        ROUND,
        3,
        Some(FullJournal {
            line: 3,
            room: 3,
            is_named: false,
            enough: 4,
        }),
    ),
    (
        ROUND,
        1,
        Some(FullJournal {
            line: 1,
            room: 1,
            is_named: false,
            enough: 4,
        }),
    ),
    (
        "journal 2 room 3\n1 start deposit: started 0\n1 finish 0: finished\n2 start remove: started 1\n",
        4096,
        Some(FullJournal {
            line: 4,
            room: 3,
            is_named: true,
            enough: 4,
        }),
    ),
    // The second line is wrong in any room, whether or not there is room for the third.
    (
        "1 start deposit: started 0\n2 start remove: started 1\n1 finish 0: finished\n",
        4096,
        None,
    ),
    // The first line has no room, and is wrong in any.
    ("1 start deposit: started 1\n", 1, None),
    // No journal, and no room that a journal has.
    ("1 start deposit\n", 4096, None),
    (ROUND, 0, None),
    ("", 1, None),
];

#[test]
fn full_journals(rt: HostRuntime) {
    for (text, room, want) in ROWS {
        let told = full_journal(rt.alloc(), SLOT.as_bytes(), *room, text.as_bytes());
        assert_eq!(rt; told, *want, "{text} in {room}");
    }
}

#[test]
fn under_no_declaration(rt: HostRuntime) {
    assert_eq!(rt;
        full_journal(rt.alloc(), b"resource", 1, ROUND.as_bytes()),
        None
    );
}
