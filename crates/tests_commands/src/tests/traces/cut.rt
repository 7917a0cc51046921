//! Journals that are cut anywhere, and traced on.

use crate::tests::traces::behind::{ends_so, file_of};
use cmd_audit::JournalFile;
use cmd_trace::ROOM;
use std::alloc::Global;
use std::process::Abort;
use tell_base::Status;

/// A place and a queue.
const BOTH: &str = "resource slot cell operation deposit, remove path deposit ; remove end end\n\
     resource lane queue 2 operation work path { work } end end";

/// Attempts under it, with their replies.
const STEPS: &[(&str, &str)] = &[
    ("1 start deposit", "started 0"),
    ("2 start remove", "blocked 0"),
    ("1 use 0 put 7", "used 0"),
    ("2 use 0 look", "not yours"),
    ("4 start work", "started 1"),
    ("4 use 1 put 5", "used 1"),
    ("1 use 0 add 1", "not offered"),
    ("1 finish 0", "finished"),
    ("4 use 1 put 6", "used 2"),
    ("1 finish 0", "stale"),
    ("2 start remove", "started 2"),
    ("4 use 1 put 7", "full"),
    ("5 start work", "started 3"),
    ("5 use 3 take", "used 5"),
    ("2 use 2 look", "used 7"),
    ("4 finish 1", "finished"),
    ("1 start deposit", "blocked 0"),
    ("5 use 3 take", "used 6"),
    ("5 use 3 take", "empty"),
    ("2 finish 2", "finished"),
    ("3 start #9", "unknown operation"),
    ("3 start deposit", "started 4"),
];

/// The attempts of these steps, a line each.
fn attempts_of(rt: &impl Abort, heap: Global, steps: &[(&str, &str)]) -> String {
    let mut text = String::new(heap);
    for (attempt, _) in steps {
        writeln!(text, "{attempt}").expect(rt, "there is memory");
    }
    text
}

/// The same with their replies.
fn lines_of(rt: &impl Abort, heap: Global, steps: &[(&str, &str)]) -> String {
    let mut text = String::new(heap);
    for (attempt, reply) in steps {
        writeln!(text, "{attempt}: {reply}").expect(rt, "there is memory");
    }
    text
}

// Appends a file with these steps.
fn push_file(
    rt: &impl Abort,
    heap: Global,
    journal: &mut Vec<JournalFile>,
    steps: &[(&str, &str)],
) {
    let text = lines_of(rt, heap, steps);
    let file = file_of(heap, "cut", text.as_str()).expect(rt, "there is memory");
    journal.push(file).expect(rt, "there is memory");
}

// Checks that a trace goes on behind the first steps, in two files.
fn check_split(
    rt: &impl Abort,
    heap: Global,
    first: &[(&str, &str)],
    second: &[(&str, &str)],
    rest: &[(&str, &str)],
) {
    let mut journal = Vec::new(heap);
    push_file(rt, heap, &mut journal, first);
    push_file(rt, heap, &mut journal, second);
    let (attempts, traced) = (attempts_of(rt, heap, rest), lines_of(rt, heap, rest));
    let want = (Status::Done, traced.as_str(), "");
    let passed = ends_so(
        rt,
        heap,
        heap,
        BOTH,
        &journal,
        ROOM,
        false,
        attempts.as_str(),
        want,
    );
    assert!(rt; passed == Ok(true));
}

// Wherever a journal is cut in two files and attempts, the replies are the same.
#[test]
fn goes_on_wherever_the_journal_is_cut(rt: HostRuntime) {
    for end in 0..=STEPS.len() {
        let (done, rest) = STEPS.split_at(end);
        for middle in 0..=done.len() {
            let (first, second) = done.split_at(middle);
            check_split(&rt, rt.alloc(), first, second, rest);
        }
    }
}
