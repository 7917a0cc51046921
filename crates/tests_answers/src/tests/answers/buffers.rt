//! Answers in buffers.

use page_answers::{Answer, TooShort, check};
use std::alloc::Global;
use std::process::Abort;

const SLOT: &str = "resource slot cell operation deposit, remove path deposit ; remove end end";

/// How many bytes its print has.
const PRINT: usize = 74;

// Checks how an answer fills buffers of these lengths, all of whose bytes are `#`.
fn check_fill(
    rt: &impl Abort,
    heap: Global,
    answer: &Answer<Global>,
    lengths: (usize, usize),
    want: Result<(), TooShort>,
    left: u8,
) {
    let mut out = Vec::from_elem(heap, b'#', lengths.0).expect(rt, "there is memory");
    let mut err = Vec::from_elem(heap, b'#', lengths.1).expect(rt, "there is memory");
    assert!(rt; answer.fill(&mut out, &mut err) == want);
    assert!(rt; out.first() == Some(&left) && out.len() == lengths.0);
    assert!(rt; out.get(PRINT).is_none_or(|byte| *byte == b'#'));
}

fn check_fills(rt: &impl Abort, heap: Global, text: &str) {
    let answer = check(heap, text.as_bytes());
    check_fill(rt, heap, &answer, (PRINT, 0), Ok(()), b'r');
    check_fill(rt, heap, &answer, (PRINT + 1, 9), Ok(()), b'r');
    check_fill(rt, heap, &answer, (PRINT - 1, 9), Err(TooShort), b'#');
}

#[test]
fn an_answer_fits_or_changes_nothing(rt: HostRuntime) {
    check_fills(&rt, rt.alloc(), SLOT);
}
