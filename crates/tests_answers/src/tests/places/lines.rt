//! Faults of attempts, journals and scripts.

use crate::tests::places::told::{ENOUGH, Kind, is_right, told_of};
use test_support::Refusing;

#[test]
fn each_request_is_refused(rt: HostRuntime) {
    for number in 1..ENOUGH {
        let refusing = Refusing::new(rt.alloc(), number);
        let told = told_of(&refusing, Kind::Attempts, b"1 start remvoe");
        let has_refused = refusing.has_refused();
        assert!(rt;
            is_right(told, has_refused, "nearest name: remove\n") && (has_refused || number > 1),
            "{number}"
        );
    }
}

#[test]
fn each_request_for_a_misspelled_word_is_refused(rt: HostRuntime) {
    for number in 1..ENOUGH {
        let refusing = Refusing::new(rt.alloc(), number);
        let told = told_of(&refusing, Kind::Script, b"proces p");
        let has_refused = refusing.has_refused();
        assert!(rt;
            is_right(told, has_refused, "likely: a misspelled `process`\n")
                && (has_refused || number > 1),
            "{number}"
        );
    }
}
