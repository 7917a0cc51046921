//! The fourteen faults of declarations.

use crate::tests::places::told::{ENOUGH, is_right, told_of_declaration};
use test_support::Refusing;

const UNDECLARED: &[u8] =
    b"resource r cell operation deposit, remove path deposit ; remvoe end end";

#[test]
fn each_request_is_refused(rt: HostRuntime) {
    for number in 1..ENOUGH {
        let refusing = Refusing::new(rt.alloc(), number);
        let told = told_of_declaration(&refusing, UNDECLARED);
        let has_refused = refusing.has_refused();
        assert!(rt;
            is_right(told, has_refused, "nearest name: remove\n") && (has_refused || number > 1),
            "{number}"
        );
    }
}
