//! The nearest of some names.

use std::alloc::Global;
use std::process::Abort;
use tell_places::nearest;

const NAMES: &[&str] = &["deposit", "remove", "read", "write"];

// Checks which name is nearest.
fn check_nearest(rt: &impl Abort, heap: Global, name: &str, want: Option<&str>) {
    let found = nearest(heap, name, NAMES).expect(rt, "there is memory");
    assert_eq!(rt; found, want, "{name}");
}

#[test]
fn nearest_names(rt: HostRuntime) {
    check_nearest(&rt, rt.alloc(), "remvoe", Some("remove"));
    check_nearest(&rt, rt.alloc(), "reda", Some("read"));
    check_nearest(&rt, rt.alloc(), "wirte", Some("write"));
    check_nearest(&rt, rt.alloc(), "insert", None);
}
