//! The texts of the plain types.

use path_model::OutOfMemory;

#[test]
fn says_what_is_wanting(rt: HostRuntime) {
    let text = format!(in rt.alloc(); "{}", OutOfMemory);
    assert!(rt; text.is_ok_and(|text| text.as_str() == "out of memory"));
}
