//! Where an input is cut in two.

use std::process::Abort;
use tell_base::whole;

// An input, and its two parts.
const CUT: &[(&str, &str, &str)] = &[
    ("", "", ""),
    ("a", "a", ""),
    ("%", "", ""),
    ("%\nb\n", "", "b\n"),
    ("a\n%\nb\n%\nc", "a\n", "b\n%\nc"),
    ("a\n%", "a\n", ""),
    ("a\n% \n %\n%%\n", "a\n% \n %\n%%\n", ""),
];

fn check_cuts(rt: &impl Abort, rows: &[(&str, &str, &str)]) {
    for (input, before, after) in rows {
        let parts = whole(input.as_bytes());
        assert!(rt;
            parts == (before.as_bytes(), after.as_bytes()),
            "at {input:?}"
        );
    }
}

#[test]
fn cuts_where_a_line_is_a_mark(rt: HostRuntime) {
    check_cuts(&rt, CUT);
}
