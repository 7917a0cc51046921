//! A compiled declaration into a writer that takes nothing.

use crate::tests::commands::commands::{Command, check_ending_into};
use tell_base::Status;
use test_support::{FullWriter, LONE_BURST};

#[test]
fn a_full_writer(rt: HostRuntime) {
    let want = (Status::StreamFailed, "output: cannot write\n");
    check_ending_into(
        &rt,
        rt.alloc(),
        Command::Compile,
        LONE_BURST,
        &mut FullWriter,
        want,
    );
}
