//! The program: reads its command line, its files and standard input, and runs the command.
#![tactic(auto)]

mod command;
mod commands;
mod files;
mod help;
mod journals;
mod perform;
mod request;
mod searches;
mod terminals;

use crate::perform::perform;
use crate::terminals::Terminals;
use std::io::IsTerminal;
use std::process::ExitCode;

fn main(rt: HostRuntime) -> ExitCode {
    let terminals = Terminals {
        is_typed: rt.stdin().is_terminal(),
        is_shown: rt.stderr().is_terminal(),
    };
    let status = perform(&rt, terminals, &mut rt.stdout(), &mut rt.stderr());
    ExitCode::from(status)
}
