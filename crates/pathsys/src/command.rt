//! The words of the command line.

use crate::help::{
    AUDIT_HELP, CHECK_HELP, COMPILE_HELP, EXPLAIN_HELP, EXPLORE_HELP, FOLLOW_HELP, MORE_HELP,
    PICTURE_HELP, RUN_HELP, TRACE_HELP,
};
use clap::{Arg, ArgAction, Command, value_parser};
use path_model::MOST_LINES;
use std::alloc::{AllocError, Global};

/// A required file name.
fn file<'a>(alloc: Global, id: &'a str, help: &'a str) -> Arg<'a> {
    Arg::new(alloc, id).required(true).help(help)
}

/// The room of a journal: 1 to [`MOST_LINES`], or 4,096 if it isn't given.
fn room<'a>(alloc: Global, help: &'a str) -> Arg<'a> {
    Arg::new(alloc, "room")
        .long("room")
        .value_name("N")
        .value_parser(value_parser!(u32).range(1..=i64::from(MOST_LINES)))
        .default_value("4096")
        .help(help)
}

/// The file of a journal, in place of attempts. Fails only if allocation fails.
fn journal<'a>(alloc: Global) -> Result<Arg<'a>, AllocError> {
    Arg::new(alloc, "journal")
        .long("journal")
        .value_name("JOURNAL")
        .help("the file of a journal, in place of attempts")
        .conflicts_with("ATTEMPTS")
}

/// The files of a journal behind which attempts are made.
fn after<'a>(alloc: Global) -> Arg<'a> {
    Arg::new(alloc, "after")
        .long("after")
        .value_name("JOURNAL")
        .num_args(1..)
        .help(
            "the file of a journal that the attempts go on from, or those of its segments, in order",
        )
}

/// The flag that asks for a report.
fn report<'a>(alloc: Global) -> Arg<'a> {
    Arg::new(alloc, "report")
        .long("report")
        .action(ArgAction::SetTrue)
        .help(
            "then writes what can start, what is blocked and what is live, and whether all is stuck",
        )
}

/// The command that prints a declaration.
fn check<'a>(alloc: Global) -> Result<Command<'a>, AllocError> {
    Command::new(alloc, "check")
        .about("Reads a declaration and prints it")
        .after_help(CHECK_HELP)
        .arg(file(alloc, "DECL", "the file of the declaration"))
}

/// The command that compiles a declaration.
fn compile<'a>(alloc: Global) -> Result<Command<'a>, AllocError> {
    Command::new(alloc, "compile")
        .about("Prints the semaphores of a declaration's paths, before and after trimming")
        .after_help(COMPILE_HELP)
        .arg(file(alloc, "DECL", "the file of the declaration"))
}

/// The command that traces attempts.
fn trace<'a>(alloc: Global) -> Result<Command<'a>, AllocError> {
    Command::new(alloc, "trace")
        .about("Writes each attempt of a file with its reply")
        .after_help(TRACE_HELP)
        .arg(file(alloc, "DECL", "the file of the declaration"))?
        .arg(file(alloc, "ATTEMPTS", "the file of the attempts"))?
        .arg(room(
            alloc,
            "how many lines the journal has room for, 1 to 1048576, unless its file says so",
        ))?
        .arg(report(alloc))?
        .arg(after(alloc))
}

/// The command that explains.
fn explain<'a>(alloc: Global) -> Result<Command<'a>, AllocError> {
    let journal = journal(alloc)?;
    let attempts = Arg::new(alloc, "ATTEMPTS").help(
        "the file of the attempts; without it and a journal, the paths that each operation obeys are written",
    );
    Command::new(alloc, "explain")
        .about(
            "Says why attempts were refused, what a journal's first wrong line was owed, or where a file is at fault",
        )
        .after_help(EXPLAIN_HELP)
        .arg(file(alloc, "DECL", "the file of the declaration"))?
        .arg(attempts)?
        .arg(journal)?
        .arg(room(
            alloc,
            "how many lines the journal has room for, 1 to 1048576, unless its text says so",
        ))?
        .arg(
            after(alloc)
                .requires_arg("ATTEMPTS")?
                .conflicts_with("journal")?,
        )
}

/// The file in which a follow keeps its journal.
fn kept<'a>(alloc: Global) -> Arg<'a> {
    Arg::new(alloc, "journal")
        .long("journal")
        .value_name("FILE")
        .help("the file that keeps the journal: it is made, or gone on from")
}

/// When a follow writes its journal to the disk. Fails only if allocation fails.
fn sync<'a>(alloc: Global) -> Result<Arg<'a>, AllocError> {
    Arg::new(alloc, "sync")
        .long("sync")
        .value_name("WHEN")
        .value_parser(["each", "close", "never"].as_slice())
        .help(
            "when lines are on the disk: each before its answer, which is the usual, all at the end, or as it comes",
        )
        .requires_arg("journal")
}

/// The command that answers attempts as they come.
fn follow<'a>(alloc: Global) -> Result<Command<'a>, AllocError> {
    Command::new(alloc, "follow")
        .about("Answers each attempt from standard input before it reads the next")
        .after_help(FOLLOW_HELP)
        .arg(file(alloc, "DECL", "the file of the declaration"))?
        .arg(room(
            alloc,
            "how many lines the journal has room for, 1 to 1048576, unless its file says so",
        ))?
        .arg(kept(alloc))?
        .arg(sync(alloc)?)
}

/// The command that draws a picture.
fn picture<'a>(alloc: Global) -> Result<Command<'a>, AllocError> {
    let journal = journal(alloc)?;
    let attempts = Arg::new(alloc, "ATTEMPTS")
        .help("the file of the attempts")
        .required_unless_present("journal")?;
    Command::new(alloc, "picture")
        .about("Draws attempts with their replies, or a journal, as an SVG: who ran when")
        .after_help(PICTURE_HELP)
        .arg(file(alloc, "DECL", "the file of the declaration"))?
        .arg(attempts)?
        .arg(journal)?
        .arg(room(
            alloc,
            "how many lines the journal of the attempts has room for, 1 to 1048576",
        ))
}

/// The command that audits a journal.
fn audit<'a>(alloc: Global) -> Result<Command<'a>, AllocError> {
    Command::new(alloc, "audit")
        .about("Says whether a journal is sound, or names its first wrong line")
        .after_help(AUDIT_HELP)
        .arg(file(alloc, "DECL", "the file of the declaration"))?
        .arg(file(
            alloc,
            "JOURNAL",
            "the file of the journal, or those of its segments, in order",
        )
        .num_args(1..))?
        .arg(room(
            alloc,
            "how many lines the journal had room for, 1 to 1048576, unless its text says so",
        ))
}

/// The command that runs a script.
fn run<'a>(alloc: Global) -> Result<Command<'a>, AllocError> {
    Command::new(alloc, "run")
        .about("Runs the processes of a script, writes the journal and says how each process ended")
        .after_help(RUN_HELP)
        .arg(file(alloc, "DECL", "the file of the declaration"))?
        .arg(file(alloc, "SCRIPT", "the file of the script"))?
        .arg(room(
            alloc,
            "how many lines the journal has room for, 1 to 1048576",
        ))
}

/// The command that looks at every schedule of a script, or at every history of a declaration.
fn explore<'a>(alloc: Global) -> Result<Command<'a>, AllocError> {
    let most = Arg::new(alloc, "most")
        .long("most")
        .value_name("N")
        .value_parser(value_parser!(u32).range(1..=i64::from(u32::MAX)))
        .default_value("1000000")
        .help("how many states are looked at before it gives up, 1 to 4294967295");
    let script = Arg::new(alloc, "SCRIPT").help(
        "the file of the script; without it, every order in which operations may begin and end is looked at",
    );
    let workers = Arg::new(alloc, "workers")
        .long("workers")
        .value_name("N")
        .value_parser(value_parser!(u32).range(1..=i64::from(u32::MAX)))
        .help(
            "how many operations may be in progress at once, 1 to 4294967295, if there is no script; 2 if it isn't given",
        )
        .conflicts_with("SCRIPT")?;
    Command::new(alloc, "explore")
        .about(
            "Says whether every schedule of a script ends done, or without a script whether the paths can freeze",
        )
        .after_help(EXPLORE_HELP)
        .arg(file(alloc, "DECL", "the file of the declaration"))?
        .arg(script)?
        .arg(workers)?
        .arg(most)
}

/// The program with one more command. Fails if either couldn't be made.
fn with<'a>(
    program: Result<Command<'a>, AllocError>,
    command: Result<Command<'a>, AllocError>,
) -> Result<Command<'a>, AllocError> {
    let command = command?;
    program?.subcommand(command)
}

/// The program's options without a command, for attempts from standard input.
fn program<'a>(alloc: Global) -> Result<Command<'a>, AllocError> {
    Command::new(alloc, "pathsys")
        .version("0.1.0")
        .about("Enforces path expressions")
        .after_help(MORE_HELP)
        .args_conflicts_with_subcommands(true)
        .arg(room(
            alloc,
            "how many lines the journal has room for, 1 to 1048576",
        ))?
        .arg(report(alloc))
}

/// The command line of the program. Fails only if allocation fails.
pub fn command<'a>(alloc: Global) -> Result<Command<'a>, AllocError> {
    let program = with(program(alloc), check(alloc));
    let program = with(program, compile(alloc));
    let program = with(program, trace(alloc));
    let program = with(program, explain(alloc));
    let program = with(program, follow(alloc));
    let program = with(program, picture(alloc));
    let program = with(program, audit(alloc));
    let program = with(program, run(alloc));
    with(program, explore(alloc))
}
