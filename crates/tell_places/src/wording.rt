//! What is wrong and what could stand there, in a few words.

use path_lex::DeclFault;
use path_lines::Wanted;
use path_script::ScriptFault;
use std::fmt;
use std::fmt::Display;

/// What is wrong at a place.
#[derive(Clone, Copy, Debug, PartialEq, Eq)]
pub enum Wrong {
    /// The declaration has this fault.
    Declaration(DeclFault),
    /// The line has none of the forms.
    Line,
    /// The line lacks its line feed, where a line counts only with it.
    NoLineFeed,
    /// The name isn't a declared operation.
    Undeclared,
    /// The text is longer than its limit.
    TooLong,
    /// The script has this fault.
    Script(ScriptFault),
}

/// What is wrong with a declaration.
fn declaration_words(fault: DeclFault) -> &'static str {
    match fault {
        DeclFault::TooLong => "the text has more than 65,536 bytes",
        DeclFault::BadByte(_) => "no token begins with this",
        DeclFault::WordTooLong(_) => "this word has more than 32 bytes",
        DeclFault::NumberTooLong(_) => "this number has more than nine digits",
        DeclFault::Unexpected(_) => "this can't stand here",
        DeclFault::TooDeep(_) => "this would be the 33rd open parenthesis or brace",
        DeclFault::DuplicateResource(_) => "an earlier resource has this name",
        DeclFault::DuplicateOperation(_) => "an earlier operation has this name",
        DeclFault::Undeclared(_) => "this isn't an operation of the path's resource",
        DeclFault::RepeatedName(_) => "this name stands in the path already",
        DeclFault::NestedBraces(_) => "braces can't stand in braces",
        DeclFault::BadCapacity(_) => "this is no capacity",
        DeclFault::BadCount(_) => "this is no bound",
        DeclFault::TooMany(_) => "this is one more than the limit",
        DeclFault::OutOfMemory => "out of memory",
    }
}

/// What is wrong with a script.
fn script_words(fault: ScriptFault) -> &'static str {
    match fault {
        ScriptFault::TooLong => "the text has more than 262,144 bytes",
        ScriptFault::BadLine(_) => "this line can't stand here",
        ScriptFault::Undeclared(_) => "this isn't a declared operation",
        ScriptFault::Unbalanced(_) => "this doesn't fit what is entered",
        ScriptFault::TooDeep(_) => "this would be the 17th operation entered at once",
        ScriptFault::TooMany(_) => "this would be the 17th process or the 4,097th step",
        ScriptFault::OutOfMemory => "out of memory",
    }
}

/// What could stand as the first line of a journal of version 3.
pub const KEPT_HEAD: &str = "`journal 3 room N`, with N from 1 to 1048576";

/// What could stand in a line.
pub fn wanted_words(wanted: Wanted) -> &'static str {
    match wanted {
        Wanted::Worker => "a worker's number, 0 to 4294967295",
        Wanted::Space => "one space",
        Wanted::Attempt => "`start NAME`, `use A VERB` or `finish A`",
        Wanted::Operation => "the name of a declared operation",
        Wanted::Activation => "the number of an activation",
        Wanted::Verb => "`put N`, `take`, `look` or `add N`",
        Wanted::Value => "a number, 0 to 18446744073709551615",
        Wanted::End => "the end of the line",
        Wanted::Colon => "`: ` and the reply",
        Wanted::Reply => "a reply, as `started 0`, `blocked 0`, `used 0`, `finished` or `stale`",
        Wanted::ReplyNumber => "the number of the reply",
        Wanted::Head => "`journal 2 room N`, with N from 1 to 1048576",
        Wanted::Process => "`process NAME`",
        Wanted::ProcessName => "the name of a process",
        Wanted::Step => "`enter NAME`, `use VERB`, `leave` or `end`",
        Wanted::ProcessEnd => "`leave` for each operation that is entered, and then `end`",
        Wanted::Entry => "`enter NAME` or `end`",
        Wanted::ScriptEnd => "the end of the script",
    }
}

/// The words of which one could stand in a line, where it is one of few.
pub fn words_of(wanted: Wanted) -> &'static [&'static str] {
    match wanted {
        Wanted::Attempt => &["start", "use", "finish"],
        Wanted::Verb => &["put", "take", "look", "add"],
        Wanted::Process => &["process"],
        Wanted::Step => &["enter", "use", "leave", "end"],
        _ => &[],
    }
}

impl Display for Wrong {
    fn fmt<W: fmt::Write>(&self, f: &mut fmt::Formatter<W>) -> fmt::Result {
        f.write_str(match self {
            Wrong::Declaration(fault) => declaration_words(*fault),
            Wrong::Line => "this line can't be read",
            Wrong::NoLineFeed => "the file ends here without a line feed",
            Wrong::Undeclared => "this isn't a declared operation",
            Wrong::TooLong => "the text has more than 134,217,728 bytes",
            Wrong::Script(fault) => script_words(*fault),
        })
    }
}
