//! What help says of the commands.

/// The help text below the commands.
pub const MORE_HELP: &str = "\
A declaration lists the operations of each resource, and paths that say in which order they may run.
Workers attempt to start, use and finish operations; each attempt gets a reply, one line each.

Without a command, standard input is a declaration, a line %, and attempts, for which --room and --report
stand as with trace. A file named - is standard input.

pathsys <<'END'
resource slot cell operation deposit, remove path deposit ; remove end end
%
1 start deposit
2 start remove
1 use 0 put 7
1 finish 0
2 start remove
2 use 1 look
END

See docs/language.md for declarations, docs/attempts.md for attempts, replies and reports,
docs/journals.md for journals and audits, docs/scripts.md for scripts of processes,
docs/exploring.md for all schedules of a script, and docs/explaining.md for what to do when
something isn't as you want it.

Exit statuses:
  0  done
  1  the declaration is refused
  2  the command line is refused
  3  a file or stream failed
  4  the attempts, the journal or the script are refused
  5  a line of the journal is wrong, or not all processes are done
  6  out of memory
  7  there are too many states to say";

/// What help says of `check` below its options.
pub const CHECK_HELP: &str = "\
Example:
  pathsys check examples/slot/declaration

Exit statuses:
  0  done
  1  the declaration is refused
  2  the command line is refused
  3  a file or stream failed
  6  out of memory

See docs/language.md for declarations.";

/// What help says of `compile` below its options.
pub const COMPILE_HELP: &str = "\
Example:
  pathsys compile examples/slot/declaration

Exit statuses:
  0  done
  1  the declaration is refused
  2  the command line is refused
  3  a file or stream failed
  6  out of memory

See docs/translation.md for how to read them.";

/// What help says of `trace` below its options.
pub const TRACE_HELP: &str = "\
Examples:
  pathsys trace examples/knot/declaration examples/knot/attempts --report
  pathsys trace examples/slot/declaration examples/slot/later --after examples/slot/stored

Exit statuses:
  0  done
  1  the declaration is refused
  2  the command line is refused
  3  a file or stream failed
  4  the attempts are refused, or a file behind --after isn't a journal
  5  a line of the journal is wrong
  6  out of memory

See docs/language.md for declarations, docs/attempts.md for attempts, replies and reports, and docs/journals.md
for what is made behind a journal.";

/// What help says of `explain` below its options.
pub const EXPLAIN_HELP: &str = "\
Examples:
  pathsys explain examples/slot/declaration
  pathsys explain examples/slot/declaration examples/slot/attempts
  pathsys explain examples/till/declaration --journal examples/till/journal
  pathsys explain examples/slot/declaration examples/slot/later --after examples/slot/stored

Exit statuses:
  0  done
  1  the declaration is refused
  2  the command line is refused
  3  a file or stream failed
  4  the attempts or the journal are refused
  5  a line of the journal is wrong
  6  out of memory

See docs/explaining.md for worked cases.";

/// What help says of `follow` below its options.
pub const FOLLOW_HELP: &str = "\
Examples:
  pathsys follow examples/slot/declaration < examples/slot/attempts
  pathsys follow examples/slot/declaration --journal slot.log < examples/slot/attempts

Exit statuses:
  0  done
  1  the declaration is refused
  2  the command line is refused
  3  a file or stream failed, or another process has the journal
  4  lines that aren't attempts were told on standard error and skipped, or the file isn't a journal
  5  a line of the journal is wrong
  6  out of memory

The line ? writes the report. See docs/explaining.md, and docs/journals.md for the file of a journal.";

/// What help says of `picture` below its options.
pub const PICTURE_HELP: &str = "\
Example:
  pathsys picture examples/pool/declaration examples/pool/attempts > pool.svg

Exit statuses:
  0  done
  1  the declaration is refused
  2  the command line is refused
  3  a file or stream failed
  4  the attempts or the journal are refused
  6  out of memory

See docs/picture.md for what is drawn.";

/// What help says of `audit` below its options.
pub const AUDIT_HELP: &str = "\
Example:
  pathsys audit examples/recorder/declaration examples/recorder/journal examples/recorder/next

Exit statuses:
  0  done
  1  the declaration is refused
  2  the command line is refused
  3  a file or stream failed
  4  a file isn't a journal, or names another room than the first
  5  a line is wrong
  6  out of memory

See docs/language.md for declarations, docs/journals.md for journals and audits.";

/// What help says of `run` below its options.
pub const RUN_HELP: &str = "\
Example:
  pathsys run examples/forks/declaration examples/forks/script

Exit statuses:
  0  done
  1  the declaration is refused
  2  the command line is refused
  3  a file or stream failed
  4  the script is refused
  5  not all processes are done
  6  out of memory

See docs/language.md for declarations, docs/scripts.md for scripts and how processes end.";

/// What help says of `explore` below its options.
pub const EXPLORE_HELP: &str = "\
Examples:
  pathsys explore examples/crosswise/declaration examples/crosswise/script
  pathsys explore examples/slot/declaration --workers 3

Exit statuses:
  0  done
  1  the declaration is refused
  2  the command line is refused
  3  a file or stream failed
  4  the script is refused
  5  in some schedule not all processes end: the journal is that of a shortest;
     without a script, the paths can freeze, or an operation never begins
  6  out of memory
  7  there are too many states to say

See docs/exploring.md for what is looked at, and docs/scripts.md for scripts.";
