//! How a command ends.

/// The exit status of a command. `u8::from` gives its number.
#[derive(Clone, Copy, Debug, PartialEq, Eq)]
pub enum Status {
    /// 0: done, or help was asked for.
    Done,
    /// 1: the declaration is refused.
    DeclarationRefused,
    /// 2: the words of the command line are refused, or a system can't be opened with them.
    CommandRefused,
    /// 3: a file or stream failed.
    StreamFailed,
    /// 4: the attempts, the text of a journal, or a script are refused.
    TextRefused,
    /// 5: a line of the journal is wrong, or not all processes of a run are done.
    Unsound,
    /// 6: allocation failed.
    NoMemory,
}

impl From<Status> for u8 {
    ghost use Rattle.std.specs.Prelude.{◌≡◌};
    ghost use Rattle.tell_base.specs.Statuses.{status_number};

    ghost from_gives = { λ status number. number ≡ status_number status };

    fn from(status: Status) -> u8 {
        match status {
            Status::Done => 0,
            Status::DeclarationRefused => 1,
            Status::CommandRefused => 2,
            Status::StreamFailed => 3,
            Status::TextRefused => 4,
            Status::Unsound => 5,
            Status::NoMemory => 6,
        }
    }
}
