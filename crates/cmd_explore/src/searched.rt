//! How a search of all schedules ends.

use tell_base::Status;

/// How a search ended. `u8::from` gives the exit status.
#[derive(Clone, Copy, Debug, PartialEq, Eq)]
pub enum Searched {
    /// As other commands end: `Done` if every schedule ends done, `Unsound` if one doesn't.
    Ended(Status),
    /// 7: there are too many configurations to say.
    Undecided,
}

impl From<Searched> for u8 {
    ghost use Rattle.std.specs.Prelude.{◌≡◌};
    ghost use Rattle.cmd_explore.specs.Searches.{searched_number};

    ghost from_gives = { λ searched number. number ≡ searched_number searched };

    fn from(searched: Searched) -> u8 {
        match searched {
            Searched::Ended(status) => u8::from(status),
            Searched::Undecided => 7,
        }
    }
}
