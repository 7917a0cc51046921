//! At which of the program's streams a person sits.

/// Which streams are a terminal. What is said to a person alone is said there alone.
#[derive(Clone, Copy)]
pub struct Terminals {
    /// Standard input is typed.
    pub is_typed: bool,
    /// Standard error is read on a screen.
    pub is_shown: bool,
}
