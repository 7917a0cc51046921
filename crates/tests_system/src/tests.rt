//! The tests of ledgers, gates and systems.

mod resuming;
mod systems;
