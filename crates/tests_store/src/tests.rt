//! Tests of public calls.

mod crashes;
mod cuts;
mod declaration;
mod failing;
mod files;
mod stores;
