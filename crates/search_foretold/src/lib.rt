//! That a search of all schedules of a script foretells how its runs end.
//!
//! The [`theorems`] join what `explore` of search_schedules tells of every schedule with what path_run promises of a run in threads.
#![tactic(auto)]

pub mod theorems;
