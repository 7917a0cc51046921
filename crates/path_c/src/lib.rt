//! Services behind a handle, for C: each call is one of path_service, and answers a code and a number. The names that C programs call,
//! and what a null pointer means, are in `c/wanzoche.c`; `include/wanzoche.h` says what each does.
#![tactic(auto)]

mod answer;
mod calls;
mod codes;
mod exploring;
mod finding;
mod handle;
mod listed;
mod opening;
mod ordering;
mod parts;
mod resume;
mod texts;
