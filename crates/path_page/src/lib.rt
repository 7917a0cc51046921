//! The calls of a web page, as exports: bytes in, bytes out, over memory that the page hands in.
#![tactic(auto)]

mod exports;
mod tell;
