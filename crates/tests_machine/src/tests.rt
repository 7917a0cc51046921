//! The tests of the machine, orders, the devices and audits.

mod audits;
mod code;
mod orders;
mod shelf;
