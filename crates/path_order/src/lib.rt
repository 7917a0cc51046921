//! Who comes next: an order among those who wait for a start.
//!
//! A gate says who may go on now, not who comes next. An [`Order`] stands beside it and only withholds starts, so whatever it lets through
//! the gate judges as ever. Who waits, waits in the order of arrival. A start of x is withheld for one who waits for y and came before it
//! if the way of y is clear (y would be admitted if all that is in progress for those who run were over) and x stands in it: behind x it
//! would not be clear, or x takes what a path has free for y now. `specs/Ways.antt` says so in definitions, `specs/Rulings.antt` what each
//! call tells.
//!
//! The caller keeps those who wait, in order, and what is in progress for those who run. There is no clock here: each who waits says when
//! it came and when its door was last shut, and starts are withheld for it of those who came behind that.
#![tactic(auto)]

mod order;
mod ruling;
mod spare;
mod waiting;

pub use order::Order;
pub use ruling::Ruling;
pub use waiting::Waiter;
