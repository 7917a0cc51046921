//! The tests of explanations.

mod attempts;
mod behind;
mod declarations;
mod endings;
mod hostile;
mod journals;
mod refusals;
mod rooms;
