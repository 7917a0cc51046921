//! Where a text is at fault, for people: the line and the column, what could stand there, the nearest name, and the likely cause.
#![tactic(auto)]

mod declarations;
mod finding;
mod likely;
mod lines;
mod near;
mod places;
mod scripts;
mod texts;
mod wording;

pub use declarations::declaration_finding;
pub use finding::{Finding, push_finding};
pub use likely::Likely;
pub use near::nearest;
pub use places::{Spot, columns, spot_at};
pub use scripts::script_finding;
pub use texts::{TextKind, text_finding};
pub use wording::Wrong;
