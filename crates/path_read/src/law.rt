//! The laws of resources.

ghost use Rattle.std.specs.Prelude.{◌≡◌, IfOk, IfErr};
ghost use Rattle.path_read.specs.Inner.Parts.{law_said};
ghost use Rattle.path_decl.specs.Forms.{LawFits};
ghost use Rattle.path_read.specs.Inner.Building.{law_from};
ghost use Rattle.path_read.specs.Inner.Reading.{Fails};

use crate::numeral::number_up_to;
use crate::part::LawText;
use path_lex::DeclFault;
use path_model::Law;

/// The largest capacity of a queue.
const MOST_CAPACITY: u32 = 1_024;

/// The law in the text at this offset. Fails with `BadCapacity` if the capacity of a queue begins with the digit 0 or is greater
/// than 1,024.
pub(crate) fn law_at(text: LawText<'_>, at: u32) -> Result<Law, DeclFault>
    ensures ok { IfOk result (λ law. LawFits (law_said text.entry) × (law ≡ law_from (law_said text.entry))) }
    ensures err { IfErr result (λ e. Fails e (LawFits (law_said text.entry) → ⊥)) }
{
    match text {
        LawText::Cell => Ok(Law::Cell),
        LawText::Tally => Ok(Law::Tally),
        LawText::Queue(digits) => match number_up_to(MOST_CAPACITY, digits) {
            Some(capacity) => Ok(Law::Queue(capacity)),
            None => Err(DeclFault::BadCapacity(at)),
        },
    }
}
