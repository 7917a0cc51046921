//! Names of desks in types.

ghost use Rattle.std.specs.Prelude.{[]};
ghost use Rattle.path_system.specs.Accounts.{Account, account_of};

use std::marker::Brand;
use std::sync::ledger::Ledger;

/// The name of a desk in its type and the types of its passes, and what contracts saw of its system when it was opened.
///
/// A function that opens a desk is generic in the name, and is called with [`Brand`]: the proof of that call says which desk is
/// meant. That is how contracts distinguish the passes of one desk from those of another. It doesn't exist at run time.
pub trait DeskName: Ledger {
    ghost opened: { Account };
}

impl DeskName for Brand {
    ghost opened = { account_of (record { resources = []; operations = []; paths = [] }) 0 [] };
}
