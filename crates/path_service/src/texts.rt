//! The texts of a service: its journal, its report, its declaration.

ghost use Rattle.std.specs.Prelude.{◌≡◌, ◌↔◌, true, false, IfOk, IfErr};
ghost use Rattle.std.specs.String.{string_bytes};
ghost use Rattle.path_journal.specs.JournalTexts.{lines_text};
ghost use Rattle.path_print.specs.Printed.{printed};
ghost use Rattle.path_system.specs.Accounts.{all_lines};
ghost use Rattle.tell_base.specs.ReportTexts.{IsReportText};
ghost use Rattle.path_service.specs.declared.fault.JournalFault.TheVariants as journals;

use crate::fault::JournalFault;
use crate::service::Service;
use path_journal::write_journal;
use path_model::OutOfMemory;
use path_print::print;
use std::alloc::Global;
use tell_base::write_report;

impl Service {
    /// The text of the lines since the last rotation, in order, each with its line feed: a journal of version 1. Changes nothing.
    /// Fails with `NotKept` if no lines are kept, and else only if allocation fails. The cost is that of the text.
    pub fn journal_text(&self, alloc: Global) -> Result<String, JournalFault>
        ensures ok { IfOk result (λ text. string_bytes text ≡ lines_text self.now.account.declaration self.now.account.journal) }
        ensures err { IfErr result (λ fault. (fault ≡ journals.NotKept) ↔ (self.now.keeps ≡ false)) }
        ensures kept { IfOk result (λ _. self.now.keeps ≡ true) }
    {
        let Some(lines) = self.journal() else {
            return Err(JournalFault::NotKept);
        };
        Ok(write_journal(alloc, self.controller().decl(), None, lines)?)
    }

    /// The text of the report of the service as it is ([`write_report`]). Changes nothing. Fails only if allocation fails. The cost is
    /// that of the report and its text.
    pub fn report_text(&self, alloc: Global) -> Result<String, OutOfMemory>
        ensures { IfOk result (λ text. IsReportText self.now.account.declaration (all_lines self.now.account) (string_bytes text)) }
    {
        let report = self.controller().report(alloc)?;
        write_report(alloc, self.controller().decl(), &report)
    }

    /// The text of the declaration, as [`print`] writes it: one line. Changes nothing. Fails only if allocation fails. The cost is that
    /// of the text.
    pub fn declaration_text(&self, alloc: Global) -> Result<String, OutOfMemory>
        ensures { IfOk result (λ text. string_bytes text ≡ printed self.now.account.declaration) }
    {
        print(alloc, self.controller().decl())
    }
}
