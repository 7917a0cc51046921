//! The reply that a service owes to an attempt, and lines that others answered.

ghost use Rattle.std.specs.Prelude.{◌≡◌, IfOk, IfErr, OnErr, OnOk};
ghost use Rattle.path_journal.specs.CutTexts.{IsCutFault};
ghost use Rattle.path_service.specs.Taken.{IsOwedNow, IsUnowed, StopsAt, TakesLine, TakesLines, TakesText};

use crate::service::Service;
use path_journal::read_cut;
use path_lines::TextFault;
use path_model::{Attempt, Line, Reply};
use path_system::TakeFault;
use std::alloc::Global;

/// How much of a text was taken over.
#[derive(Clone, Copy, Debug, PartialEq, Eq)]
pub struct TakenText {
    /// How many lines were taken, from the first on.
    pub lines: usize,
    /// In how many bytes of the text whole lines stand, a head included. What follows is a torn end.
    pub bytes: usize,
    /// The reply that is owed to the first line that wasn't taken; `None` if all were.
    pub owed: Option<Reply>,
}

impl Service {
    /// The reply that [`step`](Service::step) would return to this attempt of a worker now. Makes no attempt, and changes and allocates
    /// nothing. The cost is that of [`Controller::owed`](path_system::Controller::owed).
    pub fn owed(&self, worker: u32, attempt: Attempt) -> Reply
        ensures { IsOwedNow self.now.account worker attempt result }
    {
        self.controller.owed(worker, attempt)
    }

    /// Takes over a line that another answered: moves as if [`step`](Service::step) had answered so. The line is kept, or given up at once.
    ///
    /// Fails with the reply that is owed, as [`owed`](Service::owed) returns it, exactly if that of the line isn't owed by all lines so
    /// far, or is `NoRoom`; then nothing changes. `DeviceFailed` is owed wherever the device would serve, and then it isn't asked.
    /// Allocates nothing. The cost is that of [`Controller::take_over`](path_system::Controller::take_over).
    pub fn take_over(&mut self, line: Line) -> Result<(), Reply>
        ensures taken { OnOk result (TakesLine self.old line self.new) }
        ensures owed { IfErr result (IsUnowed self.old line) }
        ensures kept { OnErr result (self.new ≡ self.old) }
    {
        match self.controller.take_over(line) {
            Ok(()) => {}
            Err(TakeFault::NotOwed(reply)) => return Err(reply),
            Err(TakeFault::DeviceFailed) => unreachable!(),
        }
        match &mut self.lines {
            None => self.controller.rotate(),
            Some(lines) => lines.present.push_reserved(line),
        }
        Ok(())
    }

    /// Takes over lines that others answered, as [`take_over`](Service::take_over) does, up to the first that isn't taken: fails with its
    /// number, counted from 0, and the reply that is owed to it. Those before it are taken.
    pub fn take_lines(&mut self, lines: &[Line]) -> Result<(), (usize, Reply)>
        ensures taken { OnOk result (TakesLines self.old lines.now self.new) }
        ensures stopped { IfErr result (λ stop. StopsAt self.old lines.now stop.0 stop.1 self.new) }
    {
        for (n, line) in lines.iter().enumerate() {
            if let Err(owed) = self.take_over(*line) {
                return Err((n, owed));
            }
        }
        Ok(())
    }

    /// Takes over the lines of a journal's text, as [`take_lines`](Service::take_lines) does. The text is of any version, and may end
    /// anywhere: the lines are those that [`read_cut`] reads, and a room that it names doesn't count.
    ///
    /// Fails as [`read_cut`] does, and then nothing changes. The cost is that of reading the text, and of taking over each line.
    pub fn take_text(&mut self, alloc: Global, text: &[u8]) -> Result<TakenText, TextFault>
        ensures taken { IfOk result (λ taken. TakesText self.old text.now taken self.new) }
        ensures fault { IfErr result (IsCutFault self.old.account.declaration text.now) }
        ensures kept { OnErr result (self.new ≡ self.old) }
    {
        let cut = read_cut(alloc, self.controller.decl(), text)?;
        match self.take_lines(&cut.lines) {
            Ok(()) => Ok(TakenText {
                lines: cut.lines.len(),
                bytes: cut.bytes,
                owed: None,
            }),
            Err((lines, owed)) => Ok(TakenText {
                lines,
                bytes: cut.bytes,
                owed: Some(owed),
            }),
        }
    }
}
