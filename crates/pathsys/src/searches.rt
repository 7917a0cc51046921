//! Searches of all schedules and of all histories, which can take long.

use crate::request::Request;
use cmd_explore::{Searched, explore_bytes, reach_bytes};
use std::alloc::Global;
use std::io::Write;
use std::rt::Files;
use tell_base::{Fault, Status};
use tell_refusals::{Source, Subject};

/// How many states are looked at, unless the words name another number.
const MOST: u32 = 1_000_000;

/// How many operations may be in progress at once where histories are looked at, unless the words name another number.
const WORKERS: u32 = 2;

/// After how many states a search says how far it has come, where somebody sees it.
const STOPS: [u32; 4] = [1_000_000, 10_000_000, 100_000_000, 1_000_000_000];

/// What a search looks at.
#[derive(Clone, Copy)]
enum Scope<'a> {
    /// Every schedule of the script in this text.
    Schedules(&'a [u8]),
    /// Every history with at most so many operations in progress at once.
    Histories(u32),
}

/// What is searched under the declaration in a text.
#[derive(Clone, Copy)]
struct Search<'d, 's> {
    alloc: Global,
    declaration: &'d [u8],
    scope: Scope<'s>,
}

impl Search<'_, '_> {
    /// Looks at no more than so many states.
    fn within<O: Write, E: Write>(&self, most: u32, out: &mut O, err: &mut E) -> Searched {
        let (alloc, declaration) = (self.alloc, self.declaration);
        match self.scope {
            Scope::Schedules(script) => explore_bytes(alloc, declaration, script, most, out, err),
            Scope::Histories(workers) => reach_bytes(alloc, declaration, workers, most, out, err),
        }
    }

    /// Looks at no more than so many states, and if there are more, says on `err` that it goes on. `None` then.
    fn to_stop<O: Write, E: Write>(&self, stop: u32, out: &mut O, err: &mut E) -> Option<Searched> {
        let mut said = Vec::new(self.alloc);
        let searched = self.within(stop, out, &mut said);
        if searched == Searched::Undecided {
            drop(writeln!(err, "{stop} states so far"));
            return None;
        }
        match err.write_all(&said) {
            Ok(()) => Some(searched),
            Err(_) => Some(Searched::Ended(Status::StreamFailed)),
        }
    }

    /// Looks at no more than so many states, and says on `err` now and then how many there are so far. After each stop it begins anew,
    /// since a search can't be left and taken up: a long one takes up to 2.2 times as long for it.
    fn in_stops<O: Write, E: Write>(&self, most: u32, out: &mut O, err: &mut E) -> Searched {
        for stop in STOPS {
            if stop >= most {
                break;
            }
            if let Some(searched) = self.to_stop(stop, out, err) {
                return searched;
            }
        }
        self.within(most, out, err)
    }
}

impl<'a, R: Files + Input + AllocGlobal, O: Write, E: Write> Request<'_, 'a, R, O, E> {
    /// Searches as many states as the words say, and says on standard error how far that has come, if it is a screen.
    fn search(&mut self, search: Search<'_, '_>) -> Searched {
        let most = self.words.get_one("most").unwrap_or(MOST);
        if self.terminals.is_shown {
            search.in_stops(most, self.out, self.err)
        } else {
            search.within(most, self.out, self.err)
        }
    }

    /// Looks at every schedule of the script in a file. Returns the exit status.
    fn explore_script(&mut self, declaration: &[u8]) -> Result<u8, Fault<'a>> {
        let script = self.file("SCRIPT")?;
        let searched = self.search(Search {
            alloc: self.alloc(),
            declaration,
            scope: Scope::Schedules(&script),
        });
        if let Searched::Ended(status) = searched {
            let subject = Subject::Script(Source::whole(self.name_of("SCRIPT"), &script));
            self.ended(declaration, subject, status);
        }
        Ok(u8::from(searched))
    }

    /// Looks at every history of a declaration. Returns the exit status.
    fn explore_histories(&mut self, declaration: &[u8]) -> u8 {
        let workers = self.words.get_one("workers").unwrap_or(WORKERS);
        let searched = self.search(Search {
            alloc: self.alloc(),
            declaration,
            scope: Scope::Histories(workers),
        });
        if let Searched::Ended(status) = searched {
            self.ended(declaration, Subject::Nothing, status);
        }
        u8::from(searched)
    }

    /// Looks at every schedule of the script of one file under the declaration of another, or at every history of that declaration. Returns
    /// the exit status.
    pub fn explore(&mut self) -> Result<u8, Fault<'a>> {
        let declaration = self.file("DECL")?;
        if self.words.get_str("SCRIPT").is_some() {
            return self.explore_script(&declaration);
        }
        Ok(self.explore_histories(&declaration))
    }
}
