// The failures of a desk over real files.
ghost use Rattle.std.specs.Prelude.{◌≡◌, is_ok, is_some, nat_lt, if◌then◌else◌};
ghost use Rattle.std.specs.Option.{option_copied, option_or};
ghost use Rattle.std.specs.Result.{result_err};
ghost use Rattle.sof_desk.specs.Counts.{one_more};
ghost use Rattle.sof_files.specs.Troubles.{noted, NotesFile};

use crate::trouble::Trouble;
use sof_desk::{DeskFailed, Faults};
use std::alloc::Global;
use std::io;
use std::marker::Model;

/// How many calls failed, and why the first of them did.
#[derive(Drop)]
pub struct Troubles {
    faults: Faults,
    first: Option<Trouble>,
}

impl Model for Troubles {
    ghost use Rattle.std.specs.Prelude.{◌≡◌, is_some, nat_lt};
    ghost use Rattle.sof_files.specs.Troubles.{Noted};

    ghost Value = { Noted };

    ghost view = { λ t. record { count = t.faults; first = t.first } };

    ghost invariant = { λ t. is_some t.first ≡ nat_lt 0 t.faults };
}

impl Troubles {
    pub fn none() -> Troubles
        ensures { result ≡ record { count = 0; first = None } }
    {
        Troubles {
            faults: Faults::none(),
            first: None,
        }
    }

    /// Why the first call failed that did.
    pub fn first(&self) -> Option<&Trouble>
        ensures value { option_copied result ≡ self.now.first }
        ensures counted { is_some result ≡ nat_lt 0 self.now.count }
    {
        self.first.as_ref()
    }

    /// Counts a failure, and remembers the first.
    pub fn note(&mut self, trouble: Trouble)
        ensures { self.new ≡ noted trouble self.old }
    {
        self.faults.count_one();
        if self.first.is_none() {
            self.first = Some(trouble);
        }
    }

    /// Counts a failure with the file of a name, and remembers the first.
    pub fn note_file(&mut self, alloc: Global, name: &str, reason: io::Error)
        ensures { NotesFile name.now self.old self.new }
    {
        self.note(Trouble::with_file(alloc, name, reason));
    }

    /// Notes a failure where there is one.
    pub fn answer(&mut self, done: Result<(), Trouble>) -> Result<(), DeskFailed>
        ensures answer { is_ok result ≡ is_ok done }
        ensures count { self.new.count ≡ (if is_ok done then self.old.count else one_more self.old.count) }
        ensures first { self.new.first ≡ option_or self.old.first (result_err done) }
    {
        match done {
            Ok(()) => Ok(()),
            Err(trouble) => {
                self.note(trouble);
                Err(DeskFailed)
            }
        }
    }
}
