// A count of failures.
ghost use Rattle.std.specs.Prelude.{◌≡◌, is_ok, if◌then◌else◌};
ghost use Rattle.sof_desk.specs.Counts.{one_more};

use crate::calls::DeskFailed;
use std::marker::Model;

/// How many calls failed; the count stays at its last value.
#[derive(Drop)]
pub struct Faults {
    count: u64,
}

impl Model for Faults {
    ghost use Rattle.std.specs.Prelude.{ℕ};

    ghost Value = { ℕ };

    ghost view = { λ f. f.count };
}

impl Faults {
    pub fn none() -> Faults
        ensures { result ≡ 0 }
    {
        Faults { count: 0 }
    }

    pub fn count_one(&mut self)
        ensures { self.new ≡ one_more self.old }
    {
        self.count = self.count.saturating_add(1);
    }

    /// Counts a failure where there is one.
    pub fn answer(&mut self, done: bool) -> Result<(), DeskFailed>
        ensures answer { is_ok result ≡ done }
        ensures after { self.new ≡ (if done then self.old else one_more self.old) }
    {
        if done {
            return Ok(());
        }
        self.count_one();
        Err(DeskFailed)
    }
}
