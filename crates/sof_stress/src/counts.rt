// What is counted of a stress.
ghost use Rattle.std.specs.Prelude.{◌≡◌};
ghost use Rattle.sof_stress.specs.CommandTurns.{no_counts};

/// The messages that were sent, the ticks of the tick commands, the commands that were done, those that were not, and the bytes
/// that came out of the DAI.
#[derive(Clone, Copy, Debug, PartialEq, Eq)]
pub struct Counts {
    pub messages: u64,
    pub ticks: u64,
    pub done: u64,
    pub refused: u64,
    pub bytes: u64,
}

impl Counts {
    /// Nothing yet.
    pub fn none() -> Counts
        ensures { result ≡ no_counts }
    {
        Counts {
            messages: 0,
            ticks: 0,
            done: 0,
            refused: 0,
            bytes: 0,
        }
    }
}
