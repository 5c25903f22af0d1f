// What the host does to a stream that has parameters.
ghost use Rattle.std.specs.Prelude.{◌≡◌};
ghost use Rattle.host_widgets.specs.Acts.{trigger_message};

use ipc3_codec::Message;

/// A trigger of a stream: it moves, it rests with its rings empty, it is held with its rings kept, or it moves on.
#[derive(Clone, Copy, Debug, PartialEq, Eq)]
pub enum Trigger {
    Start,
    Stop,
    Pause,
    Release,
}

impl Trigger {
    /// Its message to the stream of a host component.
    pub fn message(self, host: u32) -> Message
        ensures { result ≡ trigger_message host self }
    {
        match self {
            Trigger::Start => Message::TrigStart { id: host },
            Trigger::Stop => Message::TrigStop { id: host },
            Trigger::Pause => Message::TrigPause { id: host },
            Trigger::Release => Message::TrigRelease { id: host },
        }
    }
}
