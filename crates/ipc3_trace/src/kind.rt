// The kinds of records, in the order of their numbers.
ghost use Rattle.std.specs.Prelude.{◌≡◌};
ghost use Rattle.ipc3_trace.specs.Kinds.{record_number, record_numbered, takes_size};

/// What a record tells.
#[derive(Clone, Copy, Debug, PartialEq, Eq)]
pub enum RecordKind {
    Boot,
    Cut,
    Request,
    Reply,
    Tick,
    Lost,
}

impl RecordKind {
    /// Its number, from 1 to 6.
    pub fn number(self) -> u32
        ensures { result ≡ record_number self }
    {
        match self {
            RecordKind::Boot => 1,
            RecordKind::Cut => 2,
            RecordKind::Request => 3,
            RecordKind::Reply => 4,
            RecordKind::Tick => 5,
            RecordKind::Lost => 6,
        }
    }

    /// The kind of a number; none where it is no kind's.
    pub fn from_number(number: u32) -> Option<RecordKind>
        ensures { result ≡ record_numbered number }
    {
        match number {
            1 => Some(RecordKind::Boot),
            2 => Some(RecordKind::Cut),
            3 => Some(RecordKind::Request),
            4 => Some(RecordKind::Reply),
            5 => Some(RecordKind::Tick),
            6 => Some(RecordKind::Lost),
            _ => None,
        }
    }

    /// Whether a record of this kind may have so many bytes after its kind and size.
    pub fn takes_size(self, size: u32) -> bool
        ensures { result ≡ takes_size self size }
    {
        match self {
            RecordKind::Boot => size == 4,
            RecordKind::Request => size <= 384,
            RecordKind::Reply => 12 <= size && size <= 384,
            RecordKind::Cut | RecordKind::Tick | RecordKind::Lost => size == 0,
        }
    }
}
