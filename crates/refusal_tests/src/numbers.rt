// The reasons by number, so that they can be counted.
ghost use Rattle.std.specs.Prelude.{◌<◌};

use row_reasons::Reason;

/// How many reasons there are.
pub(crate) const REASONS: usize = 51;

/// The place of a reason among all, in the order of their declaration.
pub(crate) fn number(reason: &Reason) -> usize
    ensures { result < 51 }
{
    match reason {
        Reason::Nothing { .. } => 0,
        Reason::NoScheduler { .. } => 1,
        Reason::Used { .. } => 2,
        Reason::Complete { .. } => 3,
        Reason::IndexUsed { .. } => 4,
        Reason::SourceJoined { .. } => 5,
        Reason::SinkJoined { .. } => 6,
        Reason::Completed { .. } => 7,
        Reason::NotComp { .. } => 8,
        Reason::NotBuffer { .. } => 9,
        Reason::NotPipe { .. } => 10,
        Reason::NotHost { .. } => 11,
        Reason::NotEqualiser { .. } => 12,
        Reason::NotScheduler { .. } => 13,
        Reason::NotEnds { .. } => 14,
        Reason::NoFreeOut { .. } => 15,
        Reason::NoFreeIn { .. } => 16,
        Reason::Cycle { .. } => 17,
        Reason::WayChanges { .. } => 18,
        Reason::Clash { .. } => 19,
        Reason::CompJoined { .. } => 20,
        Reason::Held { .. } => 21,
        Reason::IndexHeld { .. } => 22,
        Reason::NoValues { .. } => 23,
        Reason::OtherCommand { .. } => 24,
        Reason::OtherCount { .. } => 25,
        Reason::TooGreat { .. } => 26,
        Reason::LongBlob { .. } => 27,
        Reason::NothingStaged { .. } => 28,
        Reason::OtherPart { .. } => 29,
        Reason::OtherHeader { .. } => 30,
        Reason::OtherLeft { .. } => 31,
        Reason::ShortPart { .. } => 32,
        Reason::NoBlob { .. } => 33,
        Reason::NoPart { .. } => 34,
        Reason::OtherPhase { .. } => 35,
        Reason::Moves { .. } => 36,
        Reason::NoStream { .. } => 37,
        Reason::OtherDirection { .. } => 38,
        Reason::NotRate { .. } => 39,
        Reason::NoPipe { .. } => 40,
        Reason::Incomplete { .. } => 41,
        Reason::Ins { .. } => 42,
        Reason::Outs { .. } => 43,
        Reason::NoSource { .. } => 44,
        Reason::NoSink { .. } => 45,
        Reason::Crosses { .. } => 46,
        Reason::CompsFull => 47,
        Reason::BuffersFull => 48,
        Reason::PipesFull => 49,
        Reason::NoHole { .. } => 50,
    }
}
