// Why bytes are refused.
ghost use Rattle.std.specs.Prelude.{◌≡◌};
ghost use Rattle.row_reasons.specs.Refusals.{refusal_errno};

use crate::reasons::Reason;
use ipc3_model::CodecFault;
use sof_base::Errno;

/// Why bytes are refused.
#[derive(Clone, Copy)]
pub enum Refusal {
    /// They are no message; the codec's fault.
    Broken(CodecFault),
    /// They are a message that is not done; its reason.
    Refused(Reason),
}

impl Refusal {
    /// The error number that is answered.
    pub fn errno(self) -> Errno
        ensures { result.0 ≡ refusal_errno self }
    {
        match self {
            Refusal::Broken(_) => Errno::INVALID,
            Refusal::Refused(reason) => reason.errno(),
        }
    }
}
