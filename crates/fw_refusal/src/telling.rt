// Why bytes are refused.
ghost use Rattle.std.specs.Prelude.{◌≡◌, Some, true, is_some, option_map};
ghost use Rattle.stream_law.specs.State.{FwState};
ghost use Rattle.ipc3_model.specs.Messages.{decoded};
ghost use Rattle.row_reasons.specs.Refusals.{refusal_of};
ghost use Rattle.row_reasons.specs.declared.refusals.Refusal.TheVariants.{Refused};

use fw_core::Firmware;
use fw_reasons::reason;
use ipc3_codec::decode;
use row_reasons::{Reason, Refusal};

// That of a message.
fn refused(reason: Option<Reason>) -> Option<Refusal>
    ensures { result ≡ option_map Refused reason }
{
    match reason {
        Some(reason) => Some(Refusal::Refused(reason)),
        None => None,
    }
}

/// Why a firmware that is on refuses these bytes; none where it does what they say.
pub fn refusal(firmware: &Firmware, request: &[u8]) -> Option<Refusal>
    requires { is_some firmware.now.state ≡ true }
    ensures { (f : FwState) → firmware.now.state ≡ Some f → result ≡ refusal_of f (decoded request.now) }
{
    match decode(request) {
        Ok(message) => refused(reason(firmware.registry(), firmware.largest(), &message)),
        Err(fault) => Some(Refusal::Broken(fault)),
    }
}
