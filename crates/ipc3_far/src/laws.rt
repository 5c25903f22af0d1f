// What a device that a far side is compared with is. Nothing runs here.
ghost use Rattle.ipc3_far.specs.FarCalls.{AgreedCalls, TracedCalls};

use mbox_link::Dsp;

/// As long as the far side failed in no message, the calls are those of the device itself, with the same answers.
pub fn agreed_calls<P: Dsp>()
    ensures { AgreedCalls P.means }
{}

/// Where each record went out too, the far side was sent the records of these calls, and gave their replies and nothing else.
pub fn traced_calls<P: Dsp>()
    ensures { TracedCalls P.means }
{}
