// What the contract of `serve` entails. Nothing runs here.
ghost use Rattle.run_serve.specs.ServeLaws.{ServedReplays, ServedTrace};

use mbox_link::Dsp;
use sof_desk::Desk;

/// A driver's records and what came back of them, merged, replay without a fault, where the device did nothing of its own accord.
pub fn served_replays<D: Desk, P: Dsp>()
    ensures { ServedReplays D.means P.means }
{}

/// Where the desk tells the file's bytes and they were read to their end or to a broken record, what was served is their trace up to there.
pub fn served_trace<D: Desk, P: Dsp>()
    ensures { ServedTrace D.means P.means }
{}
