// What the contract of `run` entails. Nothing runs here.
ghost use Rattle.sof_run.specs.PlayLaws.{PlaysAreOne, ReplaysAlike, HeardReplaysAlike, TracesReplay, ReplaysEnd, HeardReplaysEnd};

use mbox_link::Dsp;
use sof_desk::Desk;

/// What `run` ensures of a play determines what is written: two plays of the same words over the same desk and device, which did
/// nothing of its own accord, wrote the same bytes where both end with status 0.
pub fn one_play<D: Desk, P: Dsp>()
    ensures { PlaysAreOne D.means P.means }
{}

/// What `run` ensures of a trace and of its replay: the device to which the trace is given gets the view that the traced one had, where both
/// end with status 0 and neither device did anything of its own accord. The desks tell their files and what was written, or the load of the
/// replay brought what was put to the trace's slot.
pub fn one_view<D: Desk, P: Dsp, E: Desk, Q: Dsp>()
    ensures told { ReplaysAlike D.means P.means E.means Q.means }
    ensures heard { HeardReplaysAlike D.means P.means E.means Q.means }
{}

/// A trace that `run` keeps has no fault that `replay` tells, over a device that has room for the traced heap: of every plan and all commands,
/// where the traced device did nothing of its own accord.
pub fn right_traces()
    ensures { TracesReplay }
{}

/// The replay of a whole trace, which is not longer than a replay takes, ends with status 0 over a device that has room for the traced heap,
/// where neither device did anything of its own accord. It has the view that the traced one had. Or the desk failed, or memory was missing.
/// The desks tell their files and what was written, or the load of the replay brought what was put to the trace's slot.
pub fn replays_end<D: Desk, P: Dsp, E: Desk, Q: Dsp>()
    ensures told { ReplaysEnd D.means P.means E.means Q.means }
    ensures heard { HeardReplaysEnd D.means P.means E.means Q.means }
{}
