// The phases that triggers leave, and what comes.
ghost use Rattle.std.specs.Prelude.{◌≡◌, ◌≤◌, true, Some};
ghost use Rattle.sof_base.specs.Rates.{is_rate};
ghost use Rattle.fw_components.specs.Changes.{is_idle_phase};
ghost use Rattle.fw_components.specs.Kept.{IsStreamOf};
ghost use Rattle.fw_pipeline.specs.Triggers.{leaves as is_left, phase_after as next_phase, params_after as next_params};

use sof_base::Params;
use stream_law::Phase;

/// What is asked of a stream.
#[derive(Clone, Copy, Debug, PartialEq, Eq)]
pub enum Trigger {
    Start,
    Stop,
    Pause,
    Release,
    Free,
}

/// Whether a phase is one to leave.
pub fn leaves(what: Trigger, phase: Phase) -> bool
    ensures { result ≡ is_left what phase }
{
    match what {
        Trigger::Start | Trigger::Free => matches!(phase, Phase::Prepared),
        Trigger::Stop => matches!(phase, Phase::Running | Phase::Paused),
        Trigger::Pause => matches!(phase, Phase::Running),
        Trigger::Release => matches!(phase, Phase::Paused),
    }
}

/// The phase that comes.
pub(crate) fn phase_after(what: Trigger) -> Phase
    ensures { result ≡ next_phase what }
{
    match what {
        Trigger::Start | Trigger::Release => Phase::Running,
        Trigger::Stop => Phase::Prepared,
        Trigger::Pause => Phase::Paused,
        Trigger::Free => Phase::Idle,
    }
}

/// The parameters that stay.
pub(crate) fn params_after(what: Trigger, p: Params) -> Option<Params>
    requires channels { (1 ≤ p.channels) × (p.channels ≤ 8) }
    requires rate { is_rate p.rate ≡ true }
    ensures params { result ≡ next_params what (Some p) }
    ensures right { IsStreamOf (is_idle_phase (next_phase what)) result }
{
    match what {
        Trigger::Free => None,
        Trigger::Start | Trigger::Stop | Trigger::Pause | Trigger::Release => Some(p),
    }
}
