// What is asked of a stream, and the tests before any message.
ghost use Rattle.std.specs.Prelude.{◌≡◌, IfOk, IfErr, Some, None, get_or, length};
ghost use Rattle.host_widgets.specs.StreamStands as stands;
ghost use Rattle.host_pcm.specs.Asks as asks;
ghost use Rattle.host_pcm.specs.Asks.{early_fault, stream_place};

use crate::ranges::params_fault;
use host_widgets::{Found, HostFault, Power, Record, Trigger, is_named};
use sof_base::{Name44, Params};
use tplg_model::Caps;
use tplg_plan::Plan;

/// What is asked of a stream.
#[derive(Clone, Copy, Debug, PartialEq, Eq)]
pub enum Ask {
    /// To be open.
    Opening,
    /// To have these parameters, and to be prepared.
    Preparing(Params),
    /// To be started, stopped, paused or released.
    Triggering(Trigger),
    /// To be closed.
    Closing,
}

// Whether a stream that stands so may be triggered so.
fn takes_trigger(what: Trigger, found: Found) -> bool
    ensures { result ≡ stands.takes_trigger what found }
{
    match (what, found) {
        (Trigger::Start, Found::Prepared) => true,
        (Trigger::Stop, Found::Running | Found::Paused) => true,
        (Trigger::Pause, Found::Running) => true,
        (Trigger::Release, Found::Paused) => true,
        _ => false,
    }
}

impl Ask {
    // Whether it may be asked of a stream that stands so.
    fn takes(self, found: Found) -> bool
        ensures { result ≡ asks.takes_ask self found }
    {
        match self {
            Ask::Opening => matches!(found, Found::Closed),
            Ask::Preparing(_) => matches!(found, Found::Open | Found::Prepared),
            Ask::Triggering(what) => takes_trigger(what, found),
            Ask::Closing => !matches!(found, Found::Closed),
        }
    }

    // Whether it may be asked only while the power is on.
    fn asks_for_power(self) -> bool
        ensures { result ≡ asks.asks_for_power self }
    {
        match self {
            Ask::Opening | Ask::Closing => false,
            Ask::Preparing(_) | Ask::Triggering(_) => true,
        }
    }

    // Parameters are tested against what the stream's PCM can do.
    fn range_fault(self, caps: &Caps) -> Option<HostFault>
        ensures { result ≡ asks.range_fault caps.now self }
    {
        match self {
            Ask::Preparing(params) => params_fault(caps, params),
            Ask::Opening | Ask::Triggering(_) | Ask::Closing => None,
        }
    }
}

// The place of the stream of this name.
fn stream_place(plan: &Plan, name: &Name44) -> Option<usize>
    ensures { result ≡ stream_place plan.now name.now }
{
    plan.streams
        .items()
        .iter()
        .position(|stream| is_named(plan, name, stream.host))
}

// The first test that fails of a stream that stands so.
fn power_fault(caps: &Caps, ask: Ask, found: Found, power: Power) -> Option<HostFault>
    ensures { result ≡ asks.power_fault caps.now ask found power }
{
    if power == Power::Off && ask.asks_for_power() {
        return Some(HostFault::Off);
    }
    if !ask.takes(found) {
        return Some(HostFault::State(found));
    }
    ask.range_fault(caps)
}

/// The place of the stream of this name, where no test of what is asked of it fails.
pub fn tested(plan: &Plan, kept: &Record, name: &Name44, ask: Ask) -> Result<usize, HostFault>
    requires { length kept.now.streams ≡ length plan.now.streams }
    ensures place { IfOk result (λ k. stream_place plan.now name.now ≡ Some k) }
    ensures none { IfOk result (λ k. early_fault plan.now kept.now name.now ask ≡ None) }
    ensures fault { IfErr result (λ f. early_fault plan.now kept.now name.now ask ≡ Some f) }
{
    if kept.power == Power::Unloaded {
        return Err(HostFault::NotLoaded);
    }
    let Some(place) = stream_place(plan, name) else {
        return Err(HostFault::NoSuch(name.copied()));
    };
    let found = kept.streams.items()[place].found;
    let caps = &plan.streams.items()[place].caps;
    match power_fault(caps, ask, found, kept.power) {
        Some(fault) => Err(fault),
        None => Ok(place),
    }
}
