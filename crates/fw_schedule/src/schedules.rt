// What a tick works out from a registry before anything moves. Tallies say what is Live and Active, and the buffers that a component waits
// for give the order: time grows as components times buffers, and no memory is taken. The inlets of all steps and the buffers that
// they feed stand in one list, with their places: a buffer comes from one component and goes to one, so that it stands there twice at most.
ghost use Rattle.std.specs.Prelude.{◌≡◌, ◌+◌, ◌*◌, ◌/◌, ◌%◌, ◌<◌, ◌≤◌, ◌++◌, length, slice_index};
ghost use Rattle.std.specs.Option.{option_map_or};
ghost use Rattle.stream_law.specs.Ways.{components};
ghost use Rattle.fw_components.specs.Tables.{graph_of, view_by};
ghost use Rattle.fw_schedule.specs.Schedules.{IsScheduleOf, IsStepOf, ArePlaces, step_edges};

use crate::ends::{add_inlets, add_outlets};
use crate::ordering::order;
use crate::steps::{Ends, Step};
use crate::units::{chooses, format_in, period_in};
use arrayvec::ArrayVec;
use fw_components::Registry;
use fw_walks::{active, kind_of};
use sof_base::Params;

/// A step for each component of a registry, in the order in which they move, and ids and places of the buffers that they take frames
/// from and that they feed. A tick goes by it, and looks up no component and no buffer. It takes no memory.
#[derive(Drop)]
pub struct Schedule {
    pub(crate) steps: ArrayVec<Step, 128>,
    pub(crate) ends: Ends,
}

impl Schedule {
    /// That of a registry.
    pub fn of(registry: &Registry) -> Schedule
        ensures { IsScheduleOf registry.now result }
    {
        let order = order(registry);
        let places = order.as_slice();
        // For the proof alone, which takes from it what a registry keeps.
        let _buffers = registry.buffers();
        let mut steps: ArrayVec<Step, 128> = ArrayVec::new();
        let mut ends = Ends::new();
        for i in 0..places.len() {
            let step = step_at(registry, usize::from(places[i]), &mut ends);
            steps.push(step);
        }
        Schedule { steps, ends }
    }
}

// The step of the component at a place, whose inlets and then the buffers that it feeds come after the ids that are there.
fn step_at(registry: &Registry, at: usize, ends: &mut Ends) -> Step
    requires there { at < length registry.now.comps }
    requires places { ArePlaces (view_by registry.now) ends.old }
    requires room { length ends.old.ids.items + length (step_edges (view_by registry.now) (slice_index (components (graph_of registry.now)) at)) ≤ 256 }
    ensures id { result.id ≡ slice_index (components (graph_of registry.now)) at }
    ensures ends { ends.new.ids.items ≡ ends.old.ids.items ++ step_edges (view_by registry.now) result.id }
    ensures places { ArePlaces (view_by registry.now) ends.new }
    ensures step { IsStepOf (view_by registry.now) ends.new.ids.items result }
{
    let comps = registry.comps();
    let comp = &comps[at];
    let kind = kind_of(&comp.unit);
    let first = ends.ids.len();
    add_inlets(registry, comp.id, chooses(kind), ends);
    let past = ends.ids.len();
    add_outlets(registry, comp.id, ends);
    let params = registry.live_params(comp.id);
    let micros = period_in(registry.pipes(), comp.pipe);
    let period = micros / 1000;
    let rate = rate_in(params);
    let frames = frames_of_period(period, rate);
    Step {
        id: comp.id,
        place: at,
        kind,
        format: format_in(&comp.unit),
        active: active(registry, comp.id),
        channels: channels_in(params),
        period,
        rate,
        whole: frames.0,
        over: frames.1,
        first,
        past,
        end: ends.ids.len(),
    }
}

// How many frames so many ticks have, and what is over, in thousandths of one.
fn frames_of_period(period: u32, rate: u32) -> (u64, u32)
    ensures whole { result.0 ≡ period * rate / 1000 }
    ensures over { result.1 ≡ period * rate % 1000 }
{
    let all = u64::from(period) * u64::from(rate);
    (all / 1000, (all % 1000) as u32)
}

// How many channels frames have; 0 without parameters.
fn channels_in(params: Option<Params>) -> u8
    ensures { result ≡ option_map_or (λ p. p.channels) params 0 }
{
    match params {
        Some(params) => params.channels,
        None => 0,
    }
}

// Frames a second; 0 without parameters.
fn rate_in(params: Option<Params>) -> u32
    ensures { result ≡ option_map_or (λ p. p.rate) params 0 }
{
    match params {
        Some(params) => params.rate,
        None => 0,
    }
}
