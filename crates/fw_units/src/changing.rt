// Changes of what stands under one id.
ghost use Rattle.std.specs.Prelude.{◌≡◌, ◌==◌, length, get_or, if◌then◌else◌};
ghost use Rattle.sof_base.specs.Ramps.{ramp_gain};
ghost use Rattle.stream_law.specs.Ramps.{last_gains};
ghost use Rattle.fw_units.specs.Values.{valued_at};
ghost use Rattle.fw_units.specs.Changes.{completed_at, with_ended, set_at, joined_at};

use crate::component::{Component, Unit};
use fw_gain::gain_at;
use sof_base::{Bounded, Params};
use stream_law::{Join, Phase};

impl Component {
    /// The buffer's ring is empty if it has this id.
    pub(crate) fn end(&mut self, id: u32)
        ensures { self.new ≡ with_ended id self.old }
    {
        if self.id == id {
            if let Unit::Buffer { ring, .. } = &mut self.unit {
                ring.clear();
            }
        }
    }

    /// The buffer's side that a join is at is joined.
    pub(crate) fn join(&mut self, join: Join)
        ensures { self.new ≡ joined_at join self.old }
    {
        if self.id == join.source {
            if let Unit::Buffer { sink, .. } = &mut self.unit {
                *sink = Some(join.sink);
            }
        } else if self.id == join.sink {
            if let Unit::Buffer { source, .. } = &mut self.unit {
                *source = Some(join.source);
            }
        }
    }

    /// The component has these values if it has this id: a volume these gains, if they are as many, to which its ramp goes from those
    /// at its last frame; a mux this choice; and a demux these masks, if they are eight.
    pub(crate) fn set_values(&mut self, id: u32, values: &[u32])
        ensures { self.new ≡ valued_at id values.now self.old }
    {
        if self.id == id {
            match &mut self.unit {
                Unit::Volume {
                    gains,
                    from,
                    done,
                    length,
                    ..
                } => set_gains(gains, from, done, *length, values),
                Unit::Mux { choice, .. } => {
                    if let [value, ..] = values {
                        *choice = *value;
                    }
                }
                Unit::Demux { masks, .. } => set_masks(masks, values),
                _ => (),
            }
        }
    }

    /// The pipeline is complete if it has this id.
    pub(crate) fn complete(&mut self, id: u32)
        ensures { self.new ≡ completed_at id self.old }
    {
        if self.id == id {
            if let Unit::Pipeline { complete, .. } = &mut self.unit {
                *complete = true;
            }
        }
    }

    /// The host has this phase and these parameters if it has this id.
    pub(crate) fn set_stream(&mut self, id: u32, to: Phase, given: Option<Params>)
        ensures { self.new ≡ set_at id to given self.old }
    {
        if self.id == id {
            if let Unit::Host { phase, params, .. } = &mut self.unit {
                *phase = to;
                *params = given;
            }
        }
    }
}

// Sets gains, if they are as many: a ramp over so many frames goes to them from those at its last frame, and nothing of it is done.
fn set_gains(
    gains: &mut Bounded<u32, 8>,
    from: &mut Bounded<u32, 8>,
    done: &mut u32,
    count: u32,
    values: &[u32],
)
    ensures gains { gains.new ≡ (if length values.now == length gains.old then values.now else gains.old) }
    ensures from { from.new ≡ (if length values.now == length gains.old then last_gains from.old gains.old count done.old else from.old) }
    ensures done { done.new ≡ (if length values.now == length gains.old then 0 else done.old) }
{
    if values.len() == gains.items().len() {
        if let Some(given) = Bounded::new(values) {
            *from = last_gains(from, gains, count, *done);
            *done = 0;
            *gains = given;
        }
    }
}

// Sets masks, if they are eight.
fn set_masks(masks: &mut Bounded<u32, 8>, values: &[u32])
    ensures { masks.new ≡ (if length values.now == 8 then values.now else masks.old) }
{
    if values.len() == 8 {
        if let Some(given) = Bounded::new(values) {
            *masks = given;
        }
    }
}

// The gains at the last of so many frames of a ramp, or those from which it goes where none is done.
fn last_gains(
    from: &Bounded<u32, 8>,
    to: &Bounded<u32, 8>,
    count: u32,
    done: u32,
) -> Bounded<u32, 8>
    ensures { result ≡ last_gains from.now to.now count done }
{
    if done == 0 {
        return from.copied();
    }
    let mut gains = [0; 8];
    let ends = to.items();
    for k in 0..ends.len() {
        gains[k] = gain_of_frame(gain_or_none(from.items(), k), ends[k], count, done - 1);
    }
    match Bounded::new(&gains[..ends.len()]) {
        Some(gains) => gains,
        None => unreachable!(),
    }
}

// The gain of frame j of a ramp over so many frames, and past it.
fn gain_of_frame(from: u32, to: u32, count: u32, j: u32) -> u32
    ensures { result ≡ ramp_gain from to count j }
{
    if j < count {
        gain_at(from, to, count, j)
    } else {
        to
    }
}

// A gain by its number, 0 where there is none.
fn gain_or_none(gains: &[u32], k: usize) -> u32
    ensures { result ≡ get_or gains.now k 0 }
{
    match gains.get(k) {
        Some(gain) => *gain,
        None => 0,
    }
}
