// What a volume, a mixer, a mux, an equaliser and a demux make of the frames of buffers.
ghost use Rattle.std.specs.Prelude.{◌≡◌, ◌+◌, ◌*◌, ◌/◌, ◌%◌, ◌≤◌, ◌++◌, true, map, length, min, filter, slice_get, option_copied, option_and_then, position, Some, ◌==◌};
ghost use Rattle.std.specs.List.{AllByRecursion};
ghost use Rattle.sof_base.specs.FrameLists.{frames_of};
ghost use Rattle.stream_law.specs.Placed.{Ascends};
ghost use Rattle.fw_gain.specs.Kernels.{all_amplified};
ghost use Rattle.fw_gain.specs.RampKernels.{all_ramped};
ghost use Rattle.fw_units.specs.Units.{numbers_by};
ghost use Rattle.fw_units.specs.Frames.{kept_words, staged_by, buffer_frames, channels_in};
ghost use Rattle.fw_moves.specs.Processed.{moves_of, IsLevel, IsInlet, slices_in, chosen_by, done_after, made_numbers, run_by};
ghost use Rattle.fw_moves.specs.Moving.{AreAt, samples_in, IsWhole, frames_now};

use crate::mixing::mix;
use fw_gain::{select, volume, volume_ramp};
use fw_units::{Component, Unit, copy_both};
use sof_base::{Bounded, Sample};
use stream_law::Join;

/// The input of a mux by its choice, in the order in which its inputs were joined.
pub(crate) fn chosen(component: &Component, joins: &[Join]) -> Option<u32>
    ensures { result ≡ chosen_by component.now.unit component.now.id joins.now }
{
    match &component.unit {
        Unit::Mux { choice, .. } => input(joins, component.id, *choice),
        _ => None,
    }
}

/// Makes frames of the first `n` frames of each of these buffers.
pub(crate) fn make(
    component: &mut Component,
    chosen: Option<u32>,
    buffers: &[Component],
    looked: &[u32],
    from: &[u16],
    n: u32,
    samples: &mut [Sample],
)
    requires places { AreAt buffers.now looked.now from.now }
    requires kind { moves_of component.old.unit (length looked.now) ≡ true }
    requires level { IsLevel component.old.unit }
    requires ascends { Ascends (λ c. c.id) buffers.now }
    requires channels { (1 ≤ component.old.channels) × (component.old.channels ≤ 8) }
    requires few { length looked.now ≤ 128 }
    requires inlets { AllByRecursion (IsInlet buffers.now component.old.channels n) looked.now }
    requires samples { length samples.old ≡ n * component.old.channels }
    ensures frames { frames_of component.old.channels n samples.new ≡ frames_now chosen buffers.now looked.now n component.old }
    ensures component { component.new ≡ run_by (kept_words component.new) n component.old }
    ensures numbers { numbers_by component.new.unit component.new.channels ≡ made_numbers component.old.unit component.old.channels (slices_in buffers.now looked.now n) }
    ensures staged { staged_by component.new.unit ≡ staged_by component.old.unit }
{
    match &mut component.unit {
        Unit::Volume {
            gains,
            from: starts,
            done,
            length,
            ..
        } => {
            let ends = gains.items();
            amplify(
                looked[0],
                usize::from(from[0]),
                n,
                buffers,
                component.channels,
                starts,
                ends,
                *done,
                *length,
                samples,
            );
            *done = done_after(*length, *done, n);
        }
        Unit::Mixer { .. } => mix(looked, from, n, buffers, samples),
        Unit::Mux { .. } => match looked_at(looked, chosen) {
            Some(k) => copy(looked[k], usize::from(from[k]), n, buffers, samples),
            None => select(None, samples),
        },
        Unit::Eq { eq, .. } => {
            copy(looked[0], usize::from(from[0]), n, buffers, samples);
            eq.run(samples, component.channels);
        }
        Unit::Demux { .. } => copy(looked[0], usize::from(from[0]), n, buffers, samples),
        _ => (),
    }
}

// The input of a component of this number, from 0 in the order in which its inputs were joined.
fn input(joins: &[Join], id: u32, number: u32) -> Option<u32>
    ensures { result ≡ slice_get (map (λ j. j.source) (filter (λ j. j.sink == id) joins.now)) number }
{
    match join_in(joins, id, number) {
        Some(join) => Some(join.source),
        None => None,
    }
}

// The join of that input.
fn join_in(joins: &[Join], id: u32, number: u32) -> Option<&Join>
    ensures { option_copied result ≡ slice_get (filter (λ j. j.sink == id) joins.now) number }
{
    joins
        .iter()
        .filter(|join| join.sink == id)
        .nth(number as usize)
}

// Which of these the chosen buffer is, where it is looked at.
fn looked_at(looked: &[u32], chosen: Option<u32>) -> Option<usize>
    ensures { result ≡ option_and_then (λ b. position (λ x. x == b) looked.now) chosen }
{
    let inlet = chosen?;
    first_of(looked, inlet)
}

// The first place of an id.
fn first_of(ids: &[u32], id: u32) -> Option<usize>
    ensures { result ≡ position (λ x. x == id) ids.now }
{
    ids.iter().position(|x| *x == id)
}

/// The samples of the first `n` frames of the buffer of this id, which stands at this place, in two parts of whole frames.
pub fn spans<'a>(
    buffers: &'a [Component],
    _inlet: u32,
    at: usize,
    n: u32,
) -> (&'a [Sample], &'a [Sample])
    requires ascends { Ascends (λ c. c.id) buffers.now }
    requires place { Some at ≡ position (λ c. c.id == _inlet) buffers.now }
    requires held { n ≤ length (buffer_frames buffers.now _inlet) }
    ensures samples { result.0.now ++ result.1.now ≡ samples_in buffers.now n _inlet }
    ensures whole { length result.0.now % channels_in buffers.now _inlet ≡ 0 }
    ensures frames { IsWhole buffers.now _inlet }
{
    buffers[at].spans(n)
}

// Writes the samples of the first `n` frames of a buffer.
fn copy(inlet: u32, at: usize, n: u32, buffers: &[Component], samples: &mut [Sample])
    requires ascends { Ascends (λ c. c.id) buffers.now }
    requires place { Some at ≡ position (λ c. c.id == inlet) buffers.now }
    requires held { n ≤ length (buffer_frames buffers.now inlet) }
    requires size { length samples.old ≡ n * channels_in buffers.now inlet }
    ensures samples { samples.new ≡ samples_in buffers.now n inlet }
    ensures frames { IsWhole buffers.now inlet }
{
    let (front, back) = spans(buffers, inlet, at, n);
    copy_both(front, back, samples);
}

/// How many frames of a ramp are done after `n` more: held at its end, where a ramp over no frame ends after one.
pub(crate) fn done_after(count: u32, done: u32, n: u32) -> u32
    ensures { result ≡ done_after count done n }
{
    if n == 0 {
        done
    } else {
        done.saturating_add(n).min(count.max(1))
    }
}

// Writes the samples of the first `n` frames of a buffer, each by the gain of its channel at its frame, of a ramp of which so many are
// done.
fn amplify(
    inlet: u32,
    at: usize,
    n: u32,
    buffers: &[Component],
    channels: u8,
    from: &Bounded<u32, 8>,
    to: &[u32],
    done: u32,
    count: u32,
    samples: &mut [Sample],
)
    requires ascends { Ascends (λ c. c.id) buffers.now }
    requires place { Some at ≡ position (λ c. c.id == inlet) buffers.now }
    requires held { n ≤ length (buffer_frames buffers.now inlet) }
    requires shape { channels_in buffers.now inlet ≡ channels }
    requires channels { (1 ≤ channels) × (channels ≤ 8) }
    requires size { length samples.old ≡ n * channels }
    requires gains { length from.now ≡ length to.now }
    ensures samples { samples.new ≡ all_ramped channels from.now to.now count done (samples_in buffers.now n inlet) }
    ensures frames { IsWhole buffers.now inlet }
{
    // most volumes are past their ramp
    if count <= done {
        amplify_all(inlet, at, n, buffers, channels, to, samples);
    } else {
        let starts = from.items();
        amplify_along(
            inlet, at, n, buffers, channels, starts, to, done, count, samples,
        );
    }
}

// Writes the samples of the first `n` frames of a buffer, each by the gain of its channel.
fn amplify_all(
    inlet: u32,
    at: usize,
    n: u32,
    buffers: &[Component],
    channels: u8,
    gains: &[u32],
    samples: &mut [Sample],
)
    requires ascends { Ascends (λ c. c.id) buffers.now }
    requires place { Some at ≡ position (λ c. c.id == inlet) buffers.now }
    requires held { n ≤ length (buffer_frames buffers.now inlet) }
    requires shape { channels_in buffers.now inlet ≡ channels }
    requires channels { (1 ≤ channels) × (channels ≤ 8) }
    requires size { length samples.old ≡ n * channels }
    ensures samples { samples.new ≡ all_amplified channels gains.now (samples_in buffers.now n inlet) }
    ensures frames { IsWhole buffers.now inlet }
{
    let (front, back) = spans(buffers, inlet, at, n);
    let (near, far) = samples.split_at_mut(front.len());
    volume(front, near, channels, gains);
    if !back.is_empty() {
        volume(back, far, channels, gains);
    }
}

// Writes the samples of the first `n` frames of a buffer by the gains of a ramp that goes on.
#[inline(never)]
fn amplify_along(
    inlet: u32,
    at: usize,
    n: u32,
    buffers: &[Component],
    channels: u8,
    from: &[u32],
    to: &[u32],
    done: u32,
    count: u32,
    samples: &mut [Sample],
)
    requires ascends { Ascends (λ c. c.id) buffers.now }
    requires place { Some at ≡ position (λ c. c.id == inlet) buffers.now }
    requires held { n ≤ length (buffer_frames buffers.now inlet) }
    requires shape { channels_in buffers.now inlet ≡ channels }
    requires channels { (1 ≤ channels) × (channels ≤ 8) }
    requires size { length samples.old ≡ n * channels }
    requires gains { length from.now ≡ length to.now }
    ensures samples { samples.new ≡ all_ramped channels from.now to.now count done (samples_in buffers.now n inlet) }
    ensures frames { IsWhole buffers.now inlet }
{
    let (front, back) = spans(buffers, inlet, at, n);
    let (near, far) = samples.split_at_mut(front.len());
    volume_ramp(front, near, channels, from, to, done, count);
    if !back.is_empty() {
        let later = later_of(front.len(), n, channels, done);
        volume_ramp(back, far, channels, from, to, later, count);
    }
}

// How many frames of a ramp come before what follows so many samples, which are of at most `n` frames: no more than 32 bits tell.
fn later_of(samples: usize, n: u32, channels: u8, done: u32) -> u32
    requires channels { (1 ≤ channels) × (channels ≤ 8) }
    requires few { samples ≤ n * channels }
    ensures { result ≡ min (done + samples / channels) 4294967295 }
{
    let frames = samples / usize::from(channels);
    done.saturating_add(frames as u32)
}
