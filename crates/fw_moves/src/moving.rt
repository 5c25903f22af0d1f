// One component moves frames between the buffers of a table.
ghost use Rattle.std.specs.Prelude.{◌≡◌, ◌==◌, ◌+◌, ◌-◌, ◌*◌, ◌/◌, ◌<◌, ◌≤◌, ℕ, Option, Some, true, false, map, min, take, find, position, set, get_or, length, nat_eq, vec_capacity};
ghost use Rattle.std.specs.List.{AllByRecursion, IsDistinct};
ghost use Rattle.stream_law.specs.Placed.{Ascends};
ghost use Rattle.fw_units.specs.declared.component.Component.{Component};
ghost use Rattle.sof_base.specs.FrameLists.{AreFrames, frames_of, samples_of};
ghost use Rattle.fw_gain.specs.Kernels.{all_amplified};
ghost use Rattle.fw_units.specs.Units.{is_past, unit_frames, capacity_by};
ghost use Rattle.fw_units.specs.Frames.{kept_words, words_by, channels_by, channels_in, buffer_frames, capacity_in, taken_at, pushed_by, pushed_at};
ghost use Rattle.fw_moves.specs.Processed.{IsInlet, IsOutlet, chosen_by, drained_at, output_number};
ghost use Rattle.fw_moves.specs.Moving.{AreAt, CanMove, IsMoved, IsWhole, samples_in};

use crate::giving::give;
use crate::making::{chosen, done_after, make};
use crate::workspace::{MOST, Workspace};
use fw_units::{Component, Unit};
use sof_base::Sample;
use stream_law::Join;

/// How many frames may go from one buffer to another, which stand at these places: as many as the first holds and the second has room
/// for, at most so many.
pub fn count_between(
    buffers: &[Component],
    _inlet: u32,
    _outlet: u32,
    from: usize,
    to: usize,
    most: u32,
) -> u32
    requires ascends { Ascends (λ c. c.id) buffers.now }
    requires from { Some from ≡ position (λ c. c.id == _inlet) buffers.now }
    requires to { Some to ≡ position (λ c. c.id == _outlet) buffers.now }
    ensures held { result ≤ length (buffer_frames buffers.now _inlet) }
    ensures room { length (buffer_frames buffers.now _outlet) + result ≤ capacity_in buffers.now _outlet }
    ensures count { result ≡ min (length (buffer_frames buffers.now _inlet)) (min (capacity_in buffers.now _outlet - length (buffer_frames buffers.now _outlet)) most) }
{
    let space = buffers[to].room();
    let there = buffers[from].held();
    there.min(space.min(most))
}

/// Moves `n` frames out of the buffers that it looks at into those that it feeds.
pub fn copy_frames(
    component: &mut Component,
    joins: &[Join],
    buffers: &mut Vec<Component>,
    looked: &[u32],
    fed: &[u32],
    from: &[u16],
    to: &[u16],
    n: u32,
    workspace: &mut Workspace,
)
    requires can { CanMove buffers.old.items looked.now fed.now n component.old }
    requires from { AreAt buffers.old.items looked.now from.now }
    requires to { AreAt buffers.old.items fed.now to.now }
    ensures moved { IsMoved (chosen_by component.old.unit component.old.id joins.now) (output_number joins.now component.old.id) looked.now fed.now n buffers.old.items component.old buffers.new.items component.new }
    ensures capacity { vec_capacity buffers.new ≡ vec_capacity buffers.old }
{
    steps(
        component,
        joins,
        buffers,
        looked,
        fed,
        from,
        to,
        n,
        &mut workspace.samples,
    );
}

/// The same from one buffer into one other, which stand at these places.
pub fn copy_between(
    component: &mut Component,
    joins: &[Join],
    buffers: &mut Vec<Component>,
    looked: &[u32],
    fed: &[u32],
    from: &[u16],
    to: &[u16],
    n: u32,
    workspace: &mut Workspace,
)
    requires can { CanMove buffers.old.items looked.now fed.now n component.old }
    requires one { (length looked.now ≡ 1) × (length fed.now ≡ 1) }
    requires from { AreAt buffers.old.items looked.now from.now }
    requires to { AreAt buffers.old.items fed.now to.now }
    ensures moved { IsMoved (chosen_by component.old.unit component.old.id joins.now) (output_number joins.now component.old.id) looked.now fed.now n buffers.old.items component.old buffers.new.items component.new }
    ensures capacity { vec_capacity buffers.new ≡ vec_capacity buffers.old }
{
    if component.unit.is_past() {
        amplify(
            component,
            buffers,
            looked,
            fed,
            usize::from(from[0]),
            usize::from(to[0]),
            n,
        );
    } else {
        steps(
            component,
            joins,
            buffers,
            looked,
            fed,
            from,
            to,
            n,
            &mut workspace.samples,
        );
    }
}

// Moves frames from ring to ring, each sample times its gain.
fn amplify(
    component: &mut Component,
    buffers: &mut Vec<Component>,
    looked: &[u32],
    fed: &[u32],
    from: usize,
    to: usize,
    n: u32,
)
    requires can { CanMove buffers.old.items looked.now fed.now n component.old }
    requires past { is_past component.old.unit ≡ true }
    requires from { Some from ≡ position (λ c. c.id == get_or looked.now 0 0) buffers.old.items }
    requires to { Some to ≡ position (λ c. c.id == get_or fed.now 0 0) buffers.old.items }
    requires within { (from < length buffers.old.items) × (to < length buffers.old.items) }
    ensures moved { (chosen : Option ℕ) (outputs : ℕ → ℕ) → IsMoved chosen outputs looked.now fed.now n buffers.old.items component.old buffers.new.items component.new }
    ensures capacity { vec_capacity buffers.new ≡ vec_capacity buffers.old }
{
    let inlet = looked[0];
    let outlet = fed[0];
    if let Unit::Volume {
        gains,
        done,
        length,
        ..
    } = &mut component.unit
    {
        amplify_over(
            buffers,
            inlet,
            outlet,
            from,
            to,
            n,
            component.channels,
            gains.items(),
        );
        drain_at(buffers, inlet, from, n);
        *done = done_after(*length, *done, n);
    }
}

// Moves them as many at a time as there is room for.
fn steps(
    component: &mut Component,
    joins: &[Join],
    buffers: &mut Vec<Component>,
    looked: &[u32],
    fed: &[u32],
    from: &[u16],
    to: &[u16],
    n: u32,
    samples: &mut [Sample],
)
    requires can { CanMove buffers.old.items looked.now fed.now n component.old }
    requires from { AreAt buffers.old.items looked.now from.now }
    requires to { AreAt buffers.old.items fed.now to.now }
    requires size { 4096 ≤ length samples.old }
    ensures moved { IsMoved (chosen_by component.old.unit component.old.id joins.now) (output_number joins.now component.old.id) looked.now fed.now n buffers.old.items component.old buffers.new.items component.new }
    ensures capacity { vec_capacity buffers.new ≡ vec_capacity buffers.old }
{
    let most = most_frames(width_of(buffers.as_slice(), fed[0], usize::from(to[0])));
    let mut moved = n.min(most);
    step(
        component, joins, buffers, looked, fed, from, to, moved, samples,
    );
    while moved < n {
        let more = (n - moved).min(most);
        step(
            component, joins, buffers, looked, fed, from, to, more, samples,
        );
        moved += more;
    }
}

// Moves as many frames as there is room for.
fn step(
    component: &mut Component,
    joins: &[Join],
    buffers: &mut Vec<Component>,
    looked: &[u32],
    fed: &[u32],
    from: &[u16],
    to: &[u16],
    n: u32,
    samples: &mut [Sample],
)
    requires can { CanMove buffers.old.items looked.now fed.now n component.old }
    requires from { AreAt buffers.old.items looked.now from.now }
    requires to { AreAt buffers.old.items fed.now to.now }
    requires channels { (1 ≤ component.old.channels) × (component.old.channels ≤ 8) }
    requires size { 2 * (n * component.old.channels) ≤ length samples.old }
    ensures moved { IsMoved (chosen_by component.old.unit component.old.id joins.now) (output_number joins.now component.old.id) looked.now fed.now n buffers.old.items component.old buffers.new.items component.new }
    ensures capacity { vec_capacity buffers.new ≡ vec_capacity buffers.old }
{
    let size = n as usize * usize::from(component.channels);
    let chosen = chosen(component, joins);
    let (made, rest) = samples.split_at_mut(size);
    make(component, chosen, buffers.as_slice(), looked, from, n, made);
    drain_in(buffers, looked, from, n);
    give(
        component,
        joins,
        buffers,
        fed,
        to,
        n,
        made,
        &mut rest[..size],
    );
}

// How many frames of so many samples there is room for: one or two channels, as most streams have, take no division.
fn most_frames(width: usize) -> u32
    requires { (1 ≤ width) × (width ≤ 8) }
    ensures { result ≡ 2048 / width }
{
    match width {
        1 => MOST as u32,
        2 => MOST as u32 / 2,
        _ => (MOST / width) as u32,
    }
}

// How many samples a frame of a buffer has, 1 to 8.
fn width_of(buffers: &[Component], _id: u32, at: usize) -> usize
    requires ascends { Ascends (λ c. c.id) buffers.now }
    requires place { Some at ≡ position (λ c. c.id == _id) buffers.now }
    ensures range { (1 ≤ result) × (result ≤ 8) }
    ensures is { result ≡ channels_in buffers.now _id }
{
    buffers[at].frame_samples()
}

// A buffer has the first `n` frames of another after its own, each sample times the gain of its channel.
fn amplify_over(
    buffers: &mut Vec<Component>,
    _inlet: u32,
    _outlet: u32,
    from: usize,
    to: usize,
    n: u32,
    channels: u8,
    gains: &[u32],
)
    requires ascends { Ascends (λ c. c.id) buffers.old.items }
    requires apart { (_inlet == _outlet) ≡ false }
    requires from { Some from ≡ position (λ c. c.id == _inlet) buffers.old.items }
    requires to { Some to ≡ position (λ c. c.id == _outlet) buffers.old.items }
    requires within { (from < length buffers.old.items) × (to < length buffers.old.items) }
    requires inlet { IsInlet buffers.old.items channels n _inlet }
    requires outlet { IsOutlet buffers.old.items channels n _outlet }
    ensures items { buffers.new.items ≡ map (pushed_at _outlet (frames_of channels n (all_amplified channels gains.now (samples_in buffers.old.items n _inlet))) (words_by (find (λ x. x.id == _outlet) buffers.new.items))) buffers.old.items }
    ensures capacity { vec_capacity buffers.new ≡ vec_capacity buffers.old }
    ensures frames { IsWhole buffers.old.items _inlet }
    ensures some { 1 ≤ channels }
{
    amplify_between(buffers.as_mut_slice(), from, to, n, channels, gains);
}

// The same by their places.
fn amplify_between(
    buffers: &mut [Component],
    from: usize,
    to: usize,
    n: u32,
    channels: u8,
    gains: &[u32],
)
    requires apart { (from == to) ≡ false }
    requires there { (from < length buffers.old) × (to < length buffers.old) }
    requires shape { (d : Component) → channels_by (get_or buffers.old from d).unit ≡ channels }
    requires own { (d : Component) → channels_by (get_or buffers.old to d).unit ≡ channels }
    requires held { (d : Component) → n ≤ length (unit_frames (get_or buffers.old from d).unit) }
    requires room { (d : Component) → length (unit_frames (get_or buffers.old to d).unit) + n ≤ capacity_by (get_or buffers.old to d).unit }
    ensures put { (d : Component) → buffers.new ≡ set buffers.old to (get_or buffers.new to d) }
    ensures pushed { (d : Component) → get_or buffers.new to d ≡ pushed_by (frames_of channels n (all_amplified channels gains.now (samples_of (take n (unit_frames (get_or buffers.old from d).unit))))) (kept_words (get_or buffers.new to d)) (get_or buffers.old to d) }
    ensures frames { (d : Component) → AreFrames (channels_by (get_or buffers.old from d).unit) (unit_frames (get_or buffers.old from d).unit) }
    ensures some { 1 ≤ channels }
{
    if from < to {
        let (near, far) = buffers.split_at_mut(to);
        far[0].amplify_from(&near[from], n, channels, gains);
    } else {
        let (front, back) = buffers.split_at_mut(from);
        front[to].amplify_from(&back[0], n, channels, gains);
    }
}

// The buffer of an id, which stands at this place, loses its first frames.
fn drain_at(buffers: &mut Vec<Component>, _inlet: u32, at: usize, n: u32)
    requires ascends { Ascends (λ c. c.id) buffers.old.items }
    requires place { Some at ≡ position (λ c. c.id == _inlet) buffers.old.items }
    requires within { at < length buffers.old.items }
    requires held { n ≤ length (buffer_frames buffers.old.items _inlet) }
    ensures items { buffers.new.items ≡ map (taken_at _inlet n) buffers.old.items }
    ensures capacity { vec_capacity buffers.new ≡ vec_capacity buffers.old }
{
    buffers[at].take(n);
}

// The buffers that are looked at, each of them named once, lose their first frames.
fn drain_in(components: &mut Vec<Component>, _looked: &[u32], from: &[u16], n: u32)
    requires ascends { Ascends (λ c. c.id) components.old.items }
    requires single { IsDistinct nat_eq _looked.now }
    requires places { AreAt components.old.items _looked.now from.now }
    requires held { AllByRecursion (λ b. n ≤ length (buffer_frames components.old.items b)) _looked.now }
    ensures items { components.new.items ≡ map (drained_at _looked.now n) components.old.items }
    ensures capacity { vec_capacity components.new ≡ vec_capacity components.old }
{
    for at in from {
        components[usize::from(*at)].take(n);
    }
}
