// The buffers that a component feeds get frames.
ghost use Rattle.std.specs.Prelude.{◌≡◌, ◌==◌, ◌*◌, ◌%◌, ◌≤◌, true, Some, map, find, position, get_or, length, nat_eq, nat_le, vec_capacity};
ghost use Rattle.std.specs.List.{list_all, AllByRecursion, IsDistinct};
ghost use Rattle.sof_base.specs.FrameLists.{frames_of};
ghost use Rattle.stream_law.specs.Placed.{Ascends};
ghost use Rattle.fw_units.specs.Frames.{words_by, pushed_at};
ghost use Rattle.fw_moves.specs.Moving.{AreAt, output_samples};
ghost use Rattle.fw_moves.specs.Processed.{IsLevel, IsOutlet, feeds_of, output_number, output_frames, fed_at};

use fw_demux::split;
use fw_units::{Component, Unit};
use sof_base::{Bounded, Sample};
use stream_law::Join;

/// Each of these buffers gets what it is to have of the `n` frames of these samples: of a demux those that its mask keeps, of any
/// other component all.
pub(crate) fn give(
    component: &Component,
    joins: &[Join],
    buffers: &mut Vec<Component>,
    fed: &[u32],
    to: &[u16],
    n: u32,
    made: &[Sample],
    kept: &mut [Sample],
)
    requires level { IsLevel component.now.unit }
    requires feeds { feeds_of component.now.unit (length fed.now) ≡ true }
    requires ascends { Ascends (λ c. c.id) buffers.old.items }
    requires channels { (1 ≤ component.now.channels) × (component.now.channels ≤ 8) }
    requires places { AreAt buffers.old.items fed.now to.now }
    requires single { IsDistinct nat_eq fed.now }
    requires outlets { AllByRecursion (IsOutlet buffers.old.items component.now.channels n) fed.now }
    requires made { length made.now ≡ n * component.now.channels }
    requires kept { length kept.old ≡ n * component.now.channels }
    ensures items { buffers.new.items ≡ map (fed_at fed.now (λ b. output_frames component.now.unit component.now.channels (output_number joins.now component.now.id b) (frames_of component.now.channels n made.now)) (λ b. words_by (find (λ x. x.id == b) buffers.new.items))) buffers.old.items }
    ensures capacity { vec_capacity buffers.new ≡ vec_capacity buffers.old }
{
    if component.unit.splits() {
        give_each(component, joins, buffers, fed, to, n, made, kept);
    } else {
        put(component, buffers, fed[0], usize::from(to[0]), n, made);
    }
}

// The same of a component that may feed several. Apart from the code above, which all others go through.
#[inline(never)]
fn give_each(
    component: &Component,
    joins: &[Join],
    buffers: &mut Vec<Component>,
    fed: &[u32],
    to: &[u16],
    n: u32,
    made: &[Sample],
    kept: &mut [Sample],
)
    requires level { IsLevel component.now.unit }
    requires ascends { Ascends (λ c. c.id) buffers.old.items }
    requires channels { (1 ≤ component.now.channels) × (component.now.channels ≤ 8) }
    requires places { AreAt buffers.old.items fed.now to.now }
    requires single { IsDistinct nat_eq fed.now }
    requires outlets { AllByRecursion (IsOutlet buffers.old.items component.now.channels n) fed.now }
    requires made { length made.now ≡ n * component.now.channels }
    requires kept { length kept.old ≡ n * component.now.channels }
    ensures items { buffers.new.items ≡ map (fed_at fed.now (λ b. output_frames component.now.unit component.now.channels (output_number joins.now component.now.id b) (frames_of component.now.channels n made.now)) (λ b. words_by (find (λ x. x.id == b) buffers.new.items))) buffers.old.items }
    ensures capacity { vec_capacity buffers.new ≡ vec_capacity buffers.old }
{
    for i in 0..fed.len() {
        let at = usize::from(to[i]);
        give_one(component, joins, buffers, fed[i], at, n, made, kept);
    }
}

// The same of one buffer.
fn give_one(
    component: &Component,
    joins: &[Join],
    buffers: &mut Vec<Component>,
    outlet: u32,
    at: usize,
    n: u32,
    made: &[Sample],
    kept: &mut [Sample],
)
    requires level { IsLevel component.now.unit }
    requires ascends { Ascends (λ c. c.id) buffers.old.items }
    requires channels { (1 ≤ component.now.channels) × (component.now.channels ≤ 8) }
    requires place { Some at ≡ position (λ c. c.id == outlet) buffers.old.items }
    requires outlet { IsOutlet buffers.old.items component.now.channels n outlet }
    requires made { length made.now ≡ n * component.now.channels }
    requires kept { length kept.old ≡ n * component.now.channels }
    ensures items { buffers.new.items ≡ map (pushed_at outlet (output_frames component.now.unit component.now.channels (output_number joins.now component.now.id outlet) (frames_of component.now.channels n made.now)) (words_by (find (λ x. x.id == outlet) buffers.new.items))) buffers.old.items }
    ensures capacity { vec_capacity buffers.new ≡ vec_capacity buffers.old }
    ensures size { length kept.new ≡ length kept.old }
{
    let part = part_of(component, joins, outlet, made, kept);
    put(component, buffers, outlet, at, n, part);
}

// A buffer gets all frames of these samples.
fn put(
    _component: &Component,
    buffers: &mut Vec<Component>,
    _outlet: u32,
    at: usize,
    n: u32,
    part: &[Sample],
)
    requires ascends { Ascends (λ c. c.id) buffers.old.items }
    requires channels { (1 ≤ _component.now.channels) × (_component.now.channels ≤ 8) }
    requires place { Some at ≡ position (λ c. c.id == _outlet) buffers.old.items }
    requires outlet { IsOutlet buffers.old.items _component.now.channels n _outlet }
    requires part { length part.now ≡ n * _component.now.channels }
    ensures items { buffers.new.items ≡ map (pushed_at _outlet (frames_of _component.now.channels n part.now) (words_by (find (λ x. x.id == _outlet) buffers.new.items))) buffers.old.items }
    ensures capacity { vec_capacity buffers.new ≡ vec_capacity buffers.old }
{
    buffers[at].push(part);
}

// What a buffer that it feeds gets of these samples of whole frames.
fn part_of<'a>(
    component: &Component,
    joins: &[Join],
    outlet: u32,
    made: &'a [Sample],
    kept: &'a mut [Sample],
) -> &'a [Sample]
    requires level { IsLevel component.now.unit }
    requires channels { (1 ≤ component.now.channels) × (component.now.channels ≤ 8) }
    requires whole { length made.now % component.now.channels ≡ 0 }
    requires kept { length kept.old ≡ length made.now }
    ensures { result.now ≡ output_samples component.now.unit component.now.channels (output_number joins.now component.now.id outlet) made.now }
{
    match &component.unit {
        Unit::Demux { masks, .. } => {
            let number = output_number(joins, component.id, outlet);
            split(made, kept, component.channels, mask_of(masks, number));
            kept
        }
        _ => made,
    }
}

// The number of an output of a component, from 0 in the order in which they were joined; how many there are where it is none.
fn output_number(joins: &[Join], id: u32, outlet: u32) -> usize
    ensures { result ≡ output_number joins.now id outlet }
{
    let mut number = 0;
    for join in joins {
        if join.source == id {
            if join.sink == outlet {
                return number;
            }
            number += 1;
        }
    }
    number
}

// The mask of an output of this number; one that keeps nothing where there is none.
fn mask_of(masks: &Bounded<u32, 8>, number: usize) -> u32
    requires { list_all (λ m. nat_le m 255) masks.now ≡ true }
    ensures mask { result ≡ get_or masks.now number 0 }
    ensures most { result ≤ 255 }
{
    match masks.items().get(number) {
        Some(mask) => *mask,
        None => 0,
    }
}
