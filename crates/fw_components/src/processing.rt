// A volume, a mixer, a mux, an equaliser or a demux moves frames.
ghost use Rattle.std.specs.Prelude.{◌≡◌, ◌==◌, ◌≤◌, ◌++◌, true, Some, length, position, nat_eq};
ghost use Rattle.std.specs.List.{AllByRecursion, IsDistinct};
ghost use Rattle.stream_law.specs.Placed.{Ascends};
ghost use Rattle.fw_units.specs.Changes.{has_id};
ghost use Rattle.fw_units.specs.Frames.{staged_in};
ghost use Rattle.fw_components.specs.Frames.{words_at};
ghost use Rattle.fw_moves.specs.Moving.{AreAt};
ghost use Rattle.fw_moves.specs.Processed.{IsShaped, IsInlet, IsOutlet};
ghost use Rattle.fw_components.specs.Processed.{moves_at, feeds_at, channels_moved, most_moved, made_at, output_at, eq_numbers_at, numbers_made_at, processed};

use crate::registry::Registry;
use arrayvec::ArrayVec;
use fw_moves::{copy_between, copy_frames, count_between};
use fw_units::{Component, Hints};

impl Registry {
    /// The volume, mixer, mux, equaliser or demux of this id takes `n` frames out of each buffer `looked`, and puts what it makes of
    /// them into those that are `fed`, which have room for them: a demux into each what it keeps for it, any other into the one that
    /// there is. A volume, an equaliser and a demux look at one buffer. All have its channels, and each is named once. This takes no
    /// memory. It does not ask that the buffers are joined to the component. Frames go as 2048 samples hold at a time, in a workspace that
    /// lies in no region.
    /// SOF's terms: `looked` are the source buffers, `fed` the sink buffers.
    pub fn process(&mut self, id: u32, looked: &[u32], fed: &[u32], n: u32)
        requires unit { moves_at self.old id (length looked.now) ≡ true }
        requires single { IsDistinct nat_eq (looked.now ++ fed.now) }
        requires looked { AllByRecursion (IsInlet self.old.buffers (channels_moved self.old id) n) looked.now }
        requires fed { AllByRecursion (IsOutlet self.old.buffers (channels_moved self.old id) n) fed.now }
        requires feeds { feeds_at self.old id (length fed.now) ≡ true }
        ensures tables { self.new ≡ processed id looked.now n fed.now (λ b. output_at self.old id b (made_at self.old id looked.now n)) (words_at self.new) (words_at self.new id) self.old }
        ensures numbers { eq_numbers_at self.new id ≡ numbers_made_at self.old id looked.now n }
        ensures staged { staged_in self.new.comps id ≡ staged_in self.old.comps id }
    {
        match self.comp_hints.place_of(self.comps.as_slice(), id) {
            Some(at) => {
                let from = places_in(&self.buffer_hints, self.buffers.as_slice(), looked);
                let to = places_in(&self.buffer_hints, self.buffers.as_slice(), fed);
                self.process_at(id, at, looked, fed, from.as_slice(), to.as_slice(), n);
            }
            None => unreachable!(),
        }
    }

    /// The same, where the component stands at `at`, the buffers `looked` at `from`, and `fed` at `to`: nothing is looked up.
    pub fn process_at(
        &mut self,
        _id: u32,
        at: usize,
        looked: &[u32],
        fed: &[u32],
        from: &[u16],
        to: &[u16],
        n: u32,
    )
        requires place { Some at ≡ position (λ c. c.id == _id) self.old.comps }
        requires from { AreAt self.old.buffers looked.now from.now }
        requires to { AreAt self.old.buffers fed.now to.now }
        requires unit { moves_at self.old _id (length looked.now) ≡ true }
        requires single { IsDistinct nat_eq (looked.now ++ fed.now) }
        requires looked { AllByRecursion (IsInlet self.old.buffers (channels_moved self.old _id) n) looked.now }
        requires fed { AllByRecursion (IsOutlet self.old.buffers (channels_moved self.old _id) n) fed.now }
        requires feeds { feeds_at self.old _id (length fed.now) ≡ true }
        ensures tables { self.new ≡ processed _id looked.now n fed.now (λ b. output_at self.old _id b (made_at self.old _id looked.now n)) (words_at self.new) (words_at self.new _id) self.old }
        ensures numbers { eq_numbers_at self.new _id ≡ numbers_made_at self.old _id looked.now n }
        ensures staged { staged_in self.new.comps _id ≡ staged_in self.old.comps _id }
    {
        copy_frames(
            &mut self.comps[at],
            self.joins.as_slice(),
            &mut self.buffers,
            looked,
            fed,
            from,
            to,
            n,
            &mut self.workspace,
        );
    }

    /// The same from one buffer into one other, for as many frames as the first holds and the second has room for, at most so many.
    /// A volume past its ramp makes them where they come to lie, without the workspace. This takes no memory.
    pub fn process_one(
        &mut self,
        _id: u32,
        at: usize,
        looked: &[u32],
        fed: &[u32],
        from: &[u16],
        to: &[u16],
        most: u32,
    )
        requires place { Some at ≡ position (λ c. c.id == _id) self.old.comps }
        requires from { AreAt self.old.buffers looked.now from.now }
        requires to { AreAt self.old.buffers fed.now to.now }
        requires one { (length looked.now ≡ 1) × (length fed.now ≡ 1) }
        requires unit { moves_at self.old _id (length looked.now) ≡ true }
        requires single { IsDistinct nat_eq (looked.now ++ fed.now) }
        requires looked { AllByRecursion (IsShaped self.old.buffers (channels_moved self.old _id)) looked.now }
        requires fed { AllByRecursion (IsShaped self.old.buffers (channels_moved self.old _id)) fed.now }
        requires feeds { feeds_at self.old _id (length fed.now) ≡ true }
        ensures tables { let n = most_moved self.old looked.now fed.now most in
            self.new ≡ processed _id looked.now n fed.now (λ b. output_at self.old _id b (made_at self.old _id looked.now n)) (words_at self.new) (words_at self.new _id) self.old }
        ensures numbers { eq_numbers_at self.new _id ≡ numbers_made_at self.old _id looked.now (most_moved self.old looked.now fed.now most) }
        ensures staged { staged_in self.new.comps _id ≡ staged_in self.old.comps _id }
    {
        let buffers = self.buffers.as_slice();
        let first = usize::from(from[0]);
        let last = usize::from(to[0]);
        let n = count_between(buffers, looked[0], fed[0], first, last, most);
        copy_between(
            &mut self.comps[at],
            self.joins.as_slice(),
            &mut self.buffers,
            looked,
            fed,
            from,
            to,
            n,
            &mut self.workspace,
        );
    }
}

/// The places of these buffers.
fn places_in(hints: &Hints, buffers: &[Component], ids: &[u32]) -> ArrayVec<u16, 128>
    requires ascends { Ascends (λ c. c.id) buffers.now }
    requires few { (length ids.now ≤ 128) × (length buffers.now ≤ 128) }
    requires there { AllByRecursion (λ b. has_id buffers.now b ≡ true) ids.now }
    ensures { AreAt buffers.now ids.now result.items }
{
    let mut places: ArrayVec<u16, 128> = ArrayVec::new();
    for i in 0..ids.len() {
        let at = hints.place(buffers, ids[i]);
        let place = at as u16;
        places.push(place);
    }
    places
}
