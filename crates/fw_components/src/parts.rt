// The parts in which the blob of an equaliser of the registry comes and goes.
ghost use Rattle.std.specs.Prelude.{◌≡◌, ◌==◌, true, Some, None, IfSome, OnErr, OnOk, if◌then◌else◌, map, find, position, vec_capacity};
ghost use Rattle.stream_law.specs.Placed.{Ascends};
ghost use Rattle.mbox_link.specs.Step.{part_by};
ghost use Rattle.fw_units.specs.Units.{kind_by, setting_by};
ghost use Rattle.fw_units.specs.Frames.{kept_words};
ghost use Rattle.fw_components.specs.Kept.{IsStreaming};
ghost use Rattle.fw_components.specs.Values.{left_with};
ghost use Rattle.fw_parts.specs.Staged.{CanBeStaged};
ghost use Rattle.fw_components.specs.Parts.{part_got, part_told, joined_bytes, takes_part, parted_by, words_in, parted_at, part_set, IsParted, IsPartedBy, IsTakenBy};

use crate::registry::Registry;
use fw_parts::{joined, part_in, put};
use fw_units::{Component, Unit};
use sof_base::{Bounded, Errno, Part};

// The part of this number of an equaliser's blob, if there is one.
fn part_of(component: &Component, index: u32) -> Option<Part>
    ensures { result ≡ part_by (kind_by component.now.unit) (setting_by component.now.unit) index }
{
    match &component.unit {
        Unit::Eq { eq, .. } => part_in(eq, index),
        _ => None,
    }
}

// The staged bytes with a part after them, if an equaliser takes it.
fn with_part(component: &Component, part: &Part) -> Option<Bounded<u8, 1024>>
    requires { IsStreaming component.now.unit }
    ensures bytes { result ≡ (if takes_part component.now.id component.now.unit part.now then Some (joined_bytes component.now.id component.now.unit part.now) else None) }
    ensures joined { IfSome result (λ bytes. CanBeStaged part.now bytes) }
{
    match &component.unit {
        Unit::Eq {
            eq,
            next,
            remaining,
        } => joined(eq, *next, *remaining, part),
        _ => None,
    }
}

// A part came, and these are the bytes with it.
fn put_part(component: &mut Component, part: &Part, bytes: &[u8])
    requires taken { takes_part component.old.id component.old.unit part.now ≡ true }
    requires bytes { bytes.now ≡ joined_bytes component.old.id component.old.unit part.now }
    requires joined { CanBeStaged part.now bytes.now }
    ensures component { component.new ≡ parted_by part.now (kept_words component.new) component.old }
    ensures parted { IsParted part.now component.old.id component.old.unit component.new.unit }
{
    if let Unit::Eq {
        eq,
        next,
        remaining,
    } = &mut component.unit
    {
        put(eq, next, remaining, part, bytes);
    }
}

// A part came for the equaliser of this id, which stands at this place, and these are the bytes with it.
fn put_at(components: &mut Vec<Component>, at: usize, id: u32, part: &Part, bytes: &[u8])
    requires place { Some at ≡ position (λ c. c.id == id) components.old.items }
    requires ascends { Ascends (λ c. c.id) components.old.items }
    requires bytes { IsTakenBy part.now bytes.now (find (λ c. c.id == id) components.old.items) }
    requires joined { CanBeStaged part.now bytes.now }
    ensures items { components.new.items ≡ map (parted_at id part.now (words_in components.new.items id)) components.old.items }
    ensures parted { IsPartedBy part.now (find (λ c. c.id == id) components.old.items) (find (λ c. c.id == id) components.new.items) }
    ensures capacity { vec_capacity components.new ≡ vec_capacity components.old }
{
    put_part(&mut components[at], part, bytes);
}

impl Registry {
    /// The part of this number, counted from 0, of the blob in force at an equaliser. -19 where the id names nothing, and -22 where it
    /// names no equaliser or there is no part of this number.
    pub fn part(&self, id: u32, index: u32) -> Result<Part, Errno>
        ensures { part_told result ≡ part_got self.now id index }
    {
        let at = self.comp_place(id)?;
        match part_of(&self.comps[at], index) {
            Some(part) => Ok(part),
            None => Err(Errno::INVALID),
        }
    }

    /// Stages a part of an equaliser's blob after those before it; the last one puts the blob in force, and an epoch begins. -19 where
    /// the id names nothing; -22 where it names no equaliser, the part is not the next one, or it is the last and the bytes are no
    /// blob. Then nothing changes.
    pub fn set_part(&mut self, id: u32, part: &Part) -> Result<(), Errno>
        ensures answer { left_with self.new result ≡ part_set self.old id part.now (words_in self.new.comps id) }
        ensures kept { OnErr result (self.new ≡ self.old) }
        ensures parted { OnOk result (IsPartedBy part.now (find (λ c. c.id == id) self.old.comps) (find (λ c. c.id == id) self.new.comps)) }
    {
        let at = self.comp_place(id)?;
        let Some(bytes) = with_part(&self.comps[at], part) else {
            return Err(Errno::INVALID);
        };
        put_at(&mut self.comps, at, id, part, bytes.items());
        Ok(())
    }
}
