// All components, buffers and pipelines, and their joins.
ghost use Rattle.std.specs.Prelude.{OnErr, ◌≡◌, ◌+◌, ◌==◌, ◌&&◌, ◌<◌, ◌++◌, ◌∷◌, [], length, position, IfOk, vec_len, vec_capacity, filter, not, OnOk, IfErr, IsErr, ◌↔◌, Some, None, if◌then◌else◌, negsuc, true, false, map, slice_index_or, slice_get};
ghost use Rattle.fw_units.specs.declared.component.Component.{Component};
ghost use Rattle.fw_units.specs.Units.{is_host_unit};
ghost use Rattle.fw_components.specs.Tables.{all_of, held_frames, capacity_at};
ghost use Rattle.std.specs.List.{list_any, AllByRecursion};
ghost use Rattle.fw_components.specs.Values.{values_set, left_with, unit_values_at, answer_told};
ghost use Rattle.fw_components.specs.Kept.{IsStreamOf};
ghost use Rattle.mbox_link.specs.Step.{touches};
ghost use Rattle.fw_units.specs.Changes.{completed_at, with_ended, set_at, IsOfHome, given_all, has_id};
ghost use Rattle.fw_components.specs.Changes.{added, is_idle_phase, is_full, is_there, IsNew, has_new_index, found, IsFoundOf, given_found, tables_without, can_join, tables_with_join};

use crate::tallies::{Tallies, counts, is_counted};
use fw_heap::Region;
use fw_moves::Workspace;
use fw_units::{
    Component, Hints, complete_in, end_in, give_all, join_in, place, place_of, set_stream_in,
    take_at, value_in,
};
use sof_base::{Bounded, Errno, NoMemory, Params};
use std::alloc::Global;
use std::marker::Model;
use stream_law::{Join, Phase};

// How many of each there may be; two joins for each buffer.
const MOST_COMPONENTS: usize = 128;

const MOST_BUFFERS: usize = 128;

const MOST_PIPELINES: usize = 32;

const MOST_JOINS: usize = 256;

/// At most 128 components, 128 buffers and 32 pipelines with their pieces, and the joins of components and buffers, in memory that
/// was reserved for them.
pub struct Registry {
    pub(crate) comps: Vec<Component>,
    pub(crate) buffers: Vec<Component>,
    pub(crate) pipes: Vec<Component>,
    pub(crate) joins: Vec<Join>,
    pub(crate) comp_hints: Hints,
    pub(crate) buffer_hints: Hints,
    pub(crate) tallies: Tallies,
    pub(crate) workspace: Workspace,
}

/// A component that the registry has no room for.
pub struct RegistryFull {
    pub component: Component,
}

impl Model for Registry {
    ghost use Rattle.fw_components.specs.Tables.{Tables};

    ghost Value = { Tables };

    ghost use Rattle.fw_components.specs.Laid.{tables_of, IsRegistryLaid};

    ghost view = { tables_of };

    ghost invariant = { IsRegistryLaid };
}

impl Registry {
    /// An empty registry, with memory for all that it may hold.
    pub fn new(alloc: Global) -> Result<Registry, NoMemory>
        ensures { IfOk result (λ registry. registry ≡ record { comps = []; buffers = []; pipes = []; joins = [] }) }
    {
        let workspace = Workspace::new(alloc)?;
        let Ok(comps) = Vec::with_capacity(alloc, MOST_COMPONENTS) else {
            return Err(NoMemory);
        };
        let Ok(buffers) = Vec::with_capacity(alloc, MOST_BUFFERS) else {
            comps.destroy_empty();
            return Err(NoMemory);
        };
        let Ok(pipes) = Vec::with_capacity(alloc, MOST_PIPELINES) else {
            comps.destroy_empty();
            buffers.destroy_empty();
            return Err(NoMemory);
        };
        let Ok(joins) = Vec::with_capacity(alloc, MOST_JOINS) else {
            comps.destroy_empty();
            buffers.destroy_empty();
            pipes.destroy_empty();
            return Err(NoMemory);
        };
        Ok(Registry {
            comps,
            buffers,
            pipes,
            joins,
            comp_hints: Hints::new(),
            buffer_hints: Hints::new(),
            tallies: Tallies::new(),
            workspace,
        })
    }

    /// How many components, buffers and pipelines there are.
    pub fn len(&self) -> u16
        ensures { result ≡ length (all_of self.now) }
    {
        (self.comps.len() + self.buffers.len() + self.pipes.len()) as u16
    }

    /// The place of the one of this id.
    pub fn find(&self, id: u32) -> Option<u16>
        ensures { result ≡ position (λ c. c.id == id) (all_of self.now) }
    {
        if let Some(at) = self.comp_hints.place_of(self.comps.as_slice(), id) {
            return Some(at as u16);
        }
        if let Some(at) = self.buffer_hints.place_of(self.buffers.as_slice(), id) {
            return Some((self.comps.len() + at) as u16);
        }
        if let Some(at) = place_of(self.pipes.as_slice(), id) {
            return Some((self.comps.len() + self.buffers.len() + at) as u16);
        }
        None
    }

    /// The one at a place.
    pub fn at(&self, k: u16) -> &Component
        requires { k < length (all_of self.now) }
        ensures { (d : Component) → result.now ≡ slice_index_or (all_of self.now) k d }
    {
        let at = k as usize;
        let (comps, buffers) = (self.comps.len(), self.buffers.len());
        if at < comps {
            &self.comps[at]
        } else if at - comps < buffers {
            &self.buffers[at - comps]
        } else {
            &self.pipes[at - comps - buffers]
        }
    }

    /// The join at a place, in the order in which they came; none past the last.
    pub fn join_at(&self, k: u16) -> Option<Join>
        ensures { result ≡ slice_get self.now.joins k }
    {
        self.joins.get(k as usize).copied()
    }

    /// Adds what has a new id, unless there are 128 components, 128 buffers or 32 pipelines already. Then it comes back.
    pub fn add(&mut self, component: Component) -> Result<(), RegistryFull>
        requires id { is_there self.old component.id ≡ false }
        requires unit { IsNew component.unit }
        requires index { has_new_index component self.old ≡ true }
        ensures full { IsErr result ↔ (is_full component.unit self.old ≡ true) }
        ensures ok { OnOk result (self.new ≡ added component self.old) }
        ensures err { IfErr result (λ full. (full.component ≡ component) × (self.new ≡ self.old)) }
    {
        if component.unit.is_buffer() {
            if self.buffers.len() >= MOST_BUFFERS {
                return Err(RegistryFull { component });
            }
            place(&mut self.buffers, component);
            self.buffer_hints.renew(self.buffers.as_slice());
            self.tallies
                .recount(&self.comps, &self.buffers, &self.joins);
            return Ok(());
        }
        if component.unit.is_pipeline() {
            if self.pipes.len() >= MOST_PIPELINES {
                return Err(RegistryFull { component });
            }
            place(&mut self.pipes, component);
            return Ok(());
        }
        if self.comps.len() >= MOST_COMPONENTS {
            return Err(RegistryFull { component });
        }
        place(&mut self.comps, component);
        self.comp_hints.renew(self.comps.as_slice());
        self.tallies
            .recount(&self.comps, &self.buffers, &self.joins);
        Ok(())
    }

    /// Joins a component and a buffer, whose side is not joined yet, last in order. This takes no memory.
    pub fn join(&mut self, source: u32, sink: u32)
        requires { can_join self.old (record { source = source; sink = sink }) ≡ true }
        ensures { self.new ≡ tables_with_join (record { source = source; sink = sink }) self.old }
    {
        let join = Join { source, sink };
        join_in(&mut self.buffers, join);
        put_join(&mut self.joins, join);
        self.tallies
            .recount(&self.comps, &self.buffers, &self.joins);
    }

    /// The pipeline of this id is complete.
    pub fn set_complete(&mut self, id: u32)
        requires { list_any (λ c. c.id == id) self.old.pipes ≡ true }
        ensures { self.new ≡ record { comps = self.old.comps; buffers = self.old.buffers; pipes = map (completed_at id) self.old.pipes; joins = self.old.joins } }
    {
        complete_in(&mut self.pipes, id);
    }

    /// The host of this id has this phase and these parameters: none where it is Idle, and else 1 to 8 channels and a right rate. Streams are
    /// counted anew only where the host's is or was Running or Paused.
    pub fn set_stream(&mut self, host: u32, phase: Phase, params: Option<Params>)
        requires host { list_any (λ c. c.id == host && is_host_unit c.unit) self.old.comps ≡ true }
        requires stream { IsStreamOf (is_idle_phase phase) params }
        ensures { self.new ≡ record { comps = map (set_at host phase params) self.old.comps; buffers = self.old.buffers; pipes = self.old.pipes; joins = self.old.joins } }
    {
        let was_counted = is_counted(self.comps.as_slice(), host);
        set_stream_in(&mut self.comps, host, phase, params);
        if !was_counted && !counts(phase) {
            return;
        }
        self.tallies
            .recount(&self.comps, &self.buffers, &self.joins);
    }

    /// The one of this id is gone, a buffer with its joins, and its piece is given back.
    pub fn remove(&mut self, id: u32, region: &mut Region)
        requires there { is_there self.old id ≡ true }
        requires region { IsFoundOf region.old.home (found self.old id) }
        requires alone { has_id self.old.buffers id ≡ false → list_any (touches id) self.old.joins ≡ false }
        ensures tables { self.new ≡ tables_without id self.old }
        ensures holes { region.new.holes ≡ given_found (found self.old id) region.old.holes }
        ensures same { (region.new.home ≡ region.old.home) × (region.new.size ≡ region.old.size) × (region.new.usable ≡ region.old.usable) }
    {
        if let Some(at) = self.comp_hints.place_of(self.comps.as_slice(), id) {
            let component = take_at(&mut self.comps, at, id);
            self.comp_hints.renew(self.comps.as_slice());
            self.tallies
                .recount(&self.comps, &self.buffers, &self.joins);
            region.give(component.into_piece());
        } else if let Some(at) = self.buffer_hints.place_of(self.buffers.as_slice(), id) {
            let component = take_at(&mut self.buffers, at, id);
            self.buffer_hints.renew(self.buffers.as_slice());
            remove_joins(&mut self.joins, id);
            self.tallies
                .recount(&self.comps, &self.buffers, &self.joins);
            region.give(component.into_piece());
        } else if let Some(at) = place_of(self.pipes.as_slice(), id) {
            let component = take_at(&mut self.pipes, at, id);
            region.give(component.into_piece());
        }
    }

    /// Nothing is there any more, and all pieces are given back.
    pub fn remove_all(&mut self, region: &mut Region)
        requires { AllByRecursion (IsOfHome region.old.home) (all_of self.old) }
        ensures tables { self.new ≡ record { comps = []; buffers = []; pipes = []; joins = [] } }
        ensures holes { region.new.holes ≡ given_all (all_of self.old) region.old.holes }
        ensures same { (region.new.home ≡ region.old.home) × (region.new.size ≡ region.old.size) × (region.new.usable ≡ region.old.usable) }
    {
        give_all(&mut self.comps, region);
        give_all(&mut self.buffers, region);
        give_all(&mut self.pipes, region);
        self.joins.clear();
        self.tallies
            .recount(&self.comps, &self.buffers, &self.joins);
    }

    /// The ring of this buffer is empty.
    pub fn end(&mut self, buffer: u32)
        requires { has_id self.old.buffers buffer ≡ true }
        ensures { self.new ≡ record { comps = self.old.comps; buffers = map (with_ended buffer) self.old.buffers; pipes = self.old.pipes; joins = self.old.joins } }
    {
        end_in(&mut self.buffers, buffer);
    }

    /// How many frames a buffer holds.
    pub fn held(&self, buffer: u32) -> u32
        requires { has_id self.now.buffers buffer ≡ true }
        ensures { result ≡ length (held_frames self.now buffer) }
    {
        let at = self.buffer_hints.place(self.buffers.as_slice(), buffer);
        self.held_at(buffer, at)
    }

    /// How many frames a buffer holds, which stands at `at`.
    pub fn held_at(&self, _buffer: u32, at: usize) -> u32
        requires { Some at ≡ position (λ c. c.id == _buffer) self.now.buffers }
        ensures { result ≡ length (held_frames self.now _buffer) }
    {
        self.buffers[at].held()
    }

    /// How many more frames a buffer has room for.
    pub fn free(&self, buffer: u32) -> u32
        requires { has_id self.now.buffers buffer ≡ true }
        ensures { result + length (held_frames self.now buffer) ≡ capacity_at self.now buffer }
    {
        let at = self.buffer_hints.place(self.buffers.as_slice(), buffer);
        self.free_at(buffer, at)
    }

    /// How many more frames a buffer has room for, which stands at `at`.
    pub fn free_at(&self, _buffer: u32, at: usize) -> u32
        requires { Some at ≡ position (λ c. c.id == _buffer) self.now.buffers }
        ensures { result + length (held_frames self.now _buffer) ≡ capacity_at self.now _buffer }
    {
        self.buffers[at].room()
    }

    /// By command 0 the gains of a volume, each 0 to 16777216 where 65536 is 1, by command 1 the choice of a mux, and by command 2 the
    /// masks of a demux. -19 where the id names nothing, and -22 where it has no values by this command.
    pub fn values(&self, id: u32, command: u32) -> Result<Bounded<u32, 8>, Errno>
        ensures { answer_told result ≡ unit_values_at self.now id command }
    {
        let at = self.comp_place(id)?;
        match self.comps[at].values(command) {
            Some(values) => Ok(values),
            None => Err(Errno::INVALID),
        }
    }

    /// Sets the gains of a volume by command 0, as many as it has and each at most 16777216, the choice of a mux by command 1, and the
    /// masks of a demux by command 2, eight and each at most 255. -19 where the id names nothing, and -22 where it does not take these
    /// values by this command; then nothing changes.
    pub fn set_values(&mut self, id: u32, command: u32, values: &[u32]) -> Result<(), Errno>
        ensures answer { left_with self.new result ≡ values_set self.old id command values.now }
        ensures kept { OnErr result (self.new ≡ self.old) }
    {
        let at = self.comp_place(id)?;
        if !self.comps[at].takes(command, values) {
            return Err(Errno::INVALID);
        }
        value_in(&mut self.comps, id, values);
        Ok(())
    }

    /// The place of a component among those that are neither buffers nor pipelines; -19 where the id names nothing, and -22 where it
    /// names a buffer or a pipeline.
    pub(crate) fn comp_place(&self, id: u32) -> Result<usize, Errno>
        ensures place { IfOk result (λ at. Some at ≡ position (λ c. c.id == id) self.now.comps) }
        ensures there { IfOk result (λ at. is_there self.now id ≡ true) }
        ensures below { IfOk result (λ at. at < length self.now.comps) }
        ensures none { IfErr result (λ e. None ≡ position (λ c. c.id == id) self.now.comps) }
        ensures err { IfErr result (λ e. e.0 ≡ (if is_there self.now id then negsuc 21 else negsuc 18)) }
    {
        if let Some(at) = self.comp_hints.place_of(self.comps.as_slice(), id) {
            return Ok(at);
        }
        if self.find(id).is_none() {
            return Err(Errno::NO_DEVICE);
        }
        Err(Errno::INVALID)
    }

    /// Gives the memory back, once nothing is there.
    pub fn close(self)
        requires { length (all_of self) ≡ 0 }
    {
        let Registry {
            comps,
            buffers,
            pipes,
            joins: _,
            comp_hints: _,
            buffer_hints: _,
            tallies: _,
            workspace: _,
        } = self;
        comps.destroy_empty();
        buffers.destroy_empty();
        pipes.destroy_empty();
    }
}

// Puts a join after the others.
fn put_join(joins: &mut Vec<Join>, join: Join)
    requires room { vec_len joins.old < vec_capacity joins.old }
    ensures items { joins.new.items ≡ joins.old.items ++ join ∷ [] }
    ensures capacity { vec_capacity joins.new ≡ vec_capacity joins.old }
{
    let end = joins.len();
    match joins.insert(end, join) {
        Ok(()) => (),
        Err(_refused) => unreachable!(),
    }
}

// Drops the joins at an id.
fn remove_joins(joins: &mut Vec<Join>, id: u32)
    ensures items { joins.new.items ≡ filter (λ j. not (touches id j)) joins.old.items }
    ensures capacity { vec_capacity joins.new ≡ vec_capacity joins.old }
{
    joins.retain(|join| join.source != id && join.sink != id);
}
