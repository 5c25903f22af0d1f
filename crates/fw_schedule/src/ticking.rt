// A tick over a registry and the endpoints.
ghost use Rattle.std.specs.Prelude.{◌≡◌, ◌==◌, ◌+◌, ◌-◌, ◌*◌, ◌≤◌, ◌++◌, ◌&&◌, not, map, filter, nat_le, ℕ, true, false, Some, List, [], ◌∷◌, min, take, replicate, length, position};
ghost use Rattle.std.specs.List.{AllByRecursion};
ghost use Rattle.std.specs.Option.{option_map_or};
ghost use Rattle.sof_base.specs.Samples.{width, frames_in, frames_out};
ghost use Rattle.sof_base.specs.Ports.{HasRoom, InputView, OutputView};
ghost use Rattle.sof_io.specs.Takes.{bytes_given, taken as input_taken};
ghost use Rattle.sof_io.specs.Puts.{room_at, with_piece};
ghost use Rattle.stream_law.specs.State.{FwState};
ghost use Rattle.stream_law.specs.Ways.{active, comp_of};
ghost use Rattle.stream_law.specs.Endpoints.{is_input};
ghost use Rattle.stream_law.specs.Moves.{runs, quota, fed_by, looked_at, least as least_of};
ghost use Rattle.stream_law.specs.Move.{next_clock};
ghost use Rattle.stream_law.specs.TickMoves.{Move};
ghost use Rattle.stream_law.specs.TickLaws.{clocked};
ghost use Rattle.fw_heap.specs.declared.run.Home.{Home};
ghost use Rattle.fw_components.specs.Tables.{graph_of, view_by, held_frames, capacity_at};
ghost use Rattle.fw_moves.specs.Moving.{AreAt};
ghost use Rattle.fw_components.specs.Frames.{words_at, channels_at, with_taken, pushed};
ghost use Rattle.fw_components.specs.States.{with_tables, AreOf};
ghost use Rattle.fw_schedule.specs.Ticks.{CanTick, io_of};
ghost use Rattle.fw_schedule.specs.Schedules.{IsScheduleOf, IsStepOf, ArePlaces};
ghost use Rattle.fw_schedule.specs.Outputs.{is_output_kind, least_by};
ghost use Rattle.fw_schedule.specs.Stages.{bare_of, Moves, Grew};

use crate::endpoints::{drain_frames, feed_frames, fill};
use crate::schedules::Schedule;
use crate::scratch::Scratch;
use crate::steps::{Ends, Step};
use crate::units::{chooses, least, reads, writes};
use arrayvec::ArrayVec;
use fw_components::{Registry, moves_are_seen, moves_are_ticks};
use sof_io::{Inputs, Outputs};

/// A tick at this clock: each component that is Active and whose pipeline runs moves its frames once, in order, between buffers
/// and endpoints. Each output has room for 61440 bytes more. This takes no memory.
pub fn tick(registry: &mut Registry, io: &mut Inputs, out: &mut Outputs, clock: u32)
    requires can { CanTick registry.old }
    requires room { HasRoom 61440 out.old }
    ensures moved { (f : FwState) → next_clock f.clock ≡ clock → Move (with_tables registry.old f) (io_of io.old out.old) (with_tables registry.new (clocked f)) (io_of io.new out.new) }
    ensures can { CanTick registry.new }
    ensures region { (home : Home) → AreOf home registry.old → AreOf home registry.new }
    ensures room { (n : ℕ) → HasRoom (n + 61440) out.old → HasRoom n out.new }
{
    let schedule = Schedule::of(registry);
    let mut scratch = Scratch::new();
    tick_by(registry, &schedule, &mut scratch, io, out, clock);
}

/// The same by the registry's schedule, which is still its schedule after that, through this room.
pub fn tick_by(
    registry: &mut Registry,
    schedule: &Schedule,
    scratch: &mut Scratch,
    io: &mut Inputs,
    out: &mut Outputs,
    clock: u32,
)
    requires can { CanTick registry.old }
    requires schedule { IsScheduleOf registry.old schedule.now }
    requires room { HasRoom 61440 out.old }
    ensures moved { (f : FwState) → next_clock f.clock ≡ clock → Move (with_tables registry.old f) (io_of io.old out.old) (with_tables registry.new (clocked f)) (io_of io.new out.new) }
    ensures can { CanTick registry.new }
    ensures schedule { IsScheduleOf registry.new schedule.now }
    ensures region { (home : Home) → AreOf home registry.old → AreOf home registry.new }
    ensures room { (n : ℕ) → HasRoom (n + 61440) out.old → HasRoom n out.new }
{
    // For the proof alone, which takes from these what a registry, inputs and outputs keep.
    let _comps = registry.comps();
    let _inputs = io.len();
    let _outputs = out.len();
    let steps = schedule.steps.as_slice();
    let ends = &schedule.ends;
    for i in 0..steps.len() {
        move_by(registry, io, out, scratch, &steps[i], ends, clock);
    }
}

// The component of a step moves, where it runs.
fn move_by(
    registry: &mut Registry,
    io: &mut Inputs,
    out: &mut Outputs,
    scratch: &mut Scratch,
    step: &Step,
    ends: &Ends,
    clock: u32,
)
    requires can { CanTick registry.old }
    requires step { IsStepOf (view_by registry.old) ends.now.ids.items step.now }
    requires places { ArePlaces (view_by registry.old) ends.now }
    requires room { 61440 ≤ room_at step.now.id out.old }
    ensures bare { bare_of registry.new ≡ bare_of registry.old }
    ensures grew { Grew (step.now.id ∷ []) out.old out.new }
    ensures moved { Moves clock step.now.id registry.old io.old out.old registry.new io.new out.new }
{
    if step.runs(clock) {
        let most = step.quota(clock);
        copy_component(registry, io, out, scratch, step, most, ends);
    }
}

// A component of a kind moves its frames, at most so many as its quota.
fn copy_component(
    registry: &mut Registry,
    io: &mut Inputs,
    out: &mut Outputs,
    scratch: &mut Scratch,
    step: &Step,
    most: u32,
    ends: &Ends,
)
    requires can { CanTick registry.old }
    requires step { IsStepOf (view_by registry.old) ends.now.ids.items step.now }
    requires places { ArePlaces (view_by registry.old) ends.now }
    requires active { active (view_by registry.old) step.now.id ≡ true }
    requires few { most ≤ 1920 }
    requires room { 61440 ≤ room_at step.now.id out.old }
    ensures bare { bare_of registry.new ≡ bare_of registry.old }
    ensures grew { Grew (step.now.id ∷ []) out.old out.new }
    ensures moved { (clock : ℕ) → runs (view_by registry.old) clock step.now.id ≡ true → most ≡ quota (view_by registry.old) clock step.now.id → Moves clock step.now.id registry.old io.old out.old registry.new io.new out.new }
{
    if reads(step.kind) {
        feed(registry, io, scratch, step, most, ends);
    } else if writes(step.kind) {
        drain(registry, out, step, most, ends);
    } else {
        process(registry, step, most, ends);
    }
}

// A source moves frames into the buffer that it feeds.
fn feed(
    registry: &mut Registry,
    io: &mut Inputs,
    scratch: &mut Scratch,
    step: &Step,
    most: u32,
    ends: &Ends,
)
    requires can { CanTick registry.old }
    requires step { IsStepOf (view_by registry.old) ends.now.ids.items step.now }
    requires places { ArePlaces (view_by registry.old) ends.now }
    requires active { active (view_by registry.old) step.now.id ≡ true }
    requires kind { is_input step.now.kind ≡ true }
    ensures bare { bare_of registry.new ≡ bare_of registry.old }
    ensures moved { (clock : ℕ) (outputs : List OutputView) → runs (view_by registry.old) clock step.now.id ≡ true → most ≡ quota (view_by registry.old) clock step.now.id → Moves clock step.now.id registry.old io.old outputs registry.new io.new outputs }
{
    // For the proof alone, which takes from it what a registry keeps.
    let _comps = registry.comps();
    let (fed, to) = step.outlets(ends);
    if let Some(buffer) = fed.first() {
        let at = usize::from(to[0]);
        feed_into(registry, io, scratch, step, most, *buffer, at);
    }
}

// It moves as many frames as the buffer has room for, at most so many.
fn feed_into(
    registry: &mut Registry,
    io: &mut Inputs,
    scratch: &mut Scratch,
    step: &Step,
    most: u32,
    buffer: u32,
    at: usize,
)
    requires place { Some at ≡ position (λ c. c.id == buffer) registry.old.buffers }
    requires channels { (1 ≤ step.now.channels) × (step.now.channels ≤ 8) }
    requires shape { channels_at registry.old buffer ≡ step.now.channels }
    ensures tables { let n = min most (capacity_at registry.old buffer - length (held_frames registry.old buffer)) in
        registry.new ≡ pushed buffer (frames_in step.now.format step.now.channels (bytes_given step.now.id (n * (step.now.channels * width step.now.format)) io.old) 0 n) (words_at registry.new buffer) registry.old }
    ensures inputs { let n = min most (capacity_at registry.old buffer - length (held_frames registry.old buffer)) in
        io.new ≡ input_taken step.now.id (n * (step.now.channels * width step.now.format)) io.old }
{
    let n = most.min(registry.free_at(buffer, at));
    feed_frames(registry, io, scratch, step, buffer, at, n);
}

// A sink moves frames out of its buffer. It is never inlined: within `tick_by` its constants would be loaded again for each step.
#[inline(never)]
fn drain(registry: &mut Registry, out: &mut Outputs, step: &Step, most: u32, ends: &Ends)
    requires can { CanTick registry.old }
    requires step { IsStepOf (view_by registry.old) ends.now.ids.items step.now }
    requires places { ArePlaces (view_by registry.old) ends.now }
    requires active { active (view_by registry.old) step.now.id ≡ true }
    requires kind { is_output_kind step.now.kind ≡ true }
    requires few { most ≤ 1920 }
    requires room { 61440 ≤ room_at step.now.id out.old }
    ensures bare { bare_of registry.new ≡ bare_of registry.old }
    ensures grew { Grew (step.now.id ∷ []) out.old out.new }
    ensures moved { (clock : ℕ) (inputs : List InputView) → runs (view_by registry.old) clock step.now.id ≡ true → most ≡ quota (view_by registry.old) clock step.now.id → Moves clock step.now.id registry.old inputs out.old registry.new inputs out.new }
{
    // For the proof alone, which takes from it what a registry keeps.
    let _comps = registry.comps();
    let (own, from) = step.inlets(ends);
    if let Some(buffer) = own.first() {
        let at = usize::from(from[0]);
        drain_from(registry, out, step, most, *buffer, at);
    }
}

// It writes as many frames as its buffer holds, at most so many, and zeros after them where its kind writes its quota.
fn drain_from(
    registry: &mut Registry,
    out: &mut Outputs,
    step: &Step,
    most: u32,
    buffer: u32,
    at: usize,
)
    requires place { Some at ≡ position (λ c. c.id == buffer) registry.old.buffers }
    requires channels { (1 ≤ step.now.channels) × (step.now.channels ≤ 8) }
    requires shape { channels_at registry.old buffer ≡ step.now.channels }
    requires most { most * (step.now.channels * width step.now.format) ≤ 61440 }
    requires room { most * (step.now.channels * width step.now.format) ≤ room_at step.now.id out.old }
    ensures tables { registry.new ≡ with_taken buffer (min most (length (held_frames registry.old buffer))) registry.old }
    ensures size { let n = min most (length (held_frames registry.old buffer)) in
        length (frames_out step.now.format (take n (held_frames registry.old buffer))) ≡ n * (step.now.channels * width step.now.format) }
    ensures outputs { let n = min most (length (held_frames registry.old buffer)) in
        out.new ≡ with_piece step.now.id (frames_out step.now.format (take n (held_frames registry.old buffer)) ++ replicate ((least_by step.now.kind most - n) * (step.now.channels * width step.now.format)) 0) out.old }
{
    let n = most.min(registry.held_at(buffer, at));
    drain_frames(registry, out, step, buffer, at, n);
    let least = least(step.kind, most);
    let frame = usize::from(step.channels) * step.format.width();
    let zeros = least.saturating_sub(n) as usize * frame;
    fill(out, step.id, zeros);
}

// Any other component moves frames from the buffers that it looks at into those that it feeds.
fn process(registry: &mut Registry, step: &Step, most: u32, ends: &Ends)
    requires can { CanTick registry.old }
    requires step { IsStepOf (view_by registry.old) ends.now.ids.items step.now }
    requires places { ArePlaces (view_by registry.old) ends.now }
    requires active { active (view_by registry.old) step.now.id ≡ true }
    requires kind { (not (is_input step.now.kind) && not (is_output_kind step.now.kind)) ≡ true }
    ensures bare { bare_of registry.new ≡ bare_of registry.old }
    ensures moved { (clock : ℕ) (inputs : List InputView) (outputs : List OutputView) → runs (view_by registry.old) clock step.now.id ≡ true → most ≡ quota (view_by registry.old) clock step.now.id → Moves clock step.now.id registry.old inputs outputs registry.new inputs outputs }
{
    // For the proof alone, which takes from it what a registry keeps.
    let _comps = registry.comps();
    let (fed, to) = step.outlets(ends);
    if fed.is_empty() {
        return;
    }
    let (own, at) = step.inlets(ends);
    if chooses(step.kind) {
        let (looked, from) = holding(registry, own, at);
        pass(
            registry,
            step,
            most,
            looked.as_slice(),
            fed,
            from.as_slice(),
            to,
        );
    } else {
        pass(registry, step, most, own, fed, at, to);
    }
}

// It moves as many frames as each buffer that it looks at holds, and as each that it feeds has room for, at most so many.
fn pass(
    registry: &mut Registry,
    step: &Step,
    most: u32,
    looked: &[u32],
    fed: &[u32],
    from: &[u16],
    to: &[u16],
)
    requires can { CanTick registry.old }
    requires place { Some step.now.place ≡ position (λ c. c.id == step.now.id) registry.old.comps }
    requires from { AreAt registry.old.buffers looked.now from.now }
    requires to { AreAt registry.old.buffers fed.now to.now }
    requires active { active (view_by registry.old) step.now.id ≡ true }
    requires kind { option_map_or (λ x. not (is_input x.kind) && not (is_output_kind x.kind)) (comp_of (graph_of registry.old) step.now.id) false ≡ true }
    requires looked { looked.now ≡ looked_at (view_by registry.old) (λ b. length (held_frames registry.old b)) step.now.id }
    requires fed { fed.now ≡ fed_by (view_by registry.old) step.now.id }
    requires some { 1 ≤ length fed.now }
    ensures bare { bare_of registry.new ≡ bare_of registry.old }
    ensures moved { (clock : ℕ) (inputs : List InputView) (outputs : List OutputView) → runs (view_by registry.old) clock step.now.id ≡ true → most ≡ quota (view_by registry.old) clock step.now.id → Moves clock step.now.id registry.old inputs outputs registry.new inputs outputs }
{
    moves_are_seen();
    moves_are_ticks();
    // For the proof alone, which takes from it what a registry keeps.
    let _comps = registry.comps();
    if looked.is_empty() {
        return;
    }
    if are_single(looked, fed) {
        registry.process_one(step.id, step.place, looked, fed, from, to, most);
        return;
    }
    let bound = least_free(registry, fed, to, most);
    let n = least_held(registry, looked, from, bound);
    registry.process_at(step.id, step.place, looked, fed, from, to, n);
}

// Whether there is one of these, and one of those.
fn are_single(looked: &[u32], fed: &[u32]) -> bool
    ensures { result ≡ (length looked.now == 1 && length fed.now == 1) }
{
    looked.len() == 1 && fed.len() == 1
}

// Of these buffers those that hold a frame, and where they stand.
fn holding(
    registry: &Registry,
    inlets: &[u32],
    places: &[u16],
) -> (ArrayVec<u32, 8>, ArrayVec<u16, 8>)
    requires places { AreAt registry.now.buffers inlets.now places.now }
    requires few { length inlets.now ≤ 8 }
    ensures ids { result.0.items ≡ filter (λ b. nat_le 1 (length (held_frames registry.now b))) inlets.now }
    ensures places { AreAt registry.now.buffers result.0.items result.1.items }
{
    let mut holding: ArrayVec<u32, 8> = ArrayVec::new();
    let mut from: ArrayVec<u16, 8> = ArrayVec::new();
    for i in 0..inlets.len() {
        if 1 <= registry.held_at(inlets[i], usize::from(places[i])) {
            holding.push(inlets[i]);
            from.push(places[i]);
        }
    }
    (holding, from)
}

// The least of a number and of how many more frames each of these buffers has room for.
fn least_free(registry: &Registry, fed: &[u32], to: &[u16], most: u32) -> u32
    requires { AreAt registry.now.buffers fed.now to.now }
    ensures least { result ≡ least_of most (map (λ b. capacity_at registry.now b - length (held_frames registry.now b)) fed.now) }
    ensures fit { AllByRecursion (λ b. result + length (held_frames registry.now b) ≤ capacity_at registry.now b) fed.now }
{
    let mut n = most;
    for i in 0..fed.len() {
        n = n.min(registry.free_at(fed[i], usize::from(to[i])));
    }
    n
}

// The least of a number and of what each of these buffers holds.
fn least_held(registry: &Registry, looked: &[u32], from: &[u16], most: u32) -> u32
    requires { AreAt registry.now.buffers looked.now from.now }
    ensures { result ≡ least_of most (map (λ b. length (held_frames registry.now b)) looked.now) }
{
    let mut n = most;
    for i in 0..looked.len() {
        n = n.min(registry.held_at(looked[i], usize::from(from[i])));
    }
    n
}
