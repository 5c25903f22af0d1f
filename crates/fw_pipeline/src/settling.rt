// What becomes Live begins, and rings in which no frame may lie any more are empty.
ghost use Rattle.std.specs.Prelude.{◌≡◌, ◌==◌, ◌&&◌, ◌≤◌, ◌<◌, ◌∷◌, [], ℕ, not, true, false, map, length, slice_index_or};
ghost use Rattle.sof_base.specs.Rates.{is_rate};
ghost use Rattle.stream_law.specs.Ways.{live as is_live};
ghost use Rattle.stream_law.specs.Seen.{flows as may_hold};
ghost use Rattle.fw_units.specs.declared.component.Component.{Component};
ghost use Rattle.fw_units.specs.Units.{source_by, sink_by};
ghost use Rattle.fw_components.specs.Tables.{view_by};
ghost use Rattle.fw_components.specs.Changes.{is_there};
ghost use Rattle.fw_components.specs.Kept.{IsKept};
ghost use Rattle.fw_components.specs.Tables.{ids_of};
ghost use Rattle.fw_places.specs.Walks.{is_marked};
ghost use Rattle.fw_pipeline.specs.Triggers.{IsBegun, BecomeEach, settled_in};
ghost use Rattle.fw_pipeline.specs.Settling.{begins_by, HaveBegun, flows_by, ended_unless};

use fw_components::{Component, Registry};
use fw_places::Places;
use fw_walks::{sink_in, source_in};
use sof_base::Params;

/// What is marked after and was not before begins with the channels and the rate of these parameters.
pub(crate) fn begin_each(
    registry: &mut Registry,
    places: &Places,
    before: &[bool],
    after: &[bool],
    p: Params,
)
    requires ids { places.now.ids ≡ ids_of registry.old }
    requires before { length before.now ≡ 257 }
    requires after { length after.now ≡ 257 }
    requires channels { (1 ≤ p.channels) × (p.channels ≤ 8) }
    requires rate { is_rate p.rate ≡ true }
    ensures comps { BecomeEach (λ c d. IsBegun p.channels p.rate (begins_by places.now.ids before.now after.now c.id) c d) registry.old.comps registry.new.comps }
    ensures buffers { BecomeEach (λ c d. IsBegun p.channels p.rate (begins_by places.now.ids before.now after.now c.id) c d) registry.old.buffers registry.new.buffers }
    ensures pipes { registry.new.pipes ≡ registry.old.pipes }
    ensures joins { registry.new.joins ≡ registry.old.joins }
{
    let _ = registry.comps();
    for id in places.ids() {
        if becomes_live(places, before, after, *id) {
            begin_one(registry, *id, p);
        }
    }
}

// Whether an id is marked after and was not before.
fn becomes_live(places: &Places, before: &[bool], after: &[bool], id: u32) -> bool
    requires before { length before.now ≡ 257 }
    requires after { length after.now ≡ 257 }
    ensures { result ≡ begins_by places.now.ids before.now after.now id }
{
    places.has(after, id) && !places.has(before, id)
}

// The one of an id begins.
fn begin_one(registry: &mut Registry, id: u32, p: Params)
    requires there { is_there registry.old id ≡ true }
    requires channels { (1 ≤ p.channels) × (p.channels ≤ 8) }
    requires rate { is_rate p.rate ≡ true }
    ensures { HaveBegun p.channels p.rate (λ x. x == id) registry.old registry.new }
{
    let _ = registry.comps();
    registry.begin(id, p);
}

/// The rings of buffers are empty that are not marked, or have an end that is not.
pub(crate) fn end_each(registry: &mut Registry, places: &Places, marks: &[bool])
    requires marks { length marks.now ≡ 257 }
    requires live { (x : ℕ) → is_marked places.now.ids marks.now x ≡ is_live (view_by registry.old) x }
    ensures { registry.new ≡ record { comps = registry.old.comps; buffers = map (settled_in (view_by registry.old)) registry.old.buffers; pipes = registry.old.pipes; joins = registry.old.joins } }
{
    for at in 0..registry.buffers().len() {
        end_at(registry, places, marks, at);
    }
}

// The same of the buffer at a place.
fn end_at(registry: &mut Registry, places: &Places, marks: &[bool], at: usize)
    requires marks { length marks.now ≡ 257 }
    requires at { at < length registry.old.buffers }
    ensures { (d : Component) → registry.new ≡ ended_unless (flows_by places.now.ids marks.now (slice_index_or registry.old.buffers at d)) (slice_index_or registry.old.buffers at d).id registry.old }
{
    let buffer = &registry.buffers()[at];
    let id = buffer.id;
    if !flows(places, marks, buffer) {
        registry.end(id);
    }
}

// Whether a buffer and both its ends are marked.
fn flows(places: &Places, marks: &[bool], buffer: &Component) -> bool
    requires { length marks.now ≡ 257 }
    ensures { result ≡ flows_by places.now.ids marks.now buffer.now }
{
    places.has(marks, buffer.id)
        && places.has_end(marks, source_in(&buffer.unit))
        && places.has_end(marks, sink_in(&buffer.unit))
}
