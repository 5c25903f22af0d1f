// How changes of the tables are seen in the firmware's state.
ghost use Rattle.std.specs.Prelude.{◌≡◌, ℕ, ℤ, List, [], ◌==◌, not, map, filter, true, false, Option, length};
ghost use Rattle.std.specs.List.{AllByRecursion};
ghost use Rattle.std.specs.Option.{option_map_or};
ghost use Rattle.sof_base.specs.declared.format.Params.{Params};
ghost use Rattle.sof_base.specs.Samples.{Frame};
ghost use Rattle.stream_law.specs.declared.stream.Phase.{Phase};
ghost use Rattle.stream_law.specs.Placed.{placed};
ghost use Rattle.stream_law.specs.Joins.{joined_edge};
ghost use Rattle.stream_law.specs.declared.graph.Join.{Join};
ghost use Rattle.stream_law.specs.Ways.{comp_of, is_of, channels_of};
ghost use Rattle.stream_law.specs.Made.{frames_made, frames_for, only_slice};
ghost use Rattle.stream_law.specs.Ramps.{ramped_frames, numbers_from, numbers_place, ramped_on};
ghost use Rattle.stream_law.specs.Seen.{is_equaliser, is_volume, blob_in, ramp_length};
ghost use Rattle.stream_law.specs.Equaliser.{passed_frames, numbers_after};
ghost use Rattle.mbox_link.specs.Step.{completed, set_stream};
ghost use Rattle.fw_units.specs.declared.component.Component.{Component};
ghost use Rattle.fw_units.specs.Units.{comp_by, edge_by, pipe_by, ring_by, streams_by, is_buffer, is_pipeline};
ghost use Rattle.fw_components.specs.Tables.{Tables, graph_of, view_by, streams_of, rings_of, histories_of, staging_of};
ghost use Rattle.fw_units.specs.Frames.{begun_at, staged_in};
ghost use Rattle.fw_components.specs.Frames.{with_frames};
ghost use Rattle.fw_components.specs.Kept.{IsKept};
ghost use Rattle.fw_moves.specs.Processed.{slices_in};
ghost use Rattle.fw_components.specs.Processed.{moves_at, channels_moved, ramp_frames_at, made_at, output_at, eq_numbers_at, numbers_made_at, processed, moved_rings, with_numbers};
ghost use Rattle.fw_units.specs.Changes.{completed_at, set_at, joined_at, with_ended};

/// What is placed in a table is placed in the graph and among the rings.
pub fn additions_are_seen()
    ensures comps { (c : Component) (cs : List Component) → map comp_by (placed (λ x. x.id) c cs) ≡ placed (λ x. x.id) (comp_by c) (map comp_by cs) }
    ensures edges { (c : Component) (cs : List Component) → map edge_by (placed (λ x. x.id) c cs) ≡ placed (λ x. x.buffer) (edge_by c) (map edge_by cs) }
    ensures pipes { (c : Component) (cs : List Component) → map pipe_by (placed (λ x. x.id) c cs) ≡ placed (λ x. x.id) (pipe_by c) (map pipe_by cs) }
    ensures rings { (c : Component) (cs : List Component) → map ring_by (placed (λ x. x.id) c cs) ≡ placed (λ x. x.buffer) (ring_by c) (map ring_by cs) }
{}

/// What goes from a table goes from the graph, the rings and the streams.
pub fn removals_are_seen()
    ensures comps { (id : ℕ) (cs : List Component) → map comp_by (filter (λ x. not (x.id == id)) cs) ≡ filter (λ x. not (x.id == id)) (map comp_by cs) }
    ensures edges { (id : ℕ) (cs : List Component) → map edge_by (filter (λ x. not (x.id == id)) cs) ≡ filter (λ x. not (x.buffer == id)) (map edge_by cs) }
    ensures pipes { (id : ℕ) (cs : List Component) → map pipe_by (filter (λ x. not (x.id == id)) cs) ≡ filter (λ x. not (x.id == id)) (map pipe_by cs) }
    ensures rings { (id : ℕ) (cs : List Component) → map ring_by (filter (λ x. not (x.id == id)) cs) ≡ filter (λ x. not (x.buffer == id)) (map ring_by cs) }
{}

/// What is set at a pipeline is set in the graph.
pub fn completions_are_seen()
    ensures { (id : ℕ) (cs : List Component) → AllByRecursion (λ c. is_pipeline c.unit ≡ true) cs → map pipe_by (map (completed_at id) cs) ≡ map (completed id) (map pipe_by cs) }
{}

/// What is set at a host is set among the streams, and leaves the graph.
pub fn settings_are_seen()
    ensures streams { (host : ℕ) (phase : Phase) (params : Option Params) (cs : List Component) → streams_by (map (set_at host phase params) cs) ≡ map (set_stream host phase params) (streams_by cs) }
    ensures comps { (host : ℕ) (phase : Phase) (params : Option Params) (cs : List Component) → map comp_by (map (set_at host phase params) cs) ≡ map comp_by cs }
{}

/// A join in the table of buffers is one in the graph, and leaves the rings.
pub fn joins_are_seen()
    ensures edges { (j : Join) (cs : List Component) → AllByRecursion (λ c. is_buffer c.unit ≡ true) cs → map edge_by (map (joined_at j) cs) ≡ map (joined_edge j) (map edge_by cs) }
    ensures rings { (j : Join) (cs : List Component) → map ring_by (map (joined_at j) cs) ≡ map ring_by cs }
{}

/// What begins is as it was in the graph and among the streams, and its ring is empty.
pub fn beginnings_are_seen()
    ensures comps { (id channels rate : ℕ) (words : List ℤ) (cs : List Component) → map comp_by (map (begun_at id channels rate words) cs) ≡ map comp_by cs }
    ensures edges { (id channels rate : ℕ) (words : List ℤ) (cs : List Component) → map edge_by (map (begun_at id channels rate words) cs) ≡ map edge_by cs }
    ensures pipes { (id channels rate : ℕ) (words : List ℤ) (cs : List Component) → map pipe_by (map (begun_at id channels rate words) cs) ≡ map pipe_by cs }
    ensures streams { (id channels rate : ℕ) (words : List ℤ) (cs : List Component) → streams_by (map (begun_at id channels rate words) cs) ≡ streams_by cs }
    ensures rings { (id channels rate : ℕ) (words : List ℤ) (cs : List Component) → map ring_by (map (begun_at id channels rate words) cs) ≡ map (with_frames (λ frames. []) id) (map ring_by cs) }
{}

/// A buffer that ends is as it was in the graph, and its ring is empty.
pub fn endings_are_seen()
    ensures edges { (id : ℕ) (cs : List Component) → map edge_by (map (with_ended id) cs) ≡ map edge_by cs }
    ensures rings { (id : ℕ) (cs : List Component) → map ring_by (map (with_ended id) cs) ≡ map (with_frames (λ frames. []) id) (map ring_by cs) }
{}

/// What a component moves is seen in the rings and among the histories alone.
pub fn moves_are_seen()
    ensures graph { (id n : ℕ) (looked fed : List ℕ) (frames : ℕ → List Frame) (words : ℕ → List ℤ) (own : List ℤ) (t : Tables) → graph_of (processed id looked n fed frames words own t) ≡ graph_of t }
    ensures streams { (id n : ℕ) (looked fed : List ℕ) (frames : ℕ → List Frame) (words : ℕ → List ℤ) (own : List ℤ) (t : Tables) → streams_of (processed id looked n fed frames words own t) ≡ streams_of t }
    ensures rings { (id n : ℕ) (looked fed : List ℕ) (frames : ℕ → List Frame) (words : ℕ → List ℤ) (own : List ℤ) (t : Tables) → IsKept t → rings_of (processed id looked n fed frames words own t) ≡ moved_rings looked n fed frames (rings_of t) }
    ensures histories { (id n : ℕ) (looked fed : List ℕ) (frames : ℕ → List Frame) (words : ℕ → List ℤ) (own : List ℤ) (t : Tables) → IsKept t → let u = processed id looked n fed frames words own t in
        histories_of u ≡ map (with_numbers id (eq_numbers_at u id)) (histories_of t) }
    ensures staging { (id n : ℕ) (looked fed : List ℕ) (frames : ℕ → List Frame) (words : ℕ → List ℤ) (own : List ℤ) (t : Tables) → IsKept t → let u = processed id looked n fed frames words own t in
        staged_in u.comps id ≡ staged_in t.comps id → staging_of u ≡ staging_of t }
{}

/// The frames that a component makes are those of a tick, and so is what each of its outputs gets of them, and the numbers of an
/// equaliser or a volume after that, where the streams on whose way it is have its channels and its ramp goes over as many frames as in
/// the view.
pub fn moves_are_ticks()
    ensures frames { (id n : ℕ) (looked : List ℕ) (read : List Frame) (t : Tables) → moves_at t id (length looked) ≡ true → channels_of (view_by t) id ≡ channels_moved t id →
        (is_of (graph_of t) is_volume id ≡ true → ramp_frames_at t id ≡ ramp_length (view_by t) id) →
        frames_made (view_by t) id n read (slices_in t.buffers looked n) (λ blob channels frames. passed_frames blob channels (eq_numbers_at t id) frames)
        (ramped_frames (numbers_from (eq_numbers_at t id)) (ramp_length (view_by t) id) (numbers_place (eq_numbers_at t id))) ≡ made_at t id looked n }
    ensures outputs { (id b : ℕ) (frames : List Frame) (t : Tables) → channels_of (view_by t) id ≡ channels_moved t id → frames_for (view_by t) id b frames ≡ output_at t id b frames }
    ensures numbers { (id n : ℕ) (looked : List ℕ) (t : Tables) → option_map_or (λ x. is_equaliser x.kind) (comp_of (graph_of t) id) false ≡ true → channels_of (view_by t) id ≡ channels_moved t id →
        numbers_after (blob_in (view_by t) id) (channels_of (view_by t) id) (eq_numbers_at t id) (only_slice (slices_in t.buffers looked n)) ≡ numbers_made_at t id looked n }
    ensures places { (id n : ℕ) (looked : List ℕ) (t : Tables) → is_of (graph_of t) is_volume id ≡ true → ramp_frames_at t id ≡ ramp_length (view_by t) id →
        ramped_on (ramp_length (view_by t) id) (eq_numbers_at t id) (length (only_slice (slices_in t.buffers looked n))) ≡ numbers_made_at t id looked n }
{}
