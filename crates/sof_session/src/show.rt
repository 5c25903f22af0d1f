// The lines that say how everything stands.
ghost use Rattle.std.specs.Prelude.{◌≡◌, ◌==◌, ◌<◌, true, length, find, filter};
ghost use Rattle.std.specs.Option.{option_copied};
ghost use Rattle.stream_law.specs.Ways as ways;
ghost use Rattle.stream_law.specs.Order.{is_among};
ghost use Rattle.tplg_plan.specs.Sound.{IsSound};
ghost use Rattle.host_widgets.specs.Acts.{pipe_by_id};
ghost use Rattle.host_widgets.specs.There.{shown_ids};
ghost use Rattle.sof_session.specs.Show as show;
ghost use Rattle.sof_script.specs.KindWords as kinds;
ghost use Rattle.sof_session.specs.StateLines as state_lines;
ghost use Rattle.sof_session.specs.ShownLines as shown_lines;
ghost use Rattle.sof_session.specs.UpCommands as up_commands;

use crate::words::{say_end, say_found, say_params, write_power};
use host_widgets::{ControlRec, Power, Record, StreamRec, has, widget_index};
use sof_script::{Line, kind_words, say_bytes, say_values};
use stream_law::{Comp, Edge, Pipe};
use tplg_plan::{ControlKind, ControlPlan, Plan, StreamPlan};

// The name of a widget; empty where there is none of this id.
fn name_of(plan: &Plan, id: u32) -> &[u8]
    ensures value { result.now ≡ kinds.name_of plan.now id }
    ensures short { length result.now < 44 }
{
    match plan.names.items().get(id as usize) {
        Some(name) => name.as_bytes(),
        None => &[],
    }
}

fn write_comp(id: u32, comp: &Comp, name: &[u8], line: &mut Line)
    requires { length name.now < 44 }
    ensures said { line.new ≡ state_lines.comp_line id comp.now name.now }
    ensures short { length line.new < 2304 }
{
    line.clear();
    line.say(b"comp ");
    line.say_number(id);
    line.say(b" ");
    line.say(kind_words(comp.kind));
    line.say(b" pipe ");
    line.say_number(comp.pipe);
    line.say(b" ");
    line.say(name);
}

fn write_buffer(id: u32, edge: &Edge, name: &[u8], line: &mut Line)
    requires { length name.now < 44 }
    ensures said { line.new ≡ state_lines.buffer_line id edge.now name.now }
    ensures short { length line.new < 2304 }
{
    line.clear();
    line.say(b"buffer ");
    line.say_number(id);
    line.say(b" size ");
    line.say_number(edge.size);
    line.say(b" pipe ");
    line.say_number(edge.pipe);
    line.say(b" ");
    line.say(name);
}

fn write_pipe(id: u32, pipe: &Pipe, name: &[u8], line: &mut Line)
    requires { length name.now < 44 }
    ensures said { line.new ≡ state_lines.pipe_line id pipe.now name.now }
    ensures short { length line.new < 2304 }
{
    line.clear();
    line.say(b"pipe ");
    line.say_number(id);
    line.say(b" index ");
    line.say_number(pipe.index);
    line.say(b" period ");
    line.say_number(pipe.period);
    line.say(b" ");
    line.say(name);
}

// What an id names.
fn comp_of(plan: &Plan, id: u32) -> Option<&Comp>
    ensures { option_copied result ≡ ways.comp_of plan.now.graph id }
{
    plan.graph.comps.items().iter().find(|comp| comp.id == id)
}

fn edge_of(plan: &Plan, id: u32) -> Option<&Edge>
    ensures { option_copied result ≡ ways.edge_of plan.now.graph id }
{
    plan.graph
        .edges
        .items()
        .iter()
        .find(|edge| edge.buffer == id)
}

fn pipe_of(plan: &Plan, id: u32) -> Option<&Pipe>
    ensures { option_copied result ≡ pipe_by_id plan.now id }
{
    plan.graph.pipes.items().iter().find(|pipe| pipe.id == id)
}

// The line of what an id names: a component, or else a buffer, or else a pipeline.
fn write_widget(plan: &Plan, id: u32, line: &mut Line)
    ensures said { line.new ≡ show.widget_line plan.now id }
    ensures short { length line.new < 2304 }
{
    let name = name_of(plan, id);
    if let Some(comp) = comp_of(plan, id) {
        return write_comp(id, comp, name, line);
    }
    if let Some(edge) = edge_of(plan, id) {
        return write_buffer(id, edge, name, line);
    }
    match pipe_of(plan, id) {
        Some(pipe) => write_pipe(id, pipe, name, line),
        None => line.clear(),
    }
}

fn write_edge(edge: &Edge, line: &mut Line)
    ensures said { line.new ≡ show.edge_line edge.now }
    ensures short { length line.new < 2304 }
{
    line.clear();
    line.say(b"edge ");
    say_end(edge.source, line);
    line.say(b" ");
    line.say_number(edge.buffer);
    line.say(b" ");
    say_end(edge.sink, line);
}

fn write_stream(plan: &Plan, stream: &StreamPlan, kept: &StreamRec, line: &mut Line)
    ensures said { line.new ≡ show.stream_line plan.now (stream.now, kept.now) }
    ensures short { length line.new < 2304 }
{
    line.clear();
    line.say(b"stream ");
    line.say(name_of(plan, stream.host));
    say_found(kept.found, line);
    say_params(kept.params, line);
}

// Writes the k-th of the lines of the streams, and answers whether there is one.
fn write_kth_stream(plan: &Plan, kept: &Record, k: usize, line: &mut Line) -> bool
    ensures line { shown_lines.IsLineAt (state_lines.stream_lines plan.now kept.now) k result line.new }
    ensures short { result ≡ true → length line.new < 2304 }
{
    let Some(stream) = plan.streams.items().get(k) else {
        return false;
    };
    let Some(found) = kept.streams.items().get(k) else {
        return false;
    };
    write_stream(plan, stream, found, line);
    true
}

// A live control with its values or its blob.
fn write_control(plan: &Plan, control: &ControlPlan, held: &ControlRec, line: &mut Line)
    ensures said { line.new ≡ show.control_line plan.now (control.now, held.now) }
    ensures short { length line.new < 2304 }
{
    line.clear();
    line.say(b"control ");
    line.say(name_of(plan, control.comp));
    match control.kind {
        ControlKind::Blob { .. } => {
            line.say(b" bytes ");
            say_bytes(held.blob.items(), line);
        }
        _ => {
            line.say(b" value");
            say_values(held.values.items(), line);
        }
    }
}

// Writes the k-th of the lines of the live controls, and answers whether there is one.
fn write_kth_control(plan: &Plan, kept: &Record, k: usize, line: &mut Line) -> bool
    ensures line { shown_lines.IsLineAt (state_lines.control_lines plan.now kept.now) k result line.new }
    ensures short { result ≡ true → length line.new < 2304 }
{
    let Some(control) = plan.controls.items().get(k) else {
        return false;
    };
    let Some(held) = kept.controls.items().get(k) else {
        return false;
    };
    write_control(plan, control, held, line);
    true
}

// The same of the lines of the streams and then of the live controls.
fn write_kth_state(plan: &Plan, kept: &Record, k: usize, line: &mut Line) -> bool
    ensures line { shown_lines.IsLineAt (state_lines.state_lines plan.now kept.now) k result line.new }
    ensures short { result ≡ true → length line.new < 2304 }
{
    let streams = plan.streams.items().len().min(kept.streams.items().len());
    if k >= streams {
        return write_kth_control(plan, kept, k - streams, line);
    }
    write_kth_stream(plan, kept, k, line)
}

// The same of the lines of the edges and then of these.
fn write_kth_edge(plan: &Plan, kept: &Record, k: usize, line: &mut Line) -> bool
    ensures line { shown_lines.IsLineAt (state_lines.edge_lines plan.now kept.now) k result line.new }
    ensures short { result ≡ true → length line.new < 2304 }
{
    let edges = plan.graph.edges.items();
    if k >= edges.len() {
        return write_kth_state(plan, kept, k - edges.len(), line);
    }
    write_edge(&edges[k], line);
    true
}

// The same of all lines where the plan is loaded.
fn write_kth_loaded(plan: &Plan, kept: &Record, k: u32, line: &mut Line) -> bool
    ensures line { shown_lines.IsLineAt (show.loaded_lines plan.now kept.now) k result line.new }
    ensures short { result ≡ true → length line.new < 2304 }
{
    let widgets = plan.widgets.items().len();
    if k as usize >= widgets {
        return write_kth_edge(plan, kept, k as usize - widgets, line);
    }
    write_widget(plan, k, line);
    true
}

/// Writes the k-th of the lines that say how everything stands, from 0, and answers whether there is one.
pub fn show_line(plan: &Plan, kept: &Record, k: u32, line: &mut Line) -> bool
    ensures line { shown_lines.IsLineAt (show.show_lines plan.now kept.now) k result line.new }
    ensures short { result ≡ true → length line.new < 2304 }
{
    if k == 0 {
        write_power(kept.power, line);
        return true;
    }
    match kept.power {
        Power::Unloaded => false,
        _ => write_kth_loaded(plan, kept, k - 1, line),
    }
}

// ---- what is up

// The k-th of the widgets that are up, by id; or how many there are, where they are fewer.
fn kth_widget(plan: &Plan, up: &[u32], k: usize) -> Result<u32, usize>
    requires { IsSound plan.now }
    ensures { result ≡ shown_lines.kth_in (shown_ids plan.now up.now) k }
{
    let mut count = 0;
    for id in 0..plan.widgets.items().len() {
        let id = id as u32;
        if has(up, widget_index(plan, id)) {
            if count == k {
                return Ok(id);
            }
            count += 1;
        }
    }
    Err(count)
}

// The same of the edges.
fn kth_edge(plan: &Plan, up: &[u32], k: usize) -> Result<Edge, usize>
    ensures { result ≡ shown_lines.kth_in (filter (λ e. is_among up.now e.pipe) plan.now.graph.edges) k }
{
    let mut count = 0;
    for edge in plan.graph.edges.items() {
        if has(up, edge.pipe) {
            if count == k {
                return Ok(*edge);
            }
            count += 1;
        }
    }
    Err(count)
}

// Writes the k-th of the lines of the edges that are up and then of the streams and the controls, and answers whether there is one.
fn write_kth_up_edge(plan: &Plan, kept: &Record, up: &[u32], k: usize, line: &mut Line) -> bool
    ensures line { shown_lines.IsLineAt (up_commands.up_edge_lines plan.now kept.now up.now) k result line.new }
    ensures short { result ≡ true → length line.new < 2304 }
{
    match kth_edge(plan, up, k) {
        Ok(edge) => {
            write_edge(&edge, line);
            true
        }
        Err(count) => write_kth_state(plan, kept, k - count, line),
    }
}

// The same of the lines of the widgets that are up and then of these.
fn write_kth_up(plan: &Plan, kept: &Record, up: &[u32], k: usize, line: &mut Line) -> bool
    requires { IsSound plan.now }
    ensures line { shown_lines.IsLineAt (up_commands.up_lines plan.now kept.now up.now) k result line.new }
    ensures short { result ≡ true → length line.new < 2304 }
{
    match kth_widget(plan, up, k) {
        Ok(id) => {
            write_widget(plan, id, line);
            true
        }
        Err(count) => write_kth_up_edge(plan, kept, up, k - count, line),
    }
}

/// Writes the k-th of the lines that say how everything stands where these indices are up, from 0, and answers whether there is one.
pub fn show_up_line(plan: &Plan, kept: &Record, up: &[u32], k: u32, line: &mut Line) -> bool
    requires { IsSound plan.now }
    ensures line { shown_lines.IsLineAt (up_commands.up_show_lines plan.now kept.now up.now) k result line.new }
    ensures short { result ≡ true → length line.new < 2304 }
{
    if k == 0 {
        write_power(kept.power, line);
        return true;
    }
    match kept.power {
        Power::Unloaded => false,
        _ => write_kth_up(plan, kept, up, (k - 1) as usize, line),
    }
}
