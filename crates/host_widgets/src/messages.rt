// What messages say of components, buffers, pipelines and streams.
ghost use Rattle.std.specs.Prelude.{◌≡◌, ◌==◌, find, if◌then◌else◌};
ghost use Rattle.stream_law.specs.Ways.{comp_of, edge_of};
ghost use Rattle.host_widgets.specs.Controls.{control_of};
ghost use Rattle.host_widgets.specs.Acts as acts;

use crate::controls::volume_words;
use ipc3_codec::{CompWords, Message};
use stream_law::{Comp, Edge, Kind};
use tplg_plan::{Plan, WidgetPlan};

/// A stream's direction in messages: 0 for playback, 1 for capture.
pub fn direction(capture: bool) -> u32
    ensures { result ≡ (if capture then 1 else 0) }
{
    if capture { 1 } else { 0 }
}

// The words of a component's kind: 0 is playback and 1 is capture.
fn component_words(plan: &Plan, id: u32, kind: Kind, words: &WidgetPlan) -> CompWords
    ensures { result ≡ acts.component_words kind (control_of plan.now id) words.now }
{
    match kind {
        Kind::HostPlay => CompWords::Host { direction: 0 },
        Kind::HostCapture => CompWords::Host { direction: 1 },
        Kind::DaiPlay(_) => CompWords::Dai {
            direction: 0,
            index: words.dai_index,
        },
        Kind::DaiCapture(_) => CompWords::Dai {
            direction: 1,
            index: words.dai_index,
        },
        Kind::Volume => volume_words(plan, id, words),
        Kind::Mixer => CompWords::Mixer,
        Kind::Mux => CompWords::Mux,
        Kind::Eq => CompWords::Eq,
        Kind::Demux => CompWords::Demux,
    }
}

fn comp_message(plan: &Plan, id: u32, words: &WidgetPlan, comp: &Comp) -> Message
    ensures { result ≡ acts.comp_message id (control_of plan.now id) words.now comp.now }
{
    Message::CompNew {
        id,
        pipe: words.pipe,
        periods_sink: words.periods_sink,
        periods_source: words.periods_source,
        frame_fmt: words.frame_fmt,
        kind: component_words(plan, id, comp.kind, words),
    }
}

fn buffer_message(id: u32, words: &WidgetPlan, edge: &Edge) -> Message
    ensures { result ≡ acts.buffer_message id words.now edge.now }
{
    Message::BufferNew {
        id,
        pipe: words.pipe,
        size: edge.size,
        caps: words.caps,
    }
}

fn pipe_message(id: u32, words: &WidgetPlan, sched: u32, period: u32) -> Message
    ensures { result ≡ acts.pipe_message id words.now sched period }
{
    Message::PipeNew {
        id,
        pipe: words.pipe,
        sched,
        period,
        priority: words.priority,
        mips: words.mips,
        frames: words.frames,
        time_domain: words.time_domain,
    }
}

// The message that makes the component of an id, where it names one.
fn made_component(plan: &Plan, id: u32, words: &WidgetPlan) -> Option<Message>
    ensures { result ≡ acts.made_component plan.now id words.now }
{
    plan.graph
        .comps
        .items()
        .iter()
        .find(|comp| comp.id == id)
        .map(|comp| comp_message(plan, id, words, comp))
}

// The message that makes the buffer of an id, where it names one.
fn made_buffer(plan: &Plan, id: u32, words: &WidgetPlan) -> Option<Message>
    ensures { result ≡ acts.made_buffer plan.now id words.now }
{
    plan.graph
        .edges
        .items()
        .iter()
        .find(|edge| edge.buffer == id)
        .map(|edge| buffer_message(id, words, edge))
}

// The message that makes the pipeline of an id, where it names one.
fn made_pipe(plan: &Plan, id: u32, words: &WidgetPlan) -> Option<Message>
    ensures { result ≡ acts.made_pipe plan.now id words.now }
{
    plan.graph
        .pipes
        .items()
        .iter()
        .find(|pipe| pipe.id == id)
        .map(|pipe| pipe_message(id, words, pipe.sched, pipe.period))
}

/// The message that makes what an id names: a component, or else a buffer, or else a pipeline.
pub fn make_message(plan: &Plan, id: u32, words: &WidgetPlan) -> Message
    ensures { result ≡ acts.make_message plan.now id words.now }
{
    if let Some(message) = made_component(plan, id, words) {
        return message;
    }
    if let Some(message) = made_buffer(plan, id, words) {
        return message;
    }
    match made_pipe(plan, id, words) {
        Some(message) => message,
        None => pipe_message(id, words, 0, 0),
    }
}
