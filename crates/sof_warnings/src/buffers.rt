// Which buffers of a stream hold less than a period of it.
use crate::ids::Ids;
use crate::ways::Ways;
use sof_base::{MIN_RATE, NoMemory, Params, is_rate};
use sof_faults::{Shown, ShownName};
use std::alloc::Global;
use stream_law::{Edge, Graph};
use thiserror::Error;
use tplg_graph::{Plan, StreamPlan};
use tplg_model::Caps;

/// Where something is that a warning is about: in a file, or in a line of one.
#[derive(Clone, Copy, Debug, Error)]
pub enum Place<'a> {
    #[error("{0}")]
    File(ShownName<'a>),
    #[error("{0}:{1}")]
    Line(ShownName<'a>, u32),
}

/// Frames a second, and samples a frame.
#[derive(Clone, Copy, Debug)]
pub struct Shape {
    pub rate: u32,
    pub channels: u32,
}

// A buffer that holds less than a period of a stream.
#[derive(Clone, Copy, Debug, Error)]
#[error("{place}: {buffer} holds {size} bytes, and a period of {stream} takes {takes} at {rate} Hz, {channels} {word}: frames are lost", word = channels_word(*.channels))]
struct SmallBuffer<'a> {
    place: Place<'a>,
    buffer: Shown<'a>,
    size: u32,
    stream: Shown<'a>,
    takes: u64,
    rate: u32,
    channels: u32,
}

// `channels`, of so many.
fn channels_word(channels: u32) -> &'static str {
    if channels == 1 { "channel" } else { "channels" }
}

// The least rate from one on that a stream may have.
fn rate_from(least: u32) -> u32 {
    for more in 0..1000 {
        let rate = least.saturating_add(more);
        if is_rate(rate) {
            return rate;
        }
    }
    least
}

/// The rate and channels of parameters.
pub fn shape_of(params: Params) -> Shape {
    Shape {
        rate: params.rate,
        channels: u32::from(params.channels),
    }
}

/// The least rate and channels of caps that a stream may have.
pub fn least_shape(caps: &Caps) -> Shape {
    Shape {
        rate: rate_from(caps.rate_min.max(MIN_RATE)),
        channels: caps.channels_min.max(1),
    }
}

/// Whether caps have some rate and channels, and these.
pub fn has_shape(caps: &Caps, shape: Shape) -> bool {
    is_rate(shape.rate) && shape.rate <= caps.rate_max && shape.channels <= caps.channels_max.min(8)
}

// The period of the pipeline of an end of an edge, in ms.
fn period_of(graph: &Graph, end: Option<u32>) -> u64 {
    for comp in graph.comps.items() {
        if end != Some(comp.id) {
            continue;
        }
        for pipe in graph.pipes.items() {
            if pipe.index == comp.pipe {
                return u64::from(pipe.period / 1000);
            }
        }
    }
    0
}

// How many bytes the most frames take that an end of an edge moves at once.
fn bytes_taken(graph: &Graph, edge: &Edge, shape: Shape) -> u64 {
    let period = period_of(graph, edge.source).max(period_of(graph, edge.sink));
    let thousandths = period.saturating_mul(u64::from(shape.rate));
    let frames = thousandths.saturating_add(999) / 1000;
    frames
        .saturating_mul(u64::from(shape.channels))
        .saturating_mul(4)
}

// The name of what has an id.
fn name_of(plan: &Plan, id: u32) -> Shown<'_> {
    match plan.names.items().get(id as usize) {
        Some(name) => Shown(name.as_bytes()),
        None => Shown(b""),
    }
}

/// The warnings on buffers, each said once.
#[derive(Drop)]
pub struct Buffers<'a> {
    plan: &'a Plan,
    ways: Ways<'a>,
    told: Ids,
}

impl<'a> Buffers<'a> {
    pub fn of(plan: &'a Plan) -> Buffers<'a> {
        Buffers {
            plan,
            ways: Ways::of(&plan.graph),
            told: Ids::none(),
        }
    }

    // How many bytes a buffer on the way of a stream would have to hold, where it holds fewer and no warning on it was said.
    fn lacking(&self, way: &Ids, edge: &Edge, shape: Shape) -> Option<u64> {
        if !way.has(edge.buffer) || self.told.has(edge.buffer) {
            return None;
        }
        let takes = bytes_taken(&self.plan.graph, edge, shape);
        if u64::from(edge.size) < takes {
            Some(takes)
        } else {
            None
        }
    }

    /// Tells the buffers of a stream that hold less than a period of it.
    pub fn tell(
        &mut self,
        alloc: Global,
        place: Place<'_>,
        stream: &StreamPlan,
        shape: Shape,
        out: &mut Vec<String>,
    ) -> Result<(), NoMemory> {
        let way = self.ways.buffers_of(stream.host, stream.capture);
        for edge in self.plan.graph.edges.items() {
            let Some(takes) = self.lacking(&way, edge, shape) else {
                continue;
            };
            self.told.add(edge.buffer);
            let warning = SmallBuffer {
                place,
                buffer: name_of(self.plan, edge.buffer),
                size: edge.size,
                stream: name_of(self.plan, stream.host),
                takes,
                rate: shape.rate,
                channels: shape.channels,
            };
            out.push(format!(in alloc; "{warning}")?)?;
        }
        Ok(())
    }
}
