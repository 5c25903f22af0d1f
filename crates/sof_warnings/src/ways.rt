// Which buffers are on the way of a stream.
use crate::ids::Ids;
use stream_law::{Edge, Graph, Kind};

/// What the ways of all streams over a graph rest on: the components that are a DAI that plays or lead to one, and the echo edges, from
/// what is played to a capture alone, by their buffers.
#[derive(Drop)]
pub struct Ways<'a> {
    graph: &'a Graph,
    playing: Ids,
    echoes: Ids,
}

// Adds the components that edges lead to from those of a set, once along each edge; answers whether there was one.
fn add_after(edges: &[Edge], all: &mut Ids) -> bool {
    let mut grew = false;
    for edge in edges {
        if all.has_end(edge.source) && !all.has_end(edge.sink) {
            all.add_end(edge.sink);
            grew = true;
        }
    }
    grew
}

// The same of the components that edges come from, but for the edges of some buffers.
fn add_before(edges: &[Edge], without: &Ids, all: &mut Ids) -> bool {
    let mut grew = false;
    for edge in edges {
        let leads = all.has_end(edge.sink) && !without.has(edge.buffer);
        if leads && !all.has_end(edge.source) {
            all.add_end(edge.source);
            grew = true;
        }
    }
    grew
}

// The components after some, and these. No walk has more edges than there are.
fn all_after(edges: &[Edge], some: Ids) -> Ids {
    let mut all = some;
    for _ in edges {
        if !add_after(edges, &mut all) {
            return all;
        }
    }
    all
}

// The components before some, and these, by walks without the edges of some buffers.
fn all_before(edges: &[Edge], without: &Ids, some: Ids) -> Ids {
    let mut all = some;
    for _ in edges {
        if !add_before(edges, without, &mut all) {
            return all;
        }
    }
    all
}

fn hosts_that_play(graph: &Graph) -> Ids {
    let mut ids = Ids::none();
    for comp in graph.comps.items() {
        if comp.kind == Kind::HostPlay {
            ids.add(comp.id);
        }
    }
    ids
}

fn dais_that_play(graph: &Graph) -> Ids {
    let mut ids = Ids::none();
    for comp in graph.comps.items() {
        if let Kind::DaiPlay(_) = comp.kind {
            ids.add(comp.id);
        }
    }
    ids
}

// The buffers of the edges that leave what is played and leads to a DAI that plays, for what leads to none.
fn echoes_in(edges: &[Edge], played: &Ids, playing: &Ids) -> Ids {
    let mut echoes = Ids::none();
    for edge in edges {
        let leaves = played.has_end(edge.source) && playing.has_end(edge.source);
        if leaves && !playing.has_end(edge.sink) {
            echoes.add(edge.buffer);
        }
    }
    echoes
}

impl<'a> Ways<'a> {
    pub fn of(graph: &'a Graph) -> Ways<'a> {
        let edges = graph.edges.items();
        let played = all_after(edges, hosts_that_play(graph));
        let playing = all_before(edges, &Ids::none(), dais_that_play(graph));
        let echoes = echoes_in(edges, &played, &playing);
        Ways {
            graph,
            playing,
            echoes,
        }
    }

    // The buffers on the way of the playback of a host: those that are reached from it without an echo edge.
    fn played_by(&self, host: Ids) -> Ids {
        let edges = self.graph.edges.items();
        let reached = all_after(edges, host);
        let mut buffers = Ids::none();
        for edge in edges {
            if reached.has_end(edge.source) && self.playing.has_end(edge.sink) {
                buffers.add(edge.buffer);
            }
        }
        buffers
    }

    // The buffers on the way of the capture of a host: those from which it is reached without an echo edge, and the echo edges into these.
    fn captured_by(&self, host: Ids) -> Ids {
        let edges = self.graph.edges.items();
        let before = all_before(edges, &self.echoes, host);
        let mut buffers = Ids::none();
        for edge in edges {
            if before.has_end(edge.sink) {
                buffers.add(edge.buffer);
            }
        }
        buffers
    }

    /// The buffers on the way of the stream of a host.
    pub fn buffers_of(&self, host: u32, capture: bool) -> Ids {
        let mut ids = Ids::none();
        ids.add(host);
        if capture {
            self.captured_by(ids)
        } else {
            self.played_by(ids)
        }
    }
}
