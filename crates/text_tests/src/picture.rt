// The picture of a plan with names that Graphviz would read as more than their bytes.
use sof_base::{Format, Items, Name44, NoMemory};
use std::alloc::Global;
use std::test::Fail;
use stream_law::{Comp, Edge, Graph, Kind, Pipe, Setting};
use tplg_model::Topology;
use tplg_picture::picture;
use tplg_plan::{ControlKind, ControlPlan, Plan};

// A component of pipeline 7, without a setting.
fn comp(id: u32, kind: Kind, ramp: u32) -> Comp {
    Comp {
        id,
        kind,
        pipe: 7,
        setting: Setting::Nothing,
        ramp,
    }
}

fn comps(alloc: Global) -> Result<Items<Comp>, NoMemory> {
    let mut comps = Items::new(alloc);
    comps.push(comp(0, Kind::HostPlay, 0))?;
    comps.push(comp(2, Kind::Volume, 250))?;
    comps.push(comp(4, Kind::Demux, 0))?;
    comps.push(comp(6, Kind::DaiPlay(Format::S24), 0))?;
    Ok(comps)
}

fn edges(alloc: Global) -> Result<Items<Edge>, NoMemory> {
    let mut edges = Items::new(alloc);
    for (buffer, size, source, sink) in [(1, 384, 0, 2), (3, 768, 2, 4), (5, 96, 4, 6)] {
        edges.push(Edge {
            buffer,
            pipe: 7,
            size,
            source: Some(source),
            sink: Some(sink),
        })?;
    }
    Ok(edges)
}

fn pipes(alloc: Global) -> Result<Items<Pipe>, NoMemory> {
    let mut pipes = Items::new(alloc);
    pipes.push(Pipe {
        id: 7,
        index: 7,
        sched: 4,
        period: 1000,
        complete: true,
    })?;
    Ok(pipes)
}

fn controls(alloc: Global) -> Result<Items<ControlPlan>, NoMemory> {
    let mut controls = Items::new(alloc);
    controls.push(ControlPlan {
        comp: 2,
        kind: ControlKind::Volume {
            min: 1,
            max: 45,
            channels: 2,
            tlv_min: -4500,
            tlv_step: 100,
            tlv_mute: 0,
        },
    })?;
    controls.push(ControlPlan {
        comp: 4,
        kind: ControlKind::Masks {
            min: 0,
            max: 15,
            channels: 1,
        },
    })?;
    Ok(controls)
}

fn name(bytes: &[u8]) -> Result<Name44, NoMemory> {
    match Name44::new(bytes) {
        Some(name) => Ok(name),
        None => Err(NoMemory),
    }
}

// Names with what Graphviz would read as more than a byte: a quote, a backslash, an entity.
fn names(alloc: Global) -> Result<Items<Name44>, NoMemory> {
    let mut names = Items::new(alloc);
    names.push(name(b"A \"song\"")?)?;
    names.push(name(b"C:\\N")?)?;
    names.push(name(b"V&lt;")?)?;
    names.push(name(b"B1")?)?;
    names.push(name(b"DEMUX0")?)?;
    names.push(name(b"B2")?)?;
    names.push(name(b"DAI0")?)?;
    names.push(name(b" P  7 ")?)?;
    Ok(names)
}

fn song(alloc: Global) -> Result<Plan, NoMemory> {
    Ok(Plan {
        graph: Graph {
            comps: comps(alloc)?,
            edges: edges(alloc)?,
            pipes: pipes(alloc)?,
            joins: Items::new(alloc),
        },
        streams: Items::new(alloc),
        controls: controls(alloc)?,
        names: names(alloc)?,
        widgets: Items::new(alloc),
    })
}

fn drawn(alloc: Global) -> Result<Vec<u8>, NoMemory> {
    let mut text = Vec::new(alloc);
    let plan = song(alloc)?;
    let topology = Topology {
        blocks: Items::new(alloc),
    };
    let lines = picture(alloc, &topology, &plan)?;
    for line in lines.items() {
        text.extend_from_slice(line.items())?;
    }
    Ok(text)
}

// What Graphviz draws with these names.
const DRAWN: &str = "\
digraph topology {
graph [rankdir=LR, fontname=\"sans-serif\"];
node [shape=box, style=\"rounded,filled\", fontname=\"sans-serif\"];
edge [fontname=\"sans-serif\", fontsize=10];
subgraph cluster_7 {
label=\" P  7 \\nindex 7, period 1000 us\";
n0 [label=\"A \\\"song\\\"\\nhost-play\", fillcolor=\"#8dd3c7\"];
n2 [label=\"V&amp;lt;\\nvolume\\nramp 250 ms\\nvalues 1 to 45, channels 2\\n-44 to 0 dB\", fillcolor=\"#b3de69\"];
n4 [label=\"DEMUX0\\ndemux\\nmasks 0 to 15, outputs 1\", fillcolor=\"#d9d9d9\"];
n6 [label=\"DAI0\\ndai-play s24\", fillcolor=\"#fdb462\"];
}
n0 -> n2 [label=\"C:\\\\N\\n384 bytes\"];
n2 -> n4 [label=\"B1\\n768 bytes\"];
n4 -> n6 [label=\"B2\\n96 bytes\"];
}
";

#[test]
fn a_plan_is_drawn(rt: HostRuntime) -> Result<(), Fail> {
    let Ok(text) = drawn(rt.alloc()) else {
        return Err("no picture")?;
    };
    assert_eq!(rt; text.as_slice(), DRAWN.as_bytes());
    Ok(())
}
