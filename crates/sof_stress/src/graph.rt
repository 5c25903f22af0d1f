// The topology of a stress.
ghost use Rattle.std.specs.Prelude.{◌≡◌, ◌+◌, ◌*◌, ◌<◌, ◌≤◌, ◌++◌, ◌∷◌, ℕ, [], true, codes, IfOk, OnOk};
ghost use Rattle.sof_base.specs.Slots.{is_name};
ghost use Rattle.tplg_model.specs.File.{IsTopology};
ghost use Rattle.sof_stress.specs.Draws.{host_name as host_of, numbered_name};
ghost use Rattle.sof_stress.specs.StressGraph as law;
ghost use Rattle.sof_stress.specs.GraphParts as parts;

use crate::names::{digit, host_name, named, volume_name};
use sof_base::{Items, Name44, NoMemory};
use std::alloc::Global;
use tplg_build::{
    BuildFault, PcmLimits, SourceControl, SourcePcm, SourceRoute, SourceWidget, TopologySource,
    WidgetKind, build,
};
use tplg_model::Topology;
use tplg_model::token_number::{BUFFER_SIZE, COMP_FORMAT, PROCESS_TYPE, SCHED_PERIOD};

/// The pipeline of the mixer.
const MIXED: u32 = 100;

fn plain(alloc: Global, kind: WidgetKind, name: Name44, sname: &[u8], index: u32) -> SourceWidget
    requires { is_name sname.now ≡ true }
    ensures { result ≡ law.plain_widget kind name sname.now index }
{
    SourceWidget::new(alloc, kind, name, named(sname), index)
}

#[tactic(auto, unfolding(sof_base::specs::Slots::has_zero))]
fn buffer(alloc: Global, name: Name44, bytes: u32, index: u32) -> Result<SourceWidget, NoMemory>
    ensures { IfOk result (λ w. w ≡ law.buffer name bytes index) }
{
    plain(alloc, WidgetKind::Buffer, name, b"", index).with_number(BUFFER_SIZE, bytes)
}

fn scheduler(
    alloc: Global,
    name: Name44,
    sched: &[u8],
    period: u32,
    index: u32,
) -> Result<SourceWidget, NoMemory>
    requires { is_name sched.now ≡ true }
    ensures { IfOk result (λ w. w ≡ law.scheduler name sched.now period index) }
{
    plain(alloc, WidgetKind::Scheduler, name, sched, index).with_number(SCHED_PERIOD, period)
}

// A volume of two channels, from -64 dB to 0 dB in steps of 2 dB.
#[tactic(auto, unfolding(sof_base::specs::Slots::has_zero))]
fn volume(alloc: Global, name: Name44, index: u32) -> Result<SourceWidget, NoMemory>
    ensures { IfOk result (λ w. w ≡ law.volume name index) }
{
    let control = SourceControl::Volume {
        name: named(b"Master"),
        channels: 2,
        min: 0,
        max: 32,
        tlv_min: -6400,
        tlv_step: 200,
        tlv_mute: 1,
    };
    plain(alloc, WidgetKind::Pga, name, b"", index).with_control(control)
}

// The equaliser, whose first blob is empty.
#[tactic(auto, unfolding(sof_base::specs::Slots::has_zero))]
fn equaliser(alloc: Global) -> Result<SourceWidget, NoMemory>
    ensures { IfOk result (λ w. w ≡ law.equaliser) }
{
    let control = SourceControl::Blob {
        name: named(b"Eq"),
        max: 1024,
        blob: Items::new(alloc),
    };
    plain(alloc, WidgetKind::Effect, named(b"EQ0"), b"", MIXED)
        .with_text(PROCESS_TYPE, &named(b"EQIIR"))?
        .with_control(control)
}

#[tactic(auto, unfolding(sof_base::specs::Slots::has_zero))]
fn dai(alloc: Global) -> Result<SourceWidget, NoMemory>
    ensures { IfOk result (λ w. w ≡ law.dai) }
{
    plain(alloc, WidgetKind::DaiOut, named(b"DAI0"), b"", MIXED).with_text(
        COMP_FORMAT,
        &named(b"s32le"),
    )
}

// The widgets of a stream up to its volume.
#[tactic(auto, using(crate::proofs::NameLaws::two_are_name))]
fn put_up_to_volume(
    alloc: Global,
    i: u32,
    widgets: &mut Items<SourceWidget>,
) -> Result<(), NoMemory>
    requires { i < 4 }
    ensures { OnOk result (widgets.new ≡ widgets.old ++ parts.up_to_volume i) }
{
    let number = digit(i);
    let caps = [b'S', number];
    let host = plain(alloc, WidgetKind::AifIn, host_name(i), &caps, i + 1);
    let before = buffer(alloc, named(&[b'A', number]), 1536, i + 1)?;
    let volume = volume(alloc, volume_name(i), i + 1)?;
    widgets.push(host)?;
    widgets.push(before)?;
    widgets.push(volume)
}

// The pipeline of a stream.
#[tactic(auto, using(crate::proofs::NameLaws::two_are_name, crate::proofs::NameLaws::pipeline_is_name))]
fn pipeline(alloc: Global, i: u32) -> Result<SourceWidget, NoMemory>
    requires { i < 4 }
    ensures { IfOk result (λ w. w ≡ law.scheduler (numbered_name (codes "PIPE") i) (host_of i) (1000 * (i + 1)) (i + 1)) }
{
    let number = digit(i);
    let name = named(&[b'P', b'I', b'P', b'E', number]);
    let host = [b'H', number];
    scheduler(alloc, name, &host, 1000 * (i + 1), i + 1)
}

// Those after it.
#[tactic(auto, using(crate::proofs::NameLaws::two_are_name))]
fn put_behind_volume(
    alloc: Global,
    i: u32,
    widgets: &mut Items<SourceWidget>,
) -> Result<(), NoMemory>
    requires { i < 4 }
    ensures { OnOk result (widgets.new ≡ widgets.old ++ parts.behind_volume i) }
{
    let after = buffer(alloc, named(&[b'C', digit(i)]), 1536, i + 1)?;
    let pipeline = pipeline(alloc, i)?;
    widgets.push(after)?;
    widgets.push(pipeline)
}

// The widgets of a stream.
fn put_stream_widgets(
    alloc: Global,
    i: u32,
    widgets: &mut Items<SourceWidget>,
) -> Result<(), NoMemory>
    requires { i < 4 }
    ensures { OnOk result (widgets.new ≡ widgets.old ++ law.stream_widgets i) }
{
    put_up_to_volume(alloc, i, widgets)?;
    put_behind_volume(alloc, i, widgets)?;
    Ok(())
}

// What the streams are mixed into, up to the equaliser.
#[tactic(auto, unfolding(sof_base::specs::Slots::has_zero))]
fn put_up_to_equaliser(alloc: Global, widgets: &mut Items<SourceWidget>) -> Result<(), NoMemory>
    ensures { OnOk result (widgets.new ≡ widgets.old ++ parts.up_to_equaliser) }
{
    let mixer = plain(alloc, WidgetKind::Mixer, named(b"MIX"), b"", MIXED);
    let buffer = buffer(alloc, named(b"D0"), 768, MIXED)?;
    let equaliser = equaliser(alloc)?;
    widgets.push(mixer)?;
    widgets.push(buffer)?;
    widgets.push(equaliser)
}

// What is after it.
#[tactic(auto, unfolding(sof_base::specs::Slots::has_zero))]
fn put_behind_equaliser(alloc: Global, widgets: &mut Items<SourceWidget>) -> Result<(), NoMemory>
    ensures { OnOk result (widgets.new ≡ widgets.old ++ parts.behind_equaliser) }
{
    let buffer = buffer(alloc, named(b"D1"), 768, MIXED)?;
    let dai = dai(alloc)?;
    let pipeline = scheduler(alloc, named(b"PIPEM"), b"DAI0", 1000, MIXED)?;
    widgets.push(buffer)?;
    widgets.push(dai)?;
    widgets.push(pipeline)
}

// The widgets that the streams are mixed into.
fn put_mixed_widgets(alloc: Global, widgets: &mut Items<SourceWidget>) -> Result<(), NoMemory>
    ensures { OnOk result (widgets.new ≡ widgets.old ++ law.mixed_widgets) }
{
    put_up_to_equaliser(alloc, widgets)?;
    put_behind_equaliser(alloc, widgets)?;
    Ok(())
}

fn route(source: &[u8], sink: &[u8]) -> SourceRoute
    requires source { is_name source.now ≡ true }
    requires sink { is_name sink.now ≡ true }
    ensures { result ≡ parts.source_route source.now sink.now }
{
    SourceRoute {
        source: named(source),
        sink: named(sink),
    }
}

// The routes of a stream, up to the mixer.
#[tactic(auto, using(crate::proofs::NameLaws::two_are_name), unfolding(sof_base::specs::Slots::has_zero))]
fn put_stream_routes(i: u32, routes: &mut Items<SourceRoute>) -> Result<(), NoMemory>
    requires { i < 4 }
    ensures { OnOk result (routes.new ≡ routes.old ++ law.stream_routes i) }
{
    let number = digit(i);
    let host = [b'H', number];
    let before = [b'A', number];
    let volume = [b'V', number];
    let after = [b'C', number];
    routes.push(route(&host, &before))?;
    routes.push(route(&before, &volume))?;
    routes.push(route(&volume, &after))?;
    routes.push(route(&after, b"MIX"))
}

// The routes from the mixer to the DAI.
#[tactic(auto, unfolding(sof_base::specs::Slots::has_zero))]
fn put_mixed_routes(routes: &mut Items<SourceRoute>) -> Result<(), NoMemory>
    ensures { OnOk result (routes.new ≡ routes.old ++ parts.mixed_routes) }
{
    routes.push(route(b"MIX", b"D0"))?;
    routes.push(route(b"D0", b"EQ0"))?;
    routes.push(route(b"EQ0", b"D1"))?;
    routes.push(route(b"D1", b"DAI0"))
}

// What a stream can do.
#[tactic(auto, using(crate::proofs::NameLaws::two_are_name, crate::proofs::NameLaws::pcm_is_name))]
fn stream_pcm(i: u32) -> SourcePcm
    requires { i < 4 }
    ensures { result ≡ law.stream_pcm i }
{
    let number = digit(i);
    let limits = PcmLimits {
        formats: 1092,
        rate_min: 8000,
        rate_max: 192000,
        channels_min: 1,
        channels_max: 8,
    };
    SourcePcm {
        name: named(&[b'P', b'C', b'M', number]),
        id: i,
        limits,
        playback: Some(named(&[b'S', number])),
        capture: None,
    }
}

// What a stress states of its topology.
fn source_of(alloc: Global, streams: u32) -> Result<TopologySource, NoMemory>
    requires { streams ≤ 4 }
    ensures { IfOk result (λ s. s ≡ law.stress_source streams) }
{
    let mut source = TopologySource::new(alloc);
    for i in 0..streams {
        put_stream_widgets(alloc, i, &mut source.widgets)?;
        put_stream_routes(i, &mut source.routes)?;
        source.pcms.push(stream_pcm(i))?;
    }
    put_mixed_widgets(alloc, &mut source.widgets)?;
    put_mixed_routes(&mut source.routes)?;
    Ok(source)
}

/// The topology of a stress over so many streams.
pub fn topology_of(alloc: Global, streams: u32) -> Result<Topology, NoMemory>
    requires { streams ≤ 4 }
    ensures value { IfOk result (λ t. t ≡ law.stress_topology streams) }
    ensures is { IfOk result IsTopology }
{
    let source = source_of(alloc, streams)?;
    match build(alloc, &source) {
        Ok(topology) => Ok(topology),
        Err(BuildFault::OutOfMemory) => Err(NoMemory),
        Err(BuildFault::TooLarge) => unreachable!(),
    }
}
