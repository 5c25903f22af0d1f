// The thin graph with a volume in it: a host, a buffer, a volume of two channels, a buffer, a DAI, a pipeline, four routes and a PCM.
use crate::stated::{named, put_pcm, put_route, put_widget, widget, written};
use crate::thin::{buffer, dai, pipeline};
use std::alloc::Global;
use std::test::Fail;
use tplg_build::{SourceControl, SourceWidget, TopologySource, WidgetKind};

/// The volume, with its control of two channels.
pub fn volume(alloc: Global) -> Result<SourceWidget, Fail> {
    let control = SourceControl::Volume {
        name: named(b"Master")?,
        channels: 2,
        min: 0,
        max: 32,
        tlv_min: -6400,
        tlv_step: 200,
        tlv_mute: 1,
    };
    Ok(widget(alloc, WidgetKind::Pga, b"VOL0", b"")?.with_control(control)?)
}

fn put_widgets(alloc: Global, source: &mut TopologySource) -> Result<(), Fail> {
    put_widget(source, widget(alloc, WidgetKind::AifIn, b"PCM0P", b"P0")?)?;
    put_widget(source, buffer(alloc, b"B0")?)?;
    put_widget(source, volume(alloc)?)?;
    put_widget(source, buffer(alloc, b"B1")?)?;
    put_widget(source, dai(alloc)?)?;
    put_widget(source, pipeline(alloc)?)
}

fn put_routes(source: &mut TopologySource) -> Result<(), Fail> {
    put_route(source, b"PCM0P", b"B0")?;
    put_route(source, b"B0", b"VOL0")?;
    put_route(source, b"VOL0", b"B1")?;
    put_route(source, b"B1", b"DAI0")
}

/// The file's 3000 bytes.
pub fn amplified_graph(alloc: Global) -> Result<Vec<u8>, Fail> {
    let mut source = TopologySource::new(alloc);
    put_widgets(alloc, &mut source)?;
    put_routes(&mut source)?;
    put_pcm(&mut source)?;
    written(alloc, &source, Vec::new(alloc))
}
