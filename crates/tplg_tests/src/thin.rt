// The thin graph: a host, a buffer of 768 bytes, a DAI, a pipeline of 1000 µs, two routes and a PCM.
use crate::stated::{named, put_pcm, put_route, put_widget, widget, written};
use std::alloc::Global;
use std::test::Fail;
use tplg_build::{SourceWidget, TopologySource, WidgetKind};
use tplg_model::token_number::{BUFFER_SIZE, COMP_FORMAT, SCHED_PERIOD};

/// A buffer of 768 bytes.
pub fn buffer(alloc: Global, name: &[u8]) -> Result<SourceWidget, Fail> {
    Ok(widget(alloc, WidgetKind::Buffer, name, b"")?.with_number(BUFFER_SIZE, 768)?)
}

/// The DAI, of 32 bits.
pub fn dai(alloc: Global) -> Result<SourceWidget, Fail> {
    let format = named(b"s32le")?;
    Ok(widget(alloc, WidgetKind::DaiOut, b"DAI0", b"")?.with_text(COMP_FORMAT, &format)?)
}

/// The pipeline of the DAI, of 1000 µs.
pub fn pipeline(alloc: Global) -> Result<SourceWidget, Fail> {
    let scheduler = widget(alloc, WidgetKind::Scheduler, b"PIPE1", b"DAI0")?;
    Ok(scheduler.with_number(SCHED_PERIOD, 1000)?)
}

fn put_widgets(alloc: Global, source: &mut TopologySource) -> Result<(), Fail> {
    put_widget(source, widget(alloc, WidgetKind::AifIn, b"PCM0P", b"P0")?)?;
    put_widget(source, buffer(alloc, b"B0")?)?;
    put_widget(source, dai(alloc)?)?;
    put_widget(source, pipeline(alloc)?)
}

fn thin_source(alloc: Global) -> Result<TopologySource, Fail> {
    let mut source = TopologySource::new(alloc);
    put_widgets(alloc, &mut source)?;
    put_route(&mut source, b"PCM0P", b"B0")?;
    put_route(&mut source, b"B0", b"DAI0")?;
    put_pcm(&mut source)?;
    Ok(source)
}

/// The file's 2020 bytes.
pub fn thin_graph(alloc: Global) -> Result<Vec<u8>, Fail> {
    written(alloc, &thin_source(alloc)?, Vec::new(alloc))
}
