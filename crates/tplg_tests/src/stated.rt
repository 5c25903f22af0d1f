// Parts of topologies that are built of what a source states.
use sof_base::Name44;
use std::alloc::Global;
use std::test::Fail;
use tplg_build::{
    PcmLimits, SourcePcm, SourceRoute, SourceWidget, TopologySource, WidgetKind, build,
};
use tplg_model::{ABI, HEADER_BYTES, MAGIC, Topology};
use tplg_read::{TplgFault, read};
use tplg_write::write;

pub fn named(text: &[u8]) -> Result<Name44, Fail> {
    match Name44::new(text) {
        Some(name) => Ok(name),
        None => Err("no name")?,
    }
}

/// A widget of pipeline 1.
pub fn widget(
    alloc: Global,
    kind: WidgetKind,
    name: &[u8],
    sname: &[u8],
) -> Result<SourceWidget, Fail> {
    Ok(SourceWidget::new(alloc, kind, named(name)?, named(sname)?, 1))
}

/// States a widget more.
pub fn put_widget(source: &mut TopologySource, widget: SourceWidget) -> Result<(), Fail> {
    source.widgets.push(widget)?;
    Ok(())
}

/// States a route more, from one name to another.
pub fn put_route(source: &mut TopologySource, from: &[u8], to: &[u8]) -> Result<(), Fail> {
    let route = SourceRoute {
        source: named(from)?,
        sink: named(to)?,
    };
    source.routes.push(route)?;
    Ok(())
}

/// States the PCM `Main`, which plays by the caps `P0`.
pub fn put_pcm(source: &mut TopologySource) -> Result<(), Fail> {
    let pcm = SourcePcm {
        name: named(b"Main")?,
        id: 0,
        limits: host_limits(),
        playback: Some(named(b"P0")?),
        capture: None,
    };
    source.pcms.push(pcm)?;
    Ok(())
}

// s16, s24 and s32, 8000 to 192000 frames a second, 1 to 8 samples a frame.
fn host_limits() -> PcmLimits {
    PcmLimits {
        formats: 1092,
        rate_min: 8000,
        rate_max: 192000,
        channels_min: 1,
        channels_max: 8,
    }
}

/// The file of the topology that a source states, after these bytes.
pub fn written(alloc: Global, source: &TopologySource, before: Vec<u8>) -> Result<Vec<u8>, Fail> {
    let topology = build(alloc, source)?;
    let mut out = before;
    write(&topology, &mut out)?;
    Ok(out)
}

/// The header of a block of one record, with so many bytes after it.
pub fn put_header(out: &mut Vec<u8>, kind: u32, bytes: u32) -> Result<(), Fail> {
    for word in [MAGIC, ABI, 0, kind, HEADER_BYTES, 0, bytes, 0, 1] {
        out.extend_from_slice(&word.to_le_bytes())?;
    }
    Ok(())
}

/// Puts a byte at a place, and gives the one that stood there.
pub fn put_byte(bytes: &mut [u8], at: usize, byte: u8) -> Result<u8, Fail> {
    let place = bytes.get_mut(at).ok_or("past the end")?;
    let before = *place;
    *place = byte;
    Ok(before)
}

/// The topology of a file's bytes.
pub fn topology_of(alloc: Global, bytes: &[u8]) -> Option<Topology> {
    match read(alloc, bytes) {
        Ok(topology) => Some(topology),
        Err(_fault) => None,
    }
}

/// The fault of a file's bytes; none where they are a topology's.
pub fn fault_of(alloc: Global, bytes: &[u8]) -> Option<TplgFault> {
    match read(alloc, bytes) {
        Ok(_topology) => None,
        Err(fault) => Some(fault),
    }
}
