// A source that is written again.
use std::alloc::Global;
use std::test::Fail;
use test_graphs::VOLUME;
use tplg_compile::unruled;
use tplg_graph::plan;
use tplg_source::source;

// The source of the topology that a text states.
fn again(alloc: Global, text: &[u8]) -> Result<Vec<u8>, Fail> {
    if text.len() > 1048576 {
        return Err("a long source")?;
    }
    let Ok(topology) = unruled(alloc, text) else {
        return Err("no source")?;
    };
    let Ok(wanted) = plan(alloc, &topology) else {
        return Err("a broken rule")?;
    };
    match source(alloc, &topology, &wanted) {
        Ok(text) => Ok(text),
        Err(_) => Err("no source again")?,
    }
}

// Where a ramp stands in the source of the volume's graph.
const RAMP_AT: usize = 173;

// The volume's graph with a ramp of a millisecond.
fn fade(alloc: Global) -> Result<Vec<u8>, Fail> {
    let mut text = Vec::from_slice(alloc, VOLUME.get(..RAMP_AT).unwrap_or(&[]))?;
    text.extend_from_slice(b"ramp_ms = 1\n")?;
    text.extend_from_slice(VOLUME.get(RAMP_AT..).unwrap_or(&[]))?;
    Ok(text)
}

#[test]
fn a_source_comes_back(rt: HostRuntime) -> Result<(), Fail> {
    let wanted = fade(rt.alloc())?;
    let text = again(rt.alloc(), wanted.as_slice())?;
    assert_eq!(rt; text.as_slice(), wanted.as_slice());
    Ok(())
}
