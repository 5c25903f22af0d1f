// A topology that was read is written again.
use crate::same::same;
use crate::stated::{put_byte, put_header, topology_of};
use crate::thin::thin_graph;
use std::alloc::Global;
use std::process::Abort;
use std::test::Fail;
use tplg_model::block_type;
use tplg_write::write;

// The bytes that are written of the topology whose file these are, after one byte.
fn written_again(alloc: Global, bytes: &[u8]) -> Result<Vec<u8>, Fail> {
    let topology = topology_of(alloc, bytes).ok_or("it is a file")?;
    let mut out = Vec::from_slice(alloc, &[7])?;
    if write(&topology, &mut out).is_err() {
        return Err("there is memory")?;
    }
    Ok(out)
}

// Of the topology whose file the bytes are, a file is written.
fn is_written(rt: &impl Abort, alloc: Global, bytes: &[u8], file: &[u8]) -> Result<(), Fail> {
    let out = written_again(alloc, bytes)?;
    same(rt, &"its end", &out.len(), &(file.len() + 1));
    same(rt, &1, &out.get(1..), &file.get(0..));
    Ok(())
}

#[test]
fn a_thin_graph_is_written_as_it_was(rt: HostRuntime) -> Result<(), Fail> {
    let file = thin_graph(rt.alloc())?;
    is_written(&rt, rt.alloc(), &file, &file)
}

// A byte after a name's end is dropped, and a size word is put right.
#[test]
fn what_readers_ignore_is_written_plainly(rt: HostRuntime) -> Result<(), Fail> {
    let file = thin_graph(rt.alloc())?;
    let mut changed = thin_graph(rt.alloc())?;
    put_byte(&mut changed, 80, 7)?;
    put_byte(&mut changed, 36, 1)?;
    is_written(&rt, rt.alloc(), &changed, &file)
}

// The thin graph with a block of another type after it.
fn with_kept_block(alloc: Global) -> Result<Vec<u8>, Fail> {
    let mut file = thin_graph(alloc)?;
    put_header(&mut file, block_type::BACKEND_LINK, 1656)?;
    file.extend_from_slice(&[0; 1656])?;
    Ok(file)
}

#[test]
fn a_block_of_another_type_is_kept(rt: HostRuntime) -> Result<(), Fail> {
    let file = with_kept_block(rt.alloc())?;
    is_written(&rt, rt.alloc(), &file, &file)
}
