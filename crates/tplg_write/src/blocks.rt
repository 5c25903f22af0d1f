// Blocks: a header of nine words and a payload.
ghost use Rattle.std.specs.Prelude.{◌≡◌, ◌<◌, ◌^◌, OnOk, [], ◌∷◌, length};
ghost use Rattle.sof_base.specs.Slots.{Word};
ghost use Rattle.tplg_model.specs.Arrays.{Each};
ghost use Rattle.tplg_model.specs.Spelling.{AreRecords, IsBlock, body_cells, block_cells, items_cells, block_type, count_of};
ghost use Rattle.tplg_model.specs.Storable.{IsStorable};
ghost use Rattle.tplg_write.specs.Sinks.{with_fields, with_cells};

use crate::items::put_items;
use crate::records::put_fixed;
use crate::sink::Sink;
use sof_base::NoMemory;
use tplg_model::block_type::{DAPM_GRAPH, DAPM_WIDGET, MANIFEST, PCM};
use tplg_model::{ABI, Block, Body, HEADER_BYTES, MAGIC};

// A block's payload.
fn put_body(body: &Body, sink: &mut Sink) -> Result<(), NoMemory>
    requires room { length (body_cells body.now) < 2 ^ 32 }
    ensures ok { OnOk result (sink.new ≡ with_cells sink.old (body_cells body.now)) }
    ensures is { OnOk result (AreRecords body.now) }
    ensures front { sink.new.front ≡ sink.old.front }
{
    match body {
        Body::Manifests(manifests) => put_items(manifests.items(), sink),
        Body::Widgets(widgets) => put_items(widgets.items(), sink),
        Body::Routes(routes) => put_items(routes.items(), sink),
        Body::Pcms(pcms) => put_items(pcms.items(), sink),
        Body::Other { bytes, .. } => put_fixed(bytes.items(), sink),
    }
}

// The type of a block and its number of records.
fn kind_and_count(body: &Body) -> (u32, u32)
    requires { IsStorable body.now }
    ensures words { result ≡ (block_type body.now, count_of body.now) }
    ensures fit { (block_type body.now < 2 ^ 32) × (count_of body.now < 2 ^ 32) }
{
    match body {
        Body::Manifests(manifests) => (MANIFEST, manifests.items().len() as u32),
        Body::Widgets(widgets) => (DAPM_WIDGET, widgets.items().len() as u32),
        Body::Routes(routes) => (DAPM_GRAPH, routes.items().len() as u32),
        Body::Pcms(pcms) => (PCM, pcms.items().len() as u32),
        Body::Other { kind, count, .. } => (*kind, *count),
    }
}

// A block's header up to the size of its payload: the magic word, the ABI, version, type, its own size and vendor type.
fn put_front(block: &Block, kind: u32, sink: &mut Sink) -> Result<(), NoMemory>
    ensures ok { OnOk result (sink.new ≡ with_fields sink.old (Word MAGIC ∷ Word ABI ∷ Word block.now.version ∷ Word kind ∷ Word HEADER_BYTES ∷ Word block.now.vendor_type ∷ [])) }
    ensures fit { OnOk result ((block.now.version < 2 ^ 32) × (block.now.vendor_type < 2 ^ 32)) }
    ensures front { sink.new.front ≡ sink.old.front }
{
    sink.word(MAGIC)?;
    sink.word(ABI)?;
    sink.word(block.version)?;
    sink.word(kind)?;
    sink.word(HEADER_BYTES)?;
    sink.word(block.vendor_type)?;
    Ok(())
}

// One block: the size of its payload is written once the payload is there.
fn put_block(block: &Block, sink: &mut Sink) -> Result<(), NoMemory>
    ensures ok { OnOk result (sink.new ≡ with_cells sink.old (block_cells block.now)) }
    ensures is { OnOk result (IsBlock block.now) }
    ensures front { sink.new.front ≡ sink.old.front }
{
    let (kind, count) = kind_and_count(&block.body);
    put_front(block, kind, sink)?;
    let place = sink.len();
    sink.word(0)?;
    sink.word(block.index)?;
    sink.word(count)?;
    put_body(&block.body, sink)?;
    let size = sink.len() - place - 12;
    sink.patch(place, size as u32);
    Ok(())
}

/// Writes blocks, one after the other.
pub fn put_blocks(blocks: &[Block], sink: &mut Sink) -> Result<(), NoMemory>
    ensures ok { OnOk result (sink.new ≡ with_cells sink.old (items_cells block_cells blocks.now)) }
    ensures are { OnOk result (Each IsBlock blocks.now) }
    ensures front { sink.new.front ≡ sink.old.front }
{
    for block in blocks {
        put_block(block, sink)?;
    }
    Ok(())
}
