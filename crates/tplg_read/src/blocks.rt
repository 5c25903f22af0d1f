// Blocks: a header, and a payload by its type.
ghost use Rattle.std.specs.Prelude.{◌≡◌, ◌≤◌, ◌<◌, ◌+◌, ◌^◌, length, IfOk};
ghost use Rattle.tplg_model.specs.Outcomes.{Gives};
ghost use Rattle.tplg_model.specs.Reading as reading;

use crate::fields::kept;
use crate::items::all_items;
use sof_base::{Items, word};
use std::alloc::Global;
use tplg_model::block_type::{DAPM_GRAPH, DAPM_WIDGET, MANIFEST, PCM};
use tplg_model::{ABI, Block, Body, HEADER_BYTES, MAGIC, TplgFault};

#[tactic(auto, unfolding(tplg_model::specs::Reading::body_at))]
fn body_at(
    alloc: Global,
    kind: u32,
    count: u32,
    at: usize,
    payload: &[u8],
) -> Result<Body, TplgFault>
    requires { at + length payload.now < 2 ^ 64 }
    ensures { Gives (λ x. x) result (reading.body_at kind count at payload.now) }
{
    match kind {
        DAPM_GRAPH => Ok(Body::Routes(all_items(alloc, count, at, payload)?)),
        DAPM_WIDGET => Ok(Body::Widgets(all_items(alloc, count, at, payload)?)),
        PCM => Ok(Body::Pcms(all_items(alloc, count, at, payload)?)),
        MANIFEST => Ok(Body::Manifests(all_items(alloc, count, at, payload)?)),
        _ => Ok(Body::Other {
            kind,
            count,
            bytes: kept(alloc, payload)?,
        }),
    }
}

#[tactic(auto, unfolding(tplg_model::specs::Reading::block_step))]
fn block_at(alloc: Global, at: usize, bytes: &[u8]) -> Result<(Block, usize), TplgFault>
    requires { at + length bytes.now < 2 ^ 64 }
    ensures gives { Gives (λ x. x) result (reading.block_step at bytes.now) }
    ensures within { IfOk result (λ x. x.1 ≤ length bytes.now) }
    ensures some { IfOk result (λ x. 0 < x.1) }
{
    if bytes.len() < 36 {
        return Err(TplgFault::Truncated(at));
    }
    if word(bytes, 0) != MAGIC {
        return Err(TplgFault::Magic(at));
    }
    let abi = word(bytes, 4);
    if abi != ABI {
        return Err(TplgFault::Abi(at, abi));
    }
    if word(bytes, 16) != HEADER_BYTES {
        return Err(TplgFault::HeaderSize(at));
    }
    let size = word(bytes, 24) as usize;
    if bytes.len() - 36 < size {
        return Err(TplgFault::Truncated(at));
    }
    let kind = word(bytes, 12);
    let count = word(bytes, 32);
    let body = body_at(alloc, kind, count, at + 36, &bytes[36..36 + size])?;
    Ok((
        Block {
            version: word(bytes, 8),
            vendor_type: word(bytes, 20),
            index: word(bytes, 28),
            body,
        },
        36 + size,
    ))
}

/// The blocks of a file, up to its end.
pub fn blocks_of(alloc: Global, bytes: &[u8]) -> Result<Items<Block>, TplgFault>
    ensures { Gives (λ x. x) result (reading.blocks_of bytes.now) }
{
    let mut blocks = Items::new(alloc);
    let mut used = 0;
    while used < bytes.len() {
        let (_, rest) = bytes.split_at(used);
        let (block, size) = block_at(alloc, used, rest)?;
        blocks.push(block)?;
        used += size;
    }
    Ok(blocks)
}
