//! The block of a region. Each function here is proved by hand.
ghost use Rattle.std.specs.Prelude.{◌≡◌, ◌^◌, ◌<◌, false, length, IfOk};
ghost use Rattle.core.specs.Mem.Slots.Ownership.{leased};
ghost use denote.Builtin.{i32};

use crate::run::{Home, Run};
use core::alloc::{AllocError, Allocator};
use core::marker::PhantomData;
use std::marker::Model;

/// The right to free a block of words.
pub(crate) struct Block<A: Allocator> {
    start: *mut i32,
    words: u32,
    by: PhantomData<A>,
    ghost alloc: { A },
}

impl<A: Allocator> Model for Block<A> {
    ghost also_owns = { λ l. leased (A.dealloc_token l.alloc) i32 l.start l.words };
}

/// Words that are not written, with the pointer to them, and the right to free their block.
pub(crate) fn reserve<A: Allocator>(
    alloc: &A,
    words: u32,
) -> Result<((Home, Run), Block<A>), AllocError>
    ensures { IfOk result (λ r. (r.0.0.words ≡ words) × (r.0.1.start ≡ r.0.0.start) × (r.0.1.first ≡ 0) × (length r.0.1.items ≡ words) × (r.0.1.written ≡ false) × (r.1.start ≡ r.0.0.start) × (r.1.words ≡ words) × (r.1.alloc ≡ alloc.now)) }
{
    match alloc.allocate(words as usize * 4, 4) {
        Ok(block) => {
            let start = block as *mut i32;
            let by = PhantomData;
            let run = (Home { start, words }, Run {});
            Ok((run, Block { start, words, by }))
        }
        Err(refused) => Err(refused),
    }
}

/// Gives the block of these words back.
pub(crate) fn release<A: Allocator>(alloc: &A, run: Run, block: Block<A>)
    requires { (block.start ≡ run.start) × (run.first ≡ 0) × (block.words ≡ length run.items) × (block.alloc ≡ alloc.now) × (length run.items < 2 ^ 32) }
{
    let Run {} = run;
    let Block {
        start,
        words,
        by: _,
    } = block;
    unsafe {
        alloc.deallocate(start as *mut u8, words as usize * 4, 4);
    }
}
