// Records and controls, one after the other.
ghost use Rattle.std.specs.Prelude.{◌≡◌, ◌≤◌, ◌<◌, ◌+◌, ◌^◌, ℕ, List, length, IfOk, Result};
ghost use Rattle.tplg_model.specs.Outcomes.{Gives};
ghost use Rattle.tplg_model.specs.Reading as reading;
ghost use Rattle.tplg_model.specs.declared.fault.TplgFault.{TplgFault as Fault};

use sof_base::Items;
use std::alloc::Global;
use tplg_model::TplgFault;

/// What stands in a payload one after the other.
pub trait Item: Sized {
    ghost step: { ℕ → List ℕ → Result (Self × ℕ) Fault };

    /// The item at the front of bytes that begin at a place, and how many bytes it takes.
    fn read(alloc: Global, at: usize, bytes: &[u8]) -> Result<(Self, usize), TplgFault>
        requires { at + length bytes.now < 2 ^ 64 }
        ensures gives { Gives (λ x. x) result (Self.step at bytes.now) }
        ensures within { IfOk result (λ x. x.1 ≤ length bytes.now) };
}

/// A number of items, and how many bytes they take.
pub fn items_at<I: Item + Drop>(
    alloc: Global,
    count: u32,
    at: usize,
    bytes: &[u8],
) -> Result<(Items<I>, usize), TplgFault>
    requires { at + length bytes.now < 2 ^ 64 }
    ensures gives { Gives (λ x. x) result (reading.items_at I.step count at bytes.now) }
    ensures within { IfOk result (λ x. x.1 ≤ length bytes.now) }
{
    let mut items = Items::new(alloc);
    let mut used = 0;
    for _ in 0..count {
        let (_, rest) = bytes.split_at(used);
        let (item, size) = I::read(alloc, at + used, rest)?;
        items.push(item)?;
        used += size;
    }
    Ok((items, used))
}

/// A number of items that are all of the bytes.
#[tactic(auto, unfolding(tplg_model::specs::Reading::all_items))]
pub fn all_items<I: Item + Drop>(
    alloc: Global,
    count: u32,
    at: usize,
    bytes: &[u8],
) -> Result<Items<I>, TplgFault>
    requires { at + length bytes.now < 2 ^ 64 }
    ensures { Gives (λ x. x) result (reading.all_items I.step count at bytes.now) }
{
    let (items, used) = items_at::<I>(alloc, count, at, bytes)?;
    if used != bytes.len() {
        return Err(TplgFault::Payload(at + used));
    }
    Ok(items)
}
