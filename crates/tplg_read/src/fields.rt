// The steps that can fail in a record: its size, and its names.
ghost use Rattle.std.specs.Prelude.{◌≡◌, ◌≤◌, ◌+◌, length, IfOk, IfErr};
ghost use Rattle.tplg_model.specs.declared.fault.TplgFault.TheVariants.{OutOfMemory};
ghost use Rattle.tplg_model.specs.Outcomes.{Gives};
ghost use Rattle.tplg_model.specs.Reading as reading;

use sof_base::{Items, Name44, label, word};
use std::alloc::Global;
use tplg_model::TplgFault;

/// The size of what follows a record of a width, which is the record's last word. It is trusted only where so many bytes are
/// there.
#[tactic(auto, unfolding(tplg_model::specs::Reading::tail_size))]
pub fn tail_size(width: usize, at: usize, bytes: &[u8]) -> Result<usize, TplgFault>
    requires { 4 ≤ width }
    ensures gives { Gives (λ x. x) result (reading.tail_size width at bytes.now) }
    ensures within { IfOk result (λ n. width + n ≤ length bytes.now) }
{
    if bytes.len() < width {
        return Err(TplgFault::Payload(at));
    }
    let size = word(bytes, width - 4) as usize;
    if bytes.len() - width < size {
        return Err(TplgFault::Payload(at));
    }
    Ok(size)
}

/// The name at an offset of the record that begins at a place.
#[tactic(auto, unfolding(tplg_model::specs::Reading::label_at))]
pub fn name_at(at: usize, bytes: &[u8], off: usize) -> Result<Name44, TplgFault>
    requires { off + 44 ≤ length bytes.now }
    ensures { Gives (λ x. x) result (reading.label_at at bytes.now off) }
{
    match label(bytes, off) {
        Some(name) => Ok(name),
        None => Err(TplgFault::Name(at)),
    }
}

/// A copy of bytes that are kept.
pub fn kept(alloc: Global, bytes: &[u8]) -> Result<Items<u8>, TplgFault>
    ensures gives { IfOk result (λ x. x ≡ bytes.now) }
    ensures fault { IfErr result (λ f. f ≡ OutOfMemory) }
{
    Ok(Items::from_vec(Vec::from_slice(alloc, bytes)?))
}
