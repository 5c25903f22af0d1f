ghost use Rattle.std.specs.Prelude.{List, IfOk, IfErr, Ok, Err};
ghost use Rattle.tplg_model.specs.Arrays.{AreArrays, ArrayFault, IsTokenFault};
ghost use Rattle.tplg_model.specs.ArrayReading.{AreArraysOf, arrays_of};
ghost use Rattle.tplg_tokens.specs.Answers.{NamesFault, GivesArrays};

use crate::array::{read_array, whole_size};
use crate::fault::TokenFault;
use sof_base::Items;
use std::alloc::Global;
use tplg_model::TokenArray;

/// The vendor arrays that bytes are, in one pass. A fault's place is that of the array at fault, in bytes from 0.
pub fn read_arrays(alloc: Global, bytes: &[u8]) -> Result<Items<TokenArray>, TokenFault>
    // The bytes are the arrays that are read.
    ensures found { IfOk result (λ arrays. AreArrays arrays × AreArraysOf bytes.now arrays) }
    // Arrays that the bytes are, are read, unless memory runs out.
    ensures only { (arrays : List TokenArray) → AreArrays arrays → AreArraysOf bytes.now arrays → GivesArrays result (Ok arrays) }
    // A fault is the first one, or want of memory.
    ensures fault { IfErr result (NamesFault (IsTokenFault bytes.now)) }
    // The first fault is answered, unless memory runs out.
    ensures fault_only { (fault : ArrayFault) → IsTokenFault bytes.now fault → GivesArrays result (Err fault) }
    // The answer is what reading gives, unless memory runs out.
    ensures gives { GivesArrays result (arrays_of bytes.now) }
{
    each_array(alloc, bytes)
}

fn each_array(alloc: Global, bytes: &[u8]) -> Result<Items<TokenArray>, TokenFault>
    ensures { GivesArrays result (arrays_of bytes.now) }
{
    let mut arrays = Items::new(alloc);
    let mut used = 0;
    while used < bytes.len() {
        let (_, rest) = bytes.split_at(used);
        let size = whole_size(rest, used)?;
        arrays.push(read_array(alloc, rest)?)?;
        used += size;
    }
    Ok(arrays)
}
