ghost use Rattle.std.specs.Prelude.{◌≡◌, ◌++◌, length, take, Ok, OnOk, OnErr};
ghost use Rattle.tplg_model.specs.Arrays.{AreArrays, arrays_spelling};
ghost use Rattle.tplg_model.specs.ArrayReading.{arrays_of};

use crate::array::write_array;
use sof_base::NoMemory;
use std::alloc::AllocError;
use tplg_model::TokenArray;

/// Appends the bytes of arrays, one after the other. An `Err` changes nothing.
pub fn write_arrays(arrays: &[TokenArray], out: &mut Vec<u8>) -> Result<(), NoMemory>
    ensures ok { OnOk result (out.new.items ≡ out.old.items ++ arrays_spelling arrays.now) }
    // The arrays are the program's, so that what is written is read as these.
    ensures are { OnOk result (AreArrays arrays.now) }
    ensures again { OnOk result (arrays_of (arrays_spelling arrays.now) ≡ Ok arrays.now) }
    ensures err { OnErr result (out.new.items ≡ out.old.items) }
{
    let before = out.len();
    match write_each(arrays, out) {
        Ok(()) => Ok(()),
        Err(_) => {
            out.truncate(before);
            Err(NoMemory)
        }
    }
}

fn write_each(arrays: &[TokenArray], out: &mut Vec<u8>) -> Result<(), AllocError>
    ensures ok { OnOk result (out.new.items ≡ out.old.items ++ arrays_spelling arrays.now) }
    ensures are { OnOk result (AreArrays arrays.now) }
    ensures kept { take (length out.old.items) out.new.items ≡ out.old.items }
{
    for array in arrays {
        write_array(array, out)?;
    }
    Ok(())
}
