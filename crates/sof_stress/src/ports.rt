// The inputs and the output of a stress.
ghost use Rattle.std.specs.Prelude.{◌≡◌, ◌<◌, ◌≤◌, ◌∷◌, [], IfOk};
ghost use Rattle.sof_io.specs.Bound.{new_output};
ghost use Rattle.sof_stress.specs.StressPorts as law;

use sof_base::NoMemory;
use sof_io::{Inputs, Outputs};
use std::alloc::Global;

/// How many bytes the input of a stream has.
const STREAM_BYTES: u32 = 4800;

// The bytes of a stream's input.
fn input_bytes(alloc: Global, i: u32) -> Result<Vec<u8>, NoMemory>
    requires { i < 4 }
    ensures { IfOk result (λ bytes. bytes.items ≡ law.input_bytes i) }
{
    let mut bytes = Vec::new(alloc);
    for j in 0..STREAM_BYTES {
        bytes.push(((7 * j + i) % 256) as u8)?;
    }
    Ok(bytes)
}

/// The inputs of so many streams.
pub fn inputs_of(alloc: Global, streams: u32) -> Result<Inputs, NoMemory>
    requires { streams ≤ 4 }
    ensures { IfOk result (λ inputs. inputs ≡ law.stress_inputs streams) }
{
    let mut inputs = Inputs::new(alloc)?;
    for i in 0..streams {
        let bytes = input_bytes(alloc, i)?;
        inputs.add(5 * i)?;
        inputs.fill(5 * i, bytes.as_slice());
        inputs.end(5 * i);
    }
    Ok(inputs)
}

/// The slot of the DAI.
pub fn dai_slot(streams: u32) -> u32
    requires { streams ≤ 4 }
    ensures { result ≡ law.dai_slot streams }
{
    5 * streams + 4
}

/// The one output, to which nothing was written yet.
pub fn outputs_of(alloc: Global, streams: u32) -> Result<Outputs, NoMemory>
    requires { streams ≤ 4 }
    ensures { IfOk result (λ outputs. outputs ≡ new_output (law.dai_slot streams) ∷ []) }
{
    let mut outputs = Outputs::new(alloc)?;
    outputs.add(dai_slot(streams))?;
    Ok(outputs)
}
