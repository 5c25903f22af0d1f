// Numbers that are drawn, each from the one before it, and the messages that they give.
ghost use Rattle.std.specs.Prelude.{◌<◌, ◌≤◌};

use crate::graphs::{
    CAPTURE_DAI, CAPTURE_HOST, DAI, HOST, VOLUME, buffer, component, parameters, pipeline, values,
};
use crate::parts::{longer, no_blob, of_another, part, short};
use ipc3_codec::{CompWords, Message};
use sof_base::Part;

/// The number that was drawn last.
#[derive(Clone, Copy)]
pub(crate) struct Draw {
    pub(crate) number: u32,
}

impl Draw {
    /// A number below a bound.
    pub(crate) fn below(&mut self, bound: u32) -> u32
        requires { 1 ≤ bound }
        ensures { result < bound }
    {
        let next = self.number.wrapping_mul(1103515245).wrapping_add(12345);
        self.number = next % 2147483648;
        self.number / 65536 % bound
    }

    // One of eight numbers.
    fn one_of(&mut self, numbers: &[u32; 8]) -> u32 {
        let at = self.below(8);
        numbers[at as usize]
    }
}

const RATES: [u32; 8] = [48000, 48000, 48000, 16000, 44100, 44101, 192000, 0];

const VALUES: [u32; 8] = [0, 1, 255, 256, 65536, 16_777_216, 16_777_217, 4_294_967_295];

fn kind(draw: &mut Draw) -> CompWords {
    match draw.below(9) {
        0 => HOST,
        1 => CAPTURE_HOST,
        2 => DAI,
        3 => CAPTURE_DAI,
        4 => VOLUME,
        5 => CompWords::Mixer,
        6 => CompWords::Mux,
        7 => CompWords::Eq,
        _ => CompWords::Demux,
    }
}

// A part of the blob, one that is wrong in one place, or the only part of no blob.
fn any_part(draw: &mut Draw) -> Part {
    let index = draw.below(3);
    match draw.below(7) {
        0 => short(index),
        1 => longer(index),
        2 => of_another(index),
        3 => no_blob(),
        _ => part(index),
    }
}

/// A message of any row. Its ids are below 12, and the indices of pipelines from 1 to 4.
pub(crate) fn any_message(draw: &mut Draw) -> Message {
    let id = draw.below(12);
    let other = draw.below(12);
    let pipe = draw.below(4) + 1;
    let index = draw.below(4);
    match draw.below(28) {
        0 | 1 => component(id, pipe, kind(draw)),
        2 | 3 => buffer(id, pipe, 16 * (index + 1)),
        4 => pipeline(id, pipe, other),
        5 | 6 | 7 | 8 | 9 => Message::Connect {
            source: id,
            sink: other,
        },
        10 | 11 => Message::PipeComplete { id },
        12 => Message::CompFree { id },
        13 => Message::BufferFree { id },
        14 => Message::PipeFree { id },
        15 => values(id, index, other, draw.one_of(&VALUES)),
        16 => Message::GetValue { id, command: index },
        17 | 18 => Message::SetData {
            id,
            part: any_part(draw),
        },
        19 => Message::GetData { id, index },
        20 | 21 | 22 => parameters(id, draw.below(2), draw.one_of(&RATES)),
        23 => Message::PcmFree { id },
        24 => Message::TrigStart { id },
        25 => Message::TrigStop { id },
        26 => Message::TrigPause { id },
        27 => Message::TrigRelease { id },
        _ => Message::CtxSave,
    }
}
