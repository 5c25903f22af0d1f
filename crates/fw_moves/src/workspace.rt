// Room for the samples of a move.
use sof_base::{NoMemory, Sample};
use std::alloc::Global;
use std::marker::Model;

/// The most samples that are moved in one go: a tick's 192 frames of 8 samples fit.
pub(crate) const MOST: usize = 2048;

/// Room for the samples of a move, and after them for what a demux keeps of them for one of its outputs.
#[derive(Drop)]
pub struct Workspace {
    pub(crate) samples: Vec<Sample>,
}

impl Model for Workspace {
    ghost use Rattle.std.specs.Prelude.{◌≡◌, length};

    ghost Value = { Unit {0} };

    ghost view = { λ w. tt };

    ghost invariant = { λ w. length w.samples.items ≡ 4096 };
}

impl Workspace {
    pub fn new(alloc: Global) -> Result<Workspace, NoMemory> {
        Ok(Workspace {
            samples: vec![in alloc; 0; 2 * MOST]?,
        })
    }
}
