// Routes and manifests.
ghost use Rattle.std.specs.Prelude.{◌≡◌, ◌≤◌, length, IfOk};
ghost use Rattle.tplg_model.specs.Outcomes.{Gives};
ghost use Rattle.tplg_model.specs.Reading.{route_step, manifest_step};

use crate::fields::{kept, name_at, tail_size};
use crate::items::Item;
use sof_base::words_at;
use std::alloc::Global;
use tplg_model::{Manifest, Route, TplgFault};

impl Item for Route {
    ghost step = { route_step };

    #[tactic(auto, unfolding(tplg_model::specs::Reading::route_step))]
    fn read(_alloc: Global, at: usize, bytes: &[u8]) -> Result<(Self, usize), TplgFault>
        ensures gives { Gives (λ x. x) result (route_step at bytes.now) }
        ensures within { IfOk result (λ x. x.1 ≤ length bytes.now) }
    {
        if bytes.len() < 132 {
            return Err(TplgFault::Payload(at));
        }
        let sink = name_at(at, bytes, 0)?;
        let control = name_at(at, bytes, 44)?;
        let source = name_at(at, bytes, 88)?;
        Ok((
            Route {
                sink,
                control,
                source,
            },
            132,
        ))
    }
}

impl Item for Manifest {
    ghost step = { manifest_step };

    #[tactic(auto, unfolding(tplg_model::specs::Reading::manifest_step))]
    fn read(alloc: Global, at: usize, bytes: &[u8]) -> Result<(Self, usize), TplgFault>
        ensures gives { Gives (λ x. x) result (manifest_step at bytes.now) }
        ensures within { IfOk result (λ x. x.1 ≤ length bytes.now) }
    {
        let size = tail_size(112, at, bytes)?;
        let private = kept(alloc, &bytes[112..112 + size])?;
        Ok((
            Manifest {
                words: words_at(bytes, 4),
                private,
            },
            112 + size,
        ))
    }
}
