// What the rules and the plan are read off.
ghost use Rattle.std.specs.Prelude.{◌≡◌, ◌<◌, ◌^◌, length, IfOk};
ghost use Rattle.tplg_widgets.specs.Entries.{entries_of};
ghost use Rattle.tplg_widgets.specs.Ends.{ends_in};
ghost use Rattle.tplg_widgets.specs.WiringValue.{wiring_of};

use crate::pcm_caps::{PcmCaps, pcm_caps};
use crate::route_end::{Ends, all_ends, joins};
use crate::widgets::Widgets;
use sof_base::NoMemory;
use std::alloc::Global;
use std::marker::Model;
use stream_law::Join;
use tplg_model::Topology;

/// A topology's widgets, the caps of its PCMs, what its routes' ends name, and its real routes.
#[derive(Drop)]
pub struct Wiring<'t> {
    widgets: Widgets<'t>,
    pcms: Vec<PcmCaps>,
    ends: Vec<Ends>,
    joins: Vec<Join>,
}

impl<'t> Model for Wiring<'t> {
    ghost use Rattle.std.specs.Prelude.{◌<◌, ◌^◌, length};
    ghost use Rattle.tplg_widgets.specs.WiringValue.{WiringValue};

    ghost Value = { WiringValue };

    ghost view = { λ w. record { widgets = w.widgets; pcms = w.pcms.items; ends = w.ends.items; joins = w.joins.items } };

    ghost invariant = { λ w. length w.ends.items < 2 ^ 32 };
}

impl<'t> Wiring<'t> {
    /// The wiring of a topology, of whose widgets and routes there are so few that a word can number them.
    pub fn of(alloc: Global, topology: &'t Topology) -> Result<Wiring<'t>, NoMemory>
        requires widgets { length (entries_of topology.now) < 2 ^ 32 }
        requires routes { length (ends_in topology.now) < 2 ^ 32 }
        ensures { IfOk result (λ wiring. wiring ≡ wiring_of topology.now) }
    {
        let widgets = Widgets::of(alloc, topology)?;
        let pcms = pcm_caps(alloc, topology)?;
        let ends = all_ends(alloc, topology, &widgets)?;
        let joins = joins(alloc, ends.as_slice())?;
        Ok(Wiring {
            widgets,
            pcms,
            ends,
            joins,
        })
    }

    pub fn widgets(&self) -> &Widgets<'t>
        ensures { result.now ≡ self.now.widgets }
    {
        &self.widgets
    }

    pub fn pcms(&self) -> &[PcmCaps]
        ensures { result.now ≡ self.now.pcms }
    {
        self.pcms.as_slice()
    }

    pub fn ends(&self) -> &[Ends]
        ensures value { result.now ≡ self.now.ends }
        ensures few { length self.now.ends < 2 ^ 32 }
    {
        self.ends.as_slice()
    }

    pub fn joins(&self) -> &[Join]
        ensures { result.now ≡ self.now.joins }
    {
        self.joins.as_slice()
    }
}
