// The widgets of a topology, and what their names name.
ghost use Rattle.std.specs.Prelude.{◌≡◌, ◌<◌, ◌^◌, length, position, IfOk};
ghost use Rattle.tplg_widgets.specs.Entries.{interpreted, entries_of};
ghost use Rattle.tplg_widgets.specs.Names.{is_interpreted_named};
ghost use Rattle.tplg_widgets.specs.Ends as law;
ghost use Rattle.tplg_widgets.specs.KeptNumbers.{is_number};

use crate::entry::{Entry, entries, interpreted, is_buffer, is_component};
use crate::first_names::{all_by_name, interpreted_by_name};
use crate::route_end::End;
use sof_base::NoMemory;
use std::alloc::Global;
use std::collections::HashMap;
use std::marker::Model;
use tplg_model::Topology;

/// The widgets of a topology in file order, with the interpreted ones by id and the first of each name. Contracts see the
/// widgets.
#[derive(Drop)]
pub struct Widgets<'t> {
    all: Vec<Entry<'t>>,
    interpreted: Vec<Entry<'t>>,
    firsts: HashMap<&'t [u8], usize>,
    ids: HashMap<&'t [u8], usize>,
    names: HashMap<&'t [u8], usize>,
}

impl<'t> Model for Widgets<'t> {
    ghost use Rattle.std.specs.Prelude.{List};
    ghost use Rattle.std.specs.Str.{bytes_eq};
    ghost use Rattle.std.specs.HashMap as hash;
    ghost use Rattle.tplg_widgets.specs.EntryValue.{EntryValue};
    ghost use Rattle.tplg_widgets.specs.Lookups.{AreLookups};

    ghost Value = { List EntryValue };

    ghost view = { λ w. w.all.items };

    ghost invariant = { λ w. AreLookups w.all.items w.interpreted.items (λ q. hash.get_by (λ k. bytes_eq q k.now) w.firsts) (λ q. hash.get_by (λ k. bytes_eq q k.now) w.ids) (λ q. hash.get_by (λ k. bytes_eq q k.now) w.names) };
}

impl<'t> Widgets<'t> {
    /// The widgets of a topology, of which there are so few that a word can number them.
    pub fn of(alloc: Global, topology: &'t Topology) -> Result<Widgets<'t>, NoMemory>
        requires { length (entries_of topology.now) < 2 ^ 32 }
        ensures { IfOk result (λ widgets. widgets ≡ entries_of topology.now) }
    {
        let all = entries(alloc, topology)?;
        let interpreted = interpreted(alloc, all.as_slice())?;
        let firsts = interpreted_by_name(alloc, all.as_slice())?;
        let ids = all_by_name(alloc, interpreted.as_slice())?;
        let names = all_by_name(alloc, all.as_slice())?;
        Ok(Widgets {
            all,
            interpreted,
            firsts,
            ids,
            names,
        })
    }

    /// All widgets, by their numbers.
    pub fn all(&self) -> &[Entry<'t>]
        ensures value { result.now ≡ self.now }
        ensures few { length self.now < 2 ^ 32 }
    {
        self.all.as_slice()
    }

    /// The interpreted widgets, by their ids.
    pub fn interpreted(&self) -> &[Entry<'t>]
        ensures value { result.now ≡ interpreted self.now }
        ensures few { length (interpreted self.now) < 2 ^ 32 }
    {
        self.interpreted.as_slice()
    }

    /// Whether the widget of this number is the first interpreted one of a name.
    pub fn is_first(&self, name: &[u8], k: usize) -> bool
        ensures { result ≡ is_number (position (is_interpreted_named name.now) self.now) k }
    {
        match self.firsts.get(&name) {
            None => false,
            Some(number) => *number == k,
        }
    }

    /// What a name names.
    pub fn end_of(&self, name: &[u8]) -> End
        ensures { result ≡ law.end_named self.now name.now }
    {
        match self.ids.get(&name) {
            Some(id) => match self.interpreted.get(*id) {
                Some(entry) => end_at(entry, *id as u32),
                None => End::Other,
            },
            None => {
                if self.names.contains_key(&name) {
                    End::Other
                } else {
                    End::Missing
                }
            }
        }
    }
}

fn end_at(entry: &Entry, id: u32) -> End
    ensures { result ≡ law.end_at entry.now id }
{
    if is_buffer(entry) {
        End::Buffer(id)
    } else if is_component(entry) {
        End::Component(id)
    } else {
        End::Other
    }
}
