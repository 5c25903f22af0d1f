// A list of components by ascending id.
ghost use Rattle.std.specs.Prelude.{◌≡◌, ◌==◌, ◌<◌, [], not, filter, find, Some, map, nat_lt, position, vec_len, vec_capacity};
ghost use Rattle.stream_law.specs.Placed.{placed, Ascends};
ghost use Rattle.std.specs.List.{AllByRecursion};
ghost use Rattle.fw_units.specs.Values.{valued_at};
ghost use Rattle.fw_units.specs.Changes.{completed_at, with_ended, set_at, joined_at, IsOfHome, given_all};

use crate::component::Component;
use fw_heap::Region;
use sof_base::Params;
use stream_law::{Join, Phase};

/// The place of the first component of an id.
pub fn place_of(components: &[Component], id: u32) -> Option<usize>
    ensures { result ≡ position (λ c. c.id == id) components.now }
{
    components.iter().position(|component| component.id == id)
}

/// The place of the component of an id in a list that ascends, by halves.
#[tactic(auto, using(crate::proofs::Hinted::below_none, crate::proofs::Hinted::from_none, crate::proofs::Hinted::below_to, crate::proofs::Hinted::from_at, crate::proofs::Hinted::none_past, crate::proofs::Hinted::none_between, crate::proofs::Hinted::found_at))]
pub fn place_by_halves(components: &[Component], id: u32) -> Option<usize>
    requires { Ascends (λ c. c.id) components.now }
    ensures { result ≡ position (λ c. c.id == id) components.now }
{
    let mut from = 0;
    let mut end = components.len();
    while from < end {
        let middle = from + (end - from) / 2;
        if components[middle].id < id {
            from = middle + 1;
        } else {
            end = middle;
        }
    }
    if from >= components.len() {
        return None;
    }
    if components[from].id == id {
        Some(from)
    } else {
        None
    }
}

// The place of the first component of a greater id.
fn first_above(components: &[Component], id: u32) -> Option<usize>
    ensures { result ≡ position (λ c. nat_lt id c.id) components.now }
{
    components.iter().position(|component| id < component.id)
}

/// Puts a component before the first of a greater id.
pub fn place(components: &mut Vec<Component>, component: Component)
    requires room { vec_len components.old < vec_capacity components.old }
    ensures items { components.new.items ≡ placed (λ c. c.id) component components.old.items }
    ensures capacity { vec_capacity components.new ≡ vec_capacity components.old }
{
    let end = components.len();
    let at = first_above(components.as_slice(), component.id).unwrap_or(end);
    match components.insert(at, component) {
        Ok(()) => (),
        Err(_refused) => unreachable!(),
    }
}

/// The pipeline of this id is complete.
pub fn complete_in(components: &mut Vec<Component>, id: u32)
    ensures items { components.new.items ≡ map (completed_at id) components.old.items }
    ensures capacity { vec_capacity components.new ≡ vec_capacity components.old }
{
    for component in components.iter_mut() {
        component.complete(id);
    }
}

/// The host of this id has this phase and these parameters.
pub fn set_stream_in(components: &mut Vec<Component>, id: u32, phase: Phase, params: Option<Params>)
    ensures items { components.new.items ≡ map (set_at id phase params) components.old.items }
    ensures capacity { vec_capacity components.new ≡ vec_capacity components.old }
{
    for component in components.iter_mut() {
        component.set_stream(id, phase, params);
    }
}

/// Takes out the component of this id, which stands at this place.
pub fn take_at(components: &mut Vec<Component>, at: usize, id: u32) -> Component
    requires place { Some at ≡ position (λ c. c.id == id) components.old.items }
    requires ascends { Ascends (λ c. c.id) components.old.items }
    ensures found { Some result ≡ find (λ c. c.id == id) components.old.items }
    ensures items { components.new.items ≡ filter (λ c. not (c.id == id)) components.old.items }
    ensures capacity { vec_capacity components.new ≡ vec_capacity components.old }
{
    components.remove(at)
}

/// Gives back the pieces of all components.
pub fn give_all(components: &mut Vec<Component>, region: &mut Region)
    requires { AllByRecursion (IsOfHome region.old.home) components.old.items }
    ensures items { components.new.items ≡ [] }
    ensures capacity { vec_capacity components.new ≡ vec_capacity components.old }
    ensures holes { region.new.holes ≡ given_all components.old.items region.old.holes }
    ensures same { (region.new.home ≡ region.old.home) × (region.new.size ≡ region.old.size) × (region.new.usable ≡ region.old.usable) }
{
    while !components.is_empty() {
        let component = components.remove(0);
        region.give(component.into_piece());
    }
}

/// The ring of the buffer of this id is empty.
pub fn end_in(components: &mut Vec<Component>, id: u32)
    ensures items { components.new.items ≡ map (with_ended id) components.old.items }
    ensures capacity { vec_capacity components.new ≡ vec_capacity components.old }
{
    for component in components.iter_mut() {
        component.end(id);
    }
}

/// The buffers have the side joined that a join is at.
pub fn join_in(components: &mut Vec<Component>, join: Join)
    ensures items { components.new.items ≡ map (joined_at join) components.old.items }
    ensures capacity { vec_capacity components.new ≡ vec_capacity components.old }
{
    for component in components.iter_mut() {
        component.join(join);
    }
}

/// The component of this id has these values.
pub fn value_in(components: &mut Vec<Component>, id: u32, values: &[u32])
    ensures items { components.new.items ≡ map (valued_at id values.now) components.old.items }
    ensures capacity { vec_capacity components.new ≡ vec_capacity components.old }
{
    for component in components.iter_mut() {
        component.set_values(id, values);
    }
}
