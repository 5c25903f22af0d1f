// The live control of a widget, as a source states it.
ghost use Rattle.std.specs.Prelude.{◌≡◌, ◌≤◌, ◌<◌, length, map, max, min, IfOk};
ghost use Rattle.std.specs.List.{range_with_len};
ghost use Rattle.std.specs.Option.{option_copied, option_to_list};
ghost use Rattle.tplg_source.specs.Carried as law;

use crate::names::{is_text, name_or};
use sof_base::{Items, Name44, NoMemory};
use std::alloc::Global;
use tplg_build::{Choices, SourceControl, empty_name};
use tplg_model::Control;
use tplg_widgets::{Role, before_zero, is_demux, live_of, scale_word};

// One of an enum's texts: empty where it is no name or no UTF-8.
fn choice_kept(text: &[u8]) -> Name44
    ensures { result ≡ law.choice_kept text.now }
{
    match Name44::new(text) {
        Some(name) if is_text(text) => name,
        _ => empty_name(),
    }
}

#[tactic(auto, unfolding(crate::specs::Carried::choice_at))]
fn choice_at(texts: &[u8; 704], place: u32) -> Name44
    requires { place < 16 }
    ensures { result ≡ law.choice_at texts.now place }
{
    let at = 44 * place as usize;
    choice_kept(before_zero(&texts[at..at + 44]))
}

// How many texts an enum control has, from 1 to 16.
fn choice_count(items: u32) -> u32
    ensures value { result ≡ max 1 (min 16 items) }
    ensures some { 1 ≤ result }
    ensures most { result ≤ 16 }
{
    if items < 1 {
        1
    } else if items > 16 {
        16
    } else {
        items
    }
}

// So many of an enum's texts.
fn front_choices(alloc: Global, count: u32, texts: &[u8; 704]) -> Result<Items<Name44>, NoMemory>
    requires { count ≤ 16 }
    ensures value { IfOk result (λ xs. xs ≡ map (law.choice_at texts.now) (range_with_len 0 count)) }
    ensures many { IfOk result (λ xs. length xs ≡ count) }
{
    let mut kept = Items::new(alloc);
    for place in 0..count {
        kept.push(choice_at(texts, place))?;
    }
    Ok(kept)
}

fn choices(alloc: Global, items: u32, texts: &[u8; 704]) -> Result<Choices, NoMemory>
    ensures { IfOk result (λ xs. xs ≡ law.carried_choices items texts.now) }
{
    let kept = front_choices(alloc, choice_count(items), texts)?;
    Ok(Choices::of(kept))
}

fn bytes_again(alloc: Global, bytes: &[u8]) -> Result<Items<u8>, NoMemory>
    ensures { IfOk result (λ copy. copy ≡ bytes.now) }
{
    Ok(Items::from_vec(Vec::from_slice(alloc, bytes)?))
}

/// The live control of a widget of a role, where a source has keys for it.
pub fn keyed_control(role: Option<Role>, controls: &[Control]) -> Option<&Control>
    ensures { option_copied result ≡ law.keyed_control role controls.now }
{
    if is_demux(role) {
        None
    } else {
        live_of(role, controls)
    }
}

// A live control of a widget of this name.
fn carried_control(
    alloc: Global,
    widget: &Name44,
    control: &Control,
) -> Result<SourceControl, NoMemory>
    ensures { IfOk result (λ c. c ≡ law.carried_control widget.now control.now) }
{
    match control {
        Control::Mixer {
            head,
            min,
            max,
            num_channels,
            ..
        } => Ok(SourceControl::Volume {
            name: name_or(widget, &head.name),
            channels: *num_channels,
            min: *min,
            max: *max,
            tlv_min: scale_word(head, 0).cast_signed(),
            tlv_step: scale_word(head, 1),
            tlv_mute: scale_word(head, 2),
        }),
        Control::Enum {
            head,
            items,
            texts,
            ..
        } => Ok(SourceControl::Choice {
            name: name_or(widget, &head.name),
            items: choices(alloc, *items, texts)?,
        }),
        Control::Bytes {
            head,
            max,
            private,
            ..
        } => Ok(SourceControl::Blob {
            name: name_or(widget, &head.name),
            max: *max,
            blob: bytes_again(alloc, private.items())?,
        }),
    }
}

/// The controls of a source's widget: this one, where there is one.
pub fn carried_controls(
    alloc: Global,
    widget: &Name44,
    live: Option<&Control>,
) -> Result<Items<SourceControl>, NoMemory>
    ensures { IfOk result (λ cs. cs ≡ map (law.carried_control widget.now) (option_to_list (option_copied live.entry))) }
{
    let mut controls = Items::new(alloc);
    if let Some(control) = live {
        controls.push(carried_control(alloc, widget, control)?)?;
    }
    Ok(controls)
}
