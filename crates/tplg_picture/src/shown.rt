// The names that a picture shows beside those of widgets.
ghost use Rattle.std.specs.Prelude.{◌≡◌, ◌++◌, IfOk, OnOk, map};
ghost use Rattle.std.specs.Option.{option_copied};
ghost use Rattle.tplg_picture.specs.ShownNames as law;

use crate::words::text_of;
use sof_base::{Items, Name44, NoMemory};
use std::alloc::Global;
use tplg_model::{Block, Body, Control, Pcm, Topology};
use tplg_widgets::{Entry, entries, interpreted};

/// A PCM's id and name, and the names of its two streams.
#[derive(Debug, Drop)]
pub struct ShownPcm {
    pub id: u32,
    pub name: Name44,
    pub play: Name44,
    pub capture: Name44,
}

/// The PCMs in file order, and by the ids of components the names of their live controls, which are empty where there is none.
#[derive(Debug, Drop)]
pub struct Shown {
    pub pcms: Items<ShownPcm>,
    pub controls: Items<Items<u8>>,
}

fn shown_pcm(pcm: &Pcm) -> ShownPcm
    ensures { result ≡ law.shown_pcm pcm.now }
{
    ShownPcm {
        id: pcm.pcm_id,
        name: pcm.name.copied(),
        play: pcm.play.name.copied(),
        capture: pcm.cap.name.copied(),
    }
}

fn add_pcms(pcms: &[Pcm], out: &mut Items<ShownPcm>) -> Result<(), NoMemory>
    ensures { OnOk result (out.new ≡ out.old ++ map law.shown_pcm pcms.now) }
{
    for pcm in pcms {
        out.push(shown_pcm(pcm))?;
    }
    Ok(())
}

fn add_block(block: &Block, out: &mut Items<ShownPcm>) -> Result<(), NoMemory>
    ensures { OnOk result (out.new ≡ out.old ++ law.shown_pcms_in block.now) }
{
    match &block.body {
        Body::Pcms(pcms) => add_pcms(pcms.items(), out),
        _ => Ok(()),
    }
}

fn shown_pcms(alloc: Global, topology: &Topology) -> Result<Items<ShownPcm>, NoMemory>
    ensures { IfOk result (λ ps. ps ≡ law.shown_pcms_of topology.now) }
{
    let mut out = Items::new(alloc);
    for block in topology.blocks.items() {
        add_block(block, &mut out)?;
    }
    Ok(out)
}

fn stream_name(pcm: &ShownPcm, capture: bool) -> &Name44
    ensures { result.now ≡ law.stream_name capture pcm.now }
{
    if capture { &pcm.capture } else { &pcm.play }
}

fn has_stream(pcm: &ShownPcm, capture: bool, name: &[u8]) -> bool
    ensures { result ≡ law.has_stream capture name.now pcm.now }
{
    name == stream_name(pcm, capture).as_bytes()
}

/// The first PCM whose stream of a direction has a name.
pub fn shown_pcm_with<'p>(pcms: &'p [ShownPcm], capture: bool, name: &[u8]) -> Option<&'p ShownPcm>
    ensures { option_copied result ≡ law.shown_pcm_with pcms.now capture name.now }
{
    pcms.iter().find(|p| has_stream(*p, capture, name))
}

fn control_name(control: &Control) -> &Name44
    ensures { result.now ≡ law.control_name control.now }
{
    match control {
        Control::Mixer { head, .. } => &head.name,
        Control::Enum { head, .. } => &head.name,
        Control::Bytes { head, .. } => &head.name,
    }
}

fn live_name<'t>(entry: &Entry<'t>) -> &'t [u8]
    ensures { result.now ≡ law.live_name entry.now }
{
    match entry.control() {
        Some(control) => control_name(control).as_bytes(),
        None => &[],
    }
}

fn add_live_names(
    alloc: Global,
    entries: &[Entry],
    out: &mut Items<Items<u8>>,
) -> Result<(), NoMemory>
    ensures { OnOk result (out.new ≡ out.old ++ map law.live_name entries.now) }
{
    for entry in entries {
        out.push(text_of(alloc, live_name(entry))?)?;
    }
    Ok(())
}

fn live_names(alloc: Global, topology: &Topology) -> Result<Items<Items<u8>>, NoMemory>
    ensures { IfOk result (λ names. names ≡ law.live_names_of topology.now) }
{
    let all = entries(alloc, topology)?;
    let components = interpreted(alloc, all.as_slice())?;
    let mut out = Items::new(alloc);
    add_live_names(alloc, components.as_slice(), &mut out)?;
    Ok(out)
}

/// The names of a topology that a picture shows.
pub fn shown_names(alloc: Global, topology: &Topology) -> Result<Shown, NoMemory>
    ensures { IfOk result (λ shown. shown ≡ law.shown_of topology.now) }
{
    let pcms = shown_pcms(alloc, topology)?;
    let controls = live_names(alloc, topology)?;
    Ok(Shown { pcms, controls })
}

/// The name of the live control of the component of an id; no bytes where there is none.
pub fn live_name_at(shown: &Shown, id: u32) -> &[u8]
    ensures { result.now ≡ law.live_name_at shown.now id }
{
    match shown.controls.items().get(id as usize) {
        Some(name) => name.items(),
        None => &[],
    }
}
