// PCMs.
ghost use Rattle.std.specs.Prelude.{◌≡◌, ◌++◌, Some, OnOk};
ghost use Rattle.std.specs.List.{flat_map};
ghost use Rattle.tplg_build.specs.PcmForm as form;
ghost use Rattle.tplg_source.specs.Carried as law;

use crate::names::{is_text, name_or, pcm_word};
use sof_base::{Items, Name44, NoMemory};
use tplg_build::{PcmLimits, SourcePcm};
use tplg_model::{Caps, Pcm};
use tplg_same::{limits_in, same_limits};

fn no_limits() -> PcmLimits
    ensures { result ≡ form.no_limits }
{
    PcmLimits {
        formats: 0,
        rate_min: 0,
        rate_max: 0,
        channels_min: 0,
        channels_max: 0,
    }
}

// The name of a direction that is there.
fn carried_side(flag: u32, caps: &Caps) -> Option<Name44>
    ensures { result ≡ law.carried_side flag caps.now }
{
    if flag == 0 && caps.name.as_bytes().is_empty() {
        return None;
    }
    if !is_text(caps.name.as_bytes()) {
        return None;
    }
    Some(caps.name.copied())
}

fn carried_entry(
    pcm: &Pcm,
    limits: PcmLimits,
    playback: Option<Name44>,
    capture: Option<Name44>,
) -> SourcePcm
    ensures { result ≡ law.carried_entry pcm.now limits playback capture }
{
    SourcePcm {
        name: name_or(&pcm_word(), &pcm.name),
        id: pcm.pcm_id,
        limits,
        playback,
        capture,
    }
}

// Both directions of a PCM: two entries where their limits are not the same.
fn put_both(
    pcm: &Pcm,
    play: Name44,
    capture: Name44,
    out: &mut Items<SourcePcm>,
) -> Result<(), NoMemory>
    ensures { OnOk result (out.new ≡ out.old ++ law.entries_of_sides pcm.now (Some play) (Some capture)) }
{
    let limits = limits_in(&pcm.play);
    let others = limits_in(&pcm.cap);
    if same_limits(&limits, &others) {
        return out.push(carried_entry(pcm, limits, Some(play), Some(capture)));
    }
    out.push(carried_entry(pcm, limits, Some(play), None))?;
    out.push(carried_entry(pcm, others, None, Some(capture)))
}

fn put_sides(
    pcm: &Pcm,
    playback: Option<Name44>,
    capture: Option<Name44>,
    out: &mut Items<SourcePcm>,
) -> Result<(), NoMemory>
    ensures { OnOk result (out.new ≡ out.old ++ law.entries_of_sides pcm.now playback capture) }
{
    match (playback, capture) {
        (None, None) => out.push(carried_entry(pcm, no_limits(), None, None)),
        (Some(play), None) => {
            out.push(carried_entry(pcm, limits_in(&pcm.play), Some(play), None))
        }
        (None, Some(cap)) => out.push(carried_entry(pcm, limits_in(&pcm.cap), None, Some(cap))),
        (Some(play), Some(cap)) => put_both(pcm, play, cap, out),
    }
}

// The entries of a PCM.
#[tactic(auto, unfolding(crate::specs::Carried::pcm_entries))]
fn put_pcm(pcm: &Pcm, out: &mut Items<SourcePcm>) -> Result<(), NoMemory>
    ensures { OnOk result (out.new ≡ out.old ++ law.pcm_entries pcm.now) }
{
    let playback = carried_side(pcm.playback, &pcm.play);
    let capture = carried_side(pcm.capture, &pcm.cap);
    put_sides(pcm, playback, capture, out)
}

/// The PCMs of a block.
pub fn put_pcms(pcms: &[Pcm], out: &mut Items<SourcePcm>) -> Result<(), NoMemory>
    ensures { OnOk result (out.new ≡ out.old ++ flat_map law.pcm_entries pcms.now) }
{
    for pcm in pcms {
        put_pcm(pcm, out)?;
    }
    Ok(())
}
