// The caps of a topology's PCMs.
ghost use Rattle.std.specs.Prelude.{◌≡◌, ◌++◌, map, find, is_some, not, Some, None, IfOk, OnOk, option_and_then, slice_get};
ghost use Rattle.std.specs.Option.{option_map};
ghost use Rattle.std.specs.List.{list_any};
ghost use Rattle.std.specs.Str.{bytes_eq};
ghost use Rattle.tplg_widgets.specs.PcmList as law;

use std::alloc::{AllocError, Global};
use tplg_model::{Block, Body, Caps, Pcm, Topology};

/// What a PCM can do in each direction.
#[derive(Debug, Drop)]
pub struct PcmCaps {
    pub play: Caps,
    pub capture: Caps,
}

/// The same caps again.
fn caps_again(caps: &Caps) -> Caps
    ensures { result ≡ caps.now }
{
    Caps {
        name: caps.name.copied(),
        formats: caps.formats,
        rates: caps.rates,
        rate_min: caps.rate_min,
        rate_max: caps.rate_max,
        channels_min: caps.channels_min,
        channels_max: caps.channels_max,
        periods_min: caps.periods_min,
        periods_max: caps.periods_max,
        period_size_min: caps.period_size_min,
        period_size_max: caps.period_size_max,
        buffer_size_min: caps.buffer_size_min,
        buffer_size_max: caps.buffer_size_max,
        sig_bits: caps.sig_bits,
    }
}

fn both_caps(pcm: &Pcm) -> PcmCaps
    ensures { result ≡ law.both_caps pcm.now }
{
    PcmCaps {
        play: caps_again(&pcm.play),
        capture: caps_again(&pcm.cap),
    }
}

fn add_pcms(pcms: &[Pcm], out: &mut Vec<PcmCaps>) -> Result<(), AllocError>
    ensures { OnOk result (out.new.items ≡ out.old.items ++ map law.both_caps pcms.now) }
{
    for pcm in pcms {
        out.push(both_caps(pcm))?;
    }
    Ok(())
}

fn add_block(block: &Block, out: &mut Vec<PcmCaps>) -> Result<(), AllocError>
    ensures { OnOk result (out.new.items ≡ out.old.items ++ law.caps_in block.now) }
{
    match &block.body {
        Body::Pcms(pcms) => add_pcms(pcms.items(), out),
        _ => Ok(()),
    }
}

/// The caps of the PCMs in file order.
pub fn pcm_caps(alloc: Global, topology: &Topology) -> Result<Vec<PcmCaps>, AllocError>
    ensures { IfOk result (λ ps. ps.items ≡ law.pcms_of topology.now) }
{
    let mut out = Vec::new(alloc);
    for block in topology.blocks.items() {
        add_block(block, &mut out)?;
    }
    Ok(out)
}

/// The caps of a direction.
fn caps_of_side(pcm: &PcmCaps, capture: bool) -> &Caps
    ensures { result.now ≡ law.caps_of_side capture pcm.now }
{
    if capture { &pcm.capture } else { &pcm.play }
}

fn is_side_of(pcm: &PcmCaps, capture: bool, name: &[u8]) -> bool
    ensures { result ≡ law.is_side_of capture name.now pcm.now }
{
    name == caps_of_side(pcm, capture).name.as_bytes()
}

/// Whether some PCM's caps of a direction have a name.
pub fn has_caps(pcms: &[PcmCaps], capture: bool, name: &[u8]) -> bool
    ensures { result ≡ list_any (law.is_side_of capture name.now) pcms.now }
{
    pcms.iter().any(|p| is_side_of(p, capture, name))
}

/// The caps of the first PCM whose caps of a direction have a name.
pub fn caps_named(pcms: &[PcmCaps], capture: bool, name: &[u8]) -> Option<Caps>
    ensures { result ≡ law.caps_named pcms.now capture name.now }
{
    let pcm = pcms.iter().find(|p| is_side_of(*p, capture, name))?;
    Some(caps_again(caps_of_side(pcm, capture)))
}
