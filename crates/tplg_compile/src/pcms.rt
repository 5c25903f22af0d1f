// PCMs.
ghost use Rattle.std.specs.Prelude.{◌≡◌};
ghost use Rattle.toml.specs.View.{view, table_view};
ghost use Rattle.tplg_compile.specs.EntryOutcomes.{Finds};
ghost use Rattle.tplg_compile.specs.ValueForm.{required_at};
ghost use Rattle.tplg_compile.specs.Entries as entries;

use crate::entry::{filled_at, needed, number_at, only, optional_name_at};
use crate::entry_fault::EntryFault;
use crate::keys::PCM_KEYS;
use toml::{Table, Value};
use tplg_build::{PcmLimits, SourcePcm};

// The bit of a format.
fn bit_named(text: &[u8]) -> Option<u64>
    ensures { result ≡ entries.bit_named text.now }
{
    match text {
        b"s16le" => Some(1 << 2),
        b"s24le" => Some(1 << 6),
        b"s32le" => Some(1 << 10),
        _ => None,
    }
}

// The bit of the format that a value names.
#[tactic(auto, unfolding(crate::specs::Entries::bit_of))]
fn bit(value: &Value) -> Result<u64, EntryFault>
    ensures { Finds (λ x. x) result (entries.bit_of (view value.now)) }
{
    let Some(text) = value.as_str() else {
        return Err(EntryFault::Misfit);
    };
    match bit_named(text.as_bytes()) {
        Some(bit) => Ok(bit),
        None => Err(EntryFault::Misfit),
    }
}

// The bits of formats.
#[tactic(auto, unfolding(crate::specs::Entries::formats_of))]
fn formats(value: &Value) -> Result<u64, EntryFault>
    ensures { Finds (λ x. x) result (entries.formats_of (view value.now)) }
{
    let Some(array) = value.as_array() else {
        return Err(EntryFault::Misfit);
    };
    let mut bits = 0;
    for value in array {
        bits |= bit(value)?;
    }
    Ok(bits)
}

// The formats at a key.
#[tactic(auto, unfolding(crate::specs::ValueForm::required_at))]
fn formats_at(entry: &Table, key: &str) -> Result<u64, EntryFault>
    ensures { Finds (λ x. x) result (required_at entries.formats_of key.now (table_view entry.now)) }
{
    formats(needed(entry, key)?)
}

// The formats, rates and channels of an entry.
#[tactic(auto, unfolding(crate::specs::Entries::limits_of))]
fn limits_at(entry: &Table) -> Result<PcmLimits, EntryFault>
    ensures { Finds (λ x. x) result (entries.limits_of (table_view entry.now)) }
{
    let formats = formats_at(entry, "formats")?;
    let rate_min = number_at(entry, "rate_min")?;
    let rate_max = number_at(entry, "rate_max")?;
    let channels_min = number_at(entry, "channels_min")?;
    let channels_max = number_at(entry, "channels_max")?;
    Ok(PcmLimits {
        formats,
        rate_min,
        rate_max,
        channels_min,
        channels_max,
    })
}

/// The PCM that an entry states.
#[tactic(auto, unfolding(crate::specs::Entries::stated_pcm))]
pub fn pcm(entry: &Table) -> Result<SourcePcm, EntryFault>
    ensures { Finds (λ x. x) result (entries.stated_pcm (table_view entry.now)) }
{
    only(entry, &PCM_KEYS)?;
    let name = filled_at(entry, "name")?;
    let id = number_at(entry, "id")?;
    let limits = limits_at(entry)?;
    let playback = optional_name_at(entry, "playback")?;
    let capture = optional_name_at(entry, "capture")?;
    Ok(SourcePcm {
        name,
        id,
        limits,
        playback,
        capture,
    })
}
