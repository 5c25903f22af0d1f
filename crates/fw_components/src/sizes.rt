// How many bytes components take.
ghost use Rattle.std.specs.Prelude.{◌≡◌, ℕ, ◌<◌, ◌≤◌};
ghost use Rattle.mbox_link.specs.Step.{comp_bytes, kind_of as named_kind};

use ipc3_model::CompWords;

/// The stated size of a component, in bytes, whatever its frame format.
pub fn bytes_of(words: CompWords) -> u32
    ensures size { (frame_fmt : ℕ) → result ≡ comp_bytes (named_kind words frame_fmt) }
    ensures some { (0 < result) × (result ≤ 4160) }
{
    match words {
        CompWords::Host { .. } | CompWords::Dai { .. } | CompWords::Volume { .. } => 64,
        CompWords::Mixer | CompWords::Mux | CompWords::Demux => 32,
        CompWords::Eq => 4160,
    }
}
