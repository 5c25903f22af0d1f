// What a new component is, by the words of its message.
ghost use Rattle.std.specs.Prelude.{◌≡◌, ◌≤◌, replicate, false};
ghost use Rattle.sof_base.specs.Holes.{rounded};
ghost use Rattle.mbox_link.specs.Step.{comp_bytes, sample_format, kind_of as named_kind, first_setting as named_setting, first_ramp as named_ramp};
ghost use Rattle.ipc3_model.specs.Meanings.{IsKind};
ghost use Rattle.fw_units.specs.Units.{is_buffer, is_pipeline, kind_by, setting_by, ramp_by};
ghost use Rattle.fw_components.specs.Changes.{IsNew};
ghost use Rattle.fw_core.specs.Making.{IsIn};

use eq_biquad::Eq;
use fw_components::Unit;
use fw_heap::Piece;
use ipc3_codec::CompWords;
use sof_base::{Bounded, Format, ramp_of};
use stream_law::Phase;

/// A new component by the words of its message: a host is Idle, each gain of a volume is 1 with the ramp of its words, a mux chooses its
/// first input, no blob is in force, and a demux keeps all channels for each output.
pub(crate) fn unit_of(words: CompWords, frame_fmt: u32, piece: Piece) -> Unit
    requires words { IsKind words frame_fmt }
    requires size { piece.size ≡ rounded (comp_bytes (named_kind words frame_fmt)) }
    ensures kind { kind_by result ≡ named_kind words frame_fmt }
    ensures setting { setting_by result ≡ named_setting words }
    ensures ramp { ramp_by result ≡ named_ramp words }
    ensures piece { IsIn piece result }
    ensures new { IsNew result }
    ensures plain { (is_buffer result ≡ false) × (is_pipeline result ≡ false) }
{
    match words {
        CompWords::Host { direction } => Unit::Host {
            capture: direction != 0,
            phase: Phase::Idle,
            params: None,
            piece,
        },
        CompWords::Dai { direction, .. } => Unit::Dai {
            capture: direction != 0,
            format: frame_format(frame_fmt),
            piece,
        },
        CompWords::Volume {
            channels,
            ramp,
            initial_ramp,
            ..
        } => Unit::Volume {
            gains: first_gains(channels),
            ramp: ramp_of(ramp, initial_ramp),
            from: first_gains(channels),
            done: 0,
            length: 0,
            piece,
        },
        CompWords::Mixer => Unit::Mixer { piece },
        CompWords::Mux => Unit::Mux { choice: 0, piece },
        CompWords::Eq => Unit::Eq {
            eq: Eq::in_piece(piece),
            next: 0,
            remaining: 0,
        },
        CompWords::Demux => Unit::Demux {
            masks: first_masks(),
            piece,
        },
    }
}

// A gain of 1 for each of so many channels.
fn first_gains(channels: u32) -> Bounded<u32, 8>
    requires { channels ≤ 8 }
    ensures { result ≡ replicate channels 65536 }
{
    let gains = [65536; 8];
    match Bounded::new(&gains[..channels as usize]) {
        Some(gains) => gains,
        // Never so: there are at most 8.
        None => Bounded::empty(),
    }
}

// A mask of all 8 channels for each of 8 outputs.
fn first_masks() -> Bounded<u32, 8>
    ensures { result ≡ replicate 8 255 }
{
    match Bounded::new(&[255; 8]) {
        Some(masks) => masks,
        // Never so: there are 8.
        None => Bounded::empty(),
    }
}

// The sample format of a frame format: 0 for 16 bits, 1 for 24 bits in 4 bytes, and 32 bits for the rest.
fn frame_format(number: u32) -> Format
    ensures { result ≡ sample_format number }
{
    match number {
        0 => Format::S16,
        1 => Format::S24,
        _ => Format::S32,
    }
}
