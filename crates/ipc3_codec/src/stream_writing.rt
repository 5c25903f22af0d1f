// PCM_PARAMS as bytes.
ghost use Rattle.std.specs.Prelude.{◌≡◌, ◌≤◌, ◌+◌, ◌++◌, take, nat_lt, if◌then◌else◌};
ghost use Rattle.sof_base.specs.Cells.{written};
ghost use Rattle.sof_base.specs.Slots.{slots_cells};
ghost use Rattle.ipc3_model.specs.Messages.{message_spelling};
ghost use Rattle.ipc3_model.specs.StreamWords as streams;
ghost use Rattle.ipc3_model.specs.declared.message.Message.TheVariants as messages;

use crate::written_words::{put, put_halves};
use ipc3_model::command::CommandWord;
use sof_base::{Format, Params};

/// How many bytes of a sample carry it.
fn valid_bytes(format: Format) -> u16
    ensures { result ≡ streams.valid_bytes format }
{
    match format {
        Format::S16 => 2,
        Format::S24 => 3,
        Format::S32 => 4,
    }
}

/// How many bytes the host takes in a millisecond, modulo 2^32.
fn host_period_bytes(params: Params) -> u32
    ensures { result ≡ streams.host_period_bytes params }
{
    let samples = params.rate / 1000 * u32::from(params.channels);
    samples.wrapping_mul(params.format.width() as u32)
}

/// The channel itself, or 0 where the stream has no such channel.
fn mapped(channel: u16, channels: u8) -> u16
    ensures { result ≡ (if nat_lt channel channels then channel else 0) }
{
    if channel < u16::from(channels) {
        channel
    } else {
        0
    }
}

/// Writes the channel map, 16 bytes.
#[tactic(auto, unfolding(crate::specs::Writing::halves_bytes, sof_base::specs::Slots::slots_cells, sof_base::specs::Slots::slot_cells))]
fn put_channel_map(out: &mut [u8; 384], at: usize, channels: u8) -> usize
    requires { at + 16 ≤ 384 }
    ensures end { result ≡ at + 16 }
    ensures bytes { take result out.new ≡ take at out.old ++ written (slots_cells (streams.channel_map_slots channels)) }
{
    let map = [
        mapped(0, channels),
        mapped(1, channels),
        mapped(2, channels),
        mapped(3, channels),
        mapped(4, channels),
        mapped(5, channels),
        mapped(6, channels),
        mapped(7, channels),
    ];
    put_halves(out, at, &map)
}

/// Writes the words of stream_params between its host buffer and its channel map, 36 bytes.
#[tactic(auto, unfolding(sof_base::specs::Slots::words_bytes, crate::specs::Writing::halves_bytes, sof_base::specs::Slots::slots_cells, sof_base::specs::Slots::slot_cells))]
fn put_format(out: &mut [u8; 384], at: usize, direction: u32, params: Params) -> usize
    requires { at + 36 ≤ 384 }
    ensures end { result ≡ at + 36 }
    ensures bytes { take result out.new ≡ take at out.old ++ written (slots_cells (streams.format_slots direction params)) }
{
    let at = put(
        out,
        at,
        &[direction, params.format.number(), 0, params.rate],
    );
    let valid = valid_bytes(params.format);
    let container = params.format.width() as u16;
    let at = put_halves(out, at, &[0, u16::from(params.channels), valid, container]);
    put(out, at, &[host_period_bytes(params), 0, 0])
}

/// Writes stream_params, 84 bytes.
#[tactic(auto, unfolding(sof_base::specs::Slots::words_bytes, sof_base::specs::Slots::slots_cells, sof_base::specs::Slots::slot_cells))]
fn put_stream(out: &mut [u8; 384], at: usize, direction: u32, params: Params) -> usize
    requires { at + 84 ≤ 384 }
    ensures end { result ≡ at + 84 }
    ensures bytes { take result out.new ≡ take at out.old ++ written (slots_cells (streams.stream_slots direction params)) }
{
    let at = put(out, at, &[84, 28, 0, 0, 0, 0, 0, 0]);
    let at = put_format(out, at, direction, params);
    put_channel_map(out, at, params.channels)
}

/// PCM_PARAMS, 108 bytes.
#[tactic(auto, unfolding(sof_base::specs::Slots::words_bytes, sof_base::specs::Slots::slots_cells, sof_base::specs::Slots::slot_cells))]
pub fn put_params(out: &mut [u8; 384], host: u32, direction: u32, params: Params) -> usize
    ensures end { result ≡ 108 }
    ensures bytes { take result out.new ≡ message_spelling (messages.PcmParams host direction params) }
{
    let at = put(
        out,
        0,
        &[108, CommandWord::PcmParams.number(), host, 0, 0, 0],
    );
    put_stream(out, at, direction, params)
}
