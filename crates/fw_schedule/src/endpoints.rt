// Endpoints move frames between their bytes and buffers.
ghost use Rattle.std.specs.Prelude.{◌≡◌, ◌==◌, ◌+◌, ◌*◌, ◌/◌, ◌≤◌, Some, take, replicate, length, position};
ghost use Rattle.sof_base.specs.Samples.{width, frames_in, frames_out};
ghost use Rattle.sof_io.specs.Takes.{bytes_given, taken as input_taken};
ghost use Rattle.sof_io.specs.Puts.{room_at, with_piece};
ghost use Rattle.fw_components.specs.Tables.{held_frames, capacity_at};
ghost use Rattle.fw_components.specs.Frames.{words_at, channels_at, with_taken, pushed};

use crate::scratch::{MOST, Scratch, ZEROS};
use crate::steps::Step;
use fw_components::Registry;
use sof_io::{Inputs, Outputs};

/// The input of a step gives `n` frames to a buffer.
pub(crate) fn feed_frames(
    registry: &mut Registry,
    io: &mut Inputs,
    scratch: &mut Scratch,
    step: &Step,
    buffer: u32,
    at: usize,
    n: u32,
)
    requires channels { (1 ≤ step.now.channels) × (step.now.channels ≤ 8) }
    requires place { Some at ≡ position (λ c. c.id == buffer) registry.old.buffers }
    requires shape { channels_at registry.old buffer ≡ step.now.channels }
    requires fit { length (held_frames registry.old buffer) + n ≤ capacity_at registry.old buffer }
    ensures tables { registry.new ≡ pushed buffer (frames_in step.now.format step.now.channels (bytes_given step.now.id (n * (step.now.channels * width step.now.format)) io.old) 0 n) (words_at registry.new buffer) registry.old }
    ensures inputs { io.new ≡ input_taken step.now.id (n * (step.now.channels * width step.now.format)) io.old }
{
    let count = n as usize * usize::from(step.channels);
    if count <= MOST {
        feed_some(registry, io, scratch, step, buffer, at, n);
    } else {
        feed_parts(registry, io, scratch, step, buffer, at, n);
    }
}

// The same part by part. It stands apart, since few moves are so long.
#[inline(never)]
fn feed_parts(
    registry: &mut Registry,
    io: &mut Inputs,
    scratch: &mut Scratch,
    step: &Step,
    buffer: u32,
    at: usize,
    n: u32,
)
    requires channels { (1 ≤ step.now.channels) × (step.now.channels ≤ 8) }
    requires place { Some at ≡ position (λ c. c.id == buffer) registry.old.buffers }
    requires shape { channels_at registry.old buffer ≡ step.now.channels }
    requires fit { length (held_frames registry.old buffer) + n ≤ capacity_at registry.old buffer }
    ensures tables { registry.new ≡ pushed buffer (frames_in step.now.format step.now.channels (bytes_given step.now.id (n * (step.now.channels * width step.now.format)) io.old) 0 n) (words_at registry.new buffer) registry.old }
    ensures inputs { io.new ≡ input_taken step.now.id (n * (step.now.channels * width step.now.format)) io.old }
{
    let most = most_frames(step.channels);
    let mut fed = n.min(most);
    feed_some(registry, io, scratch, step, buffer, at, fed);
    while fed < n {
        let more = (n - fed).min(most);
        feed_some(registry, io, scratch, step, buffer, at, more);
        fed += more;
    }
}

// The same for no more than there is room for.
fn feed_some(
    registry: &mut Registry,
    io: &mut Inputs,
    scratch: &mut Scratch,
    step: &Step,
    buffer: u32,
    at: usize,
    n: u32,
)
    requires channels { (1 ≤ step.now.channels) × (step.now.channels ≤ 8) }
    requires few { n * step.now.channels ≤ 1536 }
    requires place { Some at ≡ position (λ c. c.id == buffer) registry.old.buffers }
    requires shape { channels_at registry.old buffer ≡ step.now.channels }
    requires fit { length (held_frames registry.old buffer) + n ≤ capacity_at registry.old buffer }
    ensures tables { registry.new ≡ pushed buffer (frames_in step.now.format step.now.channels (bytes_given step.now.id (n * (step.now.channels * width step.now.format)) io.old) 0 n) (words_at registry.new buffer) registry.old }
    ensures inputs { io.new ≡ input_taken step.now.id (n * (step.now.channels * width step.now.format)) io.old }
{
    let size = n as usize * usize::from(step.channels) * step.format.width();
    let given = io.peek(step.id, &mut scratch.bytes[..size]);
    registry.push_bytes(buffer, at, step.format, n, given);
    io.skip(step.id, size);
}

/// A buffer gives `n` frames to the output of a step.
pub(crate) fn drain_frames(
    registry: &mut Registry,
    out: &mut Outputs,
    step: &Step,
    buffer: u32,
    at: usize,
    n: u32,
)
    requires place { Some at ≡ position (λ c. c.id == buffer) registry.old.buffers }
    requires shape { channels_at registry.old buffer ≡ step.now.channels }
    requires held { n ≤ length (held_frames registry.old buffer) }
    requires room { n * (step.now.channels * width step.now.format) ≤ room_at step.now.id out.old }
    ensures tables { registry.new ≡ with_taken buffer n registry.old }
    ensures size { length (frames_out step.now.format (take n (held_frames registry.old buffer))) ≡ n * (step.now.channels * width step.now.format) }
    ensures outputs { out.new ≡ with_piece step.now.id (frames_out step.now.format (take n (held_frames registry.old buffer))) out.old }
{
    let (front, back) = registry.spans(buffer, at, n);
    out.put_samples(step.id, step.format, front, back);
    registry.shorten(buffer, at, n);
}

/// An output gets so many zeros.
pub(crate) fn fill(out: &mut Outputs, id: u32, size: usize)
    requires { size ≤ room_at id out.old }
    ensures { out.new ≡ with_piece id (replicate size 0) out.old }
{
    if size == 0 {
        return;
    }
    let zeros = [0; ZEROS];
    let mut filled = size.min(ZEROS);
    out.put(id, &zeros[..filled]);
    while filled < size {
        let more = (size - filled).min(ZEROS);
        out.put(id, &zeros[..more]);
        filled += more;
    }
}

// How many frames of so many channels there is room for: one or two channels, as most streams have, take no division.
fn most_frames(channels: u8) -> u32
    requires { (1 ≤ channels) × (channels ≤ 8) }
    ensures { result ≡ 1536 / channels }
{
    match channels {
        1 => MOST as u32,
        2 => MOST as u32 / 2,
        _ => (MOST / usize::from(channels)) as u32,
    }
}
