// What ticks write while streams start, pause, go on and stop.
ghost use Rattle.std.specs.Prelude.{◌≤◌, length};

use crate::messages::{S16, S32, amplified, capture, gains, mixed, mono, slow, stereo, thin};
use crate::steps::{INVALID, Step, done, played_with, silent, tick};
use ipc3_codec::Message;
use sof_io::Inputs;
use std::alloc::Global;
use std::test::Fail;

// An input of these bytes.
fn input(alloc: Global, slot: u32, bytes: &[u8]) -> Result<Inputs, Fail>
    requires { length bytes.now ≤ 1048576 }
{
    let mut io = Inputs::new(alloc)?;
    io.add(slot)?;
    io.fill(slot, bytes);
    io.end(slot);
    Ok(io)
}

// 96 samples of 16 bits with one value, and then 96 with another.
fn samples(first: u16, second: u16) -> [u8; 384] {
    let mut bytes = [0; 384];
    for k in 0..192 {
        let sample = if k < 96 { first } else { second };
        let [low, high] = sample.to_le_bytes();
        bytes[2 * k] = low;
        bytes[2 * k + 1] = high;
    }
    bytes
}

#[test]
fn a_stream_runs_from_its_start_to_its_stop(rt: HostRuntime) -> Result<(), Fail> {
    let steps = [
        done(stereo(0, 48000)),
        silent(1, 2),
        done(Message::TrigStart { id: 0 }),
        tick(2, 384, [0, 0, 1, 2, 0, 0, 3, 4, 0, 0, 5, 0]),
        done(Message::TrigStop { id: 0 }),
        done(Message::PcmFree { id: 0 }),
        silent(1, 2),
    ];
    let mut io = input(rt.alloc(), 0, &[1, 2, 3, 4, 5])?;
    played_with(&rt, rt.alloc(), 992, &thin(), &mut io, &steps)
}

// Two ticks of two channels: the first all 1, the second all 2.
fn ones_and_twos(alloc: Global) -> Result<Inputs, Fail> {
    input(alloc, 0, &samples(1, 2))
}

#[test]
fn a_stream_goes_on_behind_its_pause(rt: HostRuntime) -> Result<(), Fail> {
    let steps = [
        done(stereo(0, 48000)),
        done(Message::TrigStart { id: 0 }),
        tick(4, 384, [0, 0, 1, 0, 0, 0, 1, 0, 0, 0, 1, 0]),
        done(Message::TrigPause { id: 0 }),
        silent(3, 4),
        done(Message::TrigRelease { id: 0 }),
        tick(4, 384, [0, 0, 2, 0, 0, 0, 2, 0, 0, 0, 2, 0]),
    ];
    let mut io = ones_and_twos(rt.alloc())?;
    played_with(&rt, rt.alloc(), 1856, &amplified(S32), &mut io, &steps)
}

#[test]
fn a_pipeline_of_ten_ms_runs_at_each_tenth_tick(rt: HostRuntime) -> Result<(), Fail> {
    let steps = [
        done(stereo(0, 48000)),
        done(Message::TrigStart { id: 0 }),
        silent(9, 2),
        tick(2, 3840, [0, 0, 1, 0, 0, 0, 1, 0, 0, 0, 1, 0]),
        silent(9, 2),
        tick(2, 3840, [0; 12]),
    ];
    let mut io = ones_and_twos(rt.alloc())?;
    played_with(&rt, rt.alloc(), 4096, &slow(), &mut io, &steps)
}

#[test]
fn a_capture_gives_the_frames_of_its_dai_to_its_host(rt: HostRuntime) -> Result<(), Fail> {
    let steps = [
        done(mono(2)),
        done(Message::TrigStart { id: 2 }),
        tick(2, 192, [0, 0, 1, 2, 0, 0, 0, 0, 0, 0, 0, 0]),
    ];
    let mut io = input(rt.alloc(), 0, &[1, 2])?;
    played_with(&rt, rt.alloc(), 992, &capture(), &mut io, &steps)
}

#[test]
fn a_volume_multiplies_by_its_gain(rt: HostRuntime) -> Result<(), Fail> {
    let steps = [
        done(gains(2, 52056, 52056)),
        done(stereo(0, 48000)),
        done(Message::TrigStart { id: 0 }),
        tick(4, 192, [0xab, 0x65, 0, 0, 0, 0, 0, 0, 0, 0, 0, 0]),
    ];
    let mut io = input(rt.alloc(), 0, &[0xff, 0x7f])?;
    played_with(&rt, rt.alloc(), 1856, &amplified(S16), &mut io, &steps)
}

// Inputs of both hosts: one of 1000s, and one of ones.
fn inputs(alloc: Global) -> Result<Inputs, Fail> {
    let mut io = Inputs::new(alloc)?;
    io.add(0)?;
    io.add(6)?;
    io.fill(0, &samples(1000, 1000));
    io.end(0);
    io.fill(6, &samples(1, 1));
    io.end(6);
    Ok(io)
}

#[test]
fn a_mixer_adds_the_streams_that_run(rt: HostRuntime) -> Result<(), Fail> {
    let steps = [
        done(stereo(0, 48000)),
        done(stereo(6, 48000)),
        done(Message::TrigStart { id: 0 }),
        tick(2, 384, [0, 0, 0xe8, 3, 0, 0, 0xe8, 3, 0, 0, 0xe8, 3]),
        done(Message::TrigStart { id: 6 }),
        tick(2, 384, [0, 0, 0xe9, 3, 0, 0, 0xe9, 3, 0, 0, 0xe9, 3]),
    ];
    let mut io = inputs(rt.alloc())?;
    played_with(&rt, rt.alloc(), 4096, &mixed(), &mut io, &steps)
}

#[test]
fn a_mixer_refuses_a_second_rate(rt: HostRuntime) -> Result<(), Fail> {
    let steps = [
        done(stereo(0, 48000)),
        done(Message::TrigStart { id: 0 }),
        Step::Told(stereo(6, 16000), INVALID),
        Step::Told(Message::TrigStart { id: 6 }, INVALID),
        tick(2, 384, [0, 0, 0xe8, 3, 0, 0, 0xe8, 3, 0, 0, 0xe8, 3]),
    ];
    let mut io = inputs(rt.alloc())?;
    played_with(&rt, rt.alloc(), 4096, &mixed(), &mut io, &steps)
}
