// What a demux keeps of samples, by a mask.
ghost use Rattle.std.specs.Prelude.{◌≡◌, ◌+◌, ◌%◌, ◌≤◌, ◌++◌, take, drop, length};
ghost use Rattle.std.specs.List.{AllByRecursion};
ghost use Rattle.std.specs.Simd.Lanes.{zip2};
ghost use Rattle.sof_base.specs.Masks.{has_bit, kept_sample};
ghost use Rattle.fw_demux.specs.Splits.{all_kept, keep_of, kept_by, eight_keeps, IsKeep};

use sof_base::Sample;
use std::simd::prelude::*;

/// Writes into `y` each sample of `x` whose channel's bit of the mask is 1, and 0 for each other. Samples lie frame after frame, one of
/// each of 1 to 8 channels; bit 0 is that of the first channel.
pub fn split(x: &[Sample], y: &mut [Sample], channels: u8, mask: u32)
    requires lengths { length x.now ≡ length y.old }
    requires channels { (1 ≤ channels) × (channels ≤ 8) }
    requires frames { length x.now % channels ≡ 0 }
    requires mask { mask ≤ 255 }
    ensures { y.new ≡ all_kept channels mask x.now }
{
    if 8 % channels == 0 {
        keep_eights(x, y, channels, mask);
    } else {
        keep_each(x, y, channels, mask);
    }
}

// The same where eight samples are whole frames.
fn keep_eights(x: &[Sample], y: &mut [Sample], channels: u8, mask: u32)
    requires lengths { length x.now ≡ length y.old }
    requires channels { (1 ≤ channels) × (channels ≤ 8) }
    requires frames { 8 % channels ≡ 0 }
    ensures { y.new ≡ all_kept channels mask x.now }
{
    let whole = x.len() / 8 * 8;
    let (near, far) = x.split_at(whole);
    let (front, back) = y.split_at_mut(whole);
    keep_lanes(near, front, channels, mask);
    keep_each(far, back, channels, mask);
}

// The same where there are eights of them.
fn keep_lanes(x: &[Sample], y: &mut [Sample], channels: u8, mask: u32)
    requires lengths { length x.now ≡ length y.old }
    requires eights { length x.now % 8 ≡ 0 }
    requires channels { (1 ≤ channels) × (channels ≤ 8) }
    requires frames { 8 % channels ≡ 0 }
    ensures { y.new ≡ all_kept channels mask x.now }
{
    let keeps = keeps_of(channels, mask);
    for k in 0..x.len() / 8 {
        keep_eight(x, y, 8 * k, &keeps);
    }
}

// For each of eight samples that begin at the first channel -1 where it is kept, all of whose bits are 1, else 0.
fn keeps_of(channels: u8, mask: u32) -> [i32; 8]
    requires { (1 ≤ channels) × (channels ≤ 8) }
    ensures { result ≡ eight_keeps channels mask }
{
    let mut keeps = [0; 8];
    let mut channel = 0;
    for k in 0..8 {
        keeps[k] = keep_of(mask, channel);
        channel += 1;
        if channel == channels {
            channel = 0;
        }
    }
    keeps
}

// -1 where the samples of a channel are kept, else 0.
fn keep_of(mask: u32, channel: u8) -> i32
    requires { channel ≤ 8 }
    ensures { result ≡ keep_of mask channel }
{
    if is_kept(mask, channel) { -1 } else { 0 }
}

// Whether the samples of a channel are kept.
fn is_kept(mask: u32, channel: u8) -> bool
    requires { channel ≤ 8 }
    ensures { result ≡ has_bit mask channel }
{
    (mask >> u32::from(channel)) & 1 == 1
}

// Writes eight samples from a place on, each where it is kept.
fn keep_eight(x: &[Sample], y: &mut [Sample], at: usize, keeps: &[i32; 8])
    requires there { (at + 8 ≤ length x.now) × (at + 8 ≤ length y.old) }
    requires keeps { AllByRecursion IsKeep keeps.now }
    ensures { take (at + 8) y.new ≡ take at y.old ++ zip2 kept_by keeps.now (take 8 (drop at x.now)) }
{
    let eight = i32x8::from_array([
        x[at],
        x[at + 1],
        x[at + 2],
        x[at + 3],
        x[at + 4],
        x[at + 5],
        x[at + 6],
        x[at + 7],
    ]);
    let made = eight & i32x8::from_array(*keeps);
    made.copy_to_slice(&mut y[at..]);
}

// The same one by one.
fn keep_each(x: &[Sample], y: &mut [Sample], channels: u8, mask: u32)
    requires lengths { length x.now ≡ length y.old }
    requires channels { (1 ≤ channels) × (channels ≤ 8) }
    ensures { y.new ≡ all_kept channels mask x.now }
{
    let mut channel = 0;
    for (i, sample) in x.iter().enumerate() {
        y[i] = keep(*sample, mask, channel);
        channel += 1;
        if channel == channels {
            channel = 0;
        }
    }
}

// A sample of a channel where it is kept, else 0.
fn keep(sample: Sample, mask: u32, channel: u8) -> Sample
    requires { channel ≤ 8 }
    ensures { result ≡ kept_sample mask channel sample }
{
    if is_kept(mask, channel) { sample } else { 0 }
}
