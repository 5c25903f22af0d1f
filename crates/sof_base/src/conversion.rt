// Samples between their bytes and the inner number, whose full scale is the whole range of an `i32`.
ghost use Rattle.std.specs.Prelude.{◌≡◌, length};
ghost use Rattle.sof_base.specs.Samples.{sat, rounded, width, sample_in_of, sample_out_of};

use crate::fields::{half, word};
use crate::format::{Format, Sample};
use byteorder::{ByteOrder, LittleEndian};

/// The number held to the range of an `i32`.
pub fn sat32(x: i64) -> i32
    ensures { result ≡ sat 32 x }
{
    if x > 2147483647 {
        i32::MAX
    } else if x < -2147483648 {
        i32::MIN
    } else {
        x as i32
    }
}

/// The inner sample that these bytes are in a format.
pub fn sample_in(format: Format, bytes: &[u8]) -> Sample
    requires { length bytes.now ≡ width format }
    ensures { result ≡ sample_in_of format bytes.now 0 }
{
    match format {
        Format::S16 => (u32::from(half(bytes, 0)) * 65536).cast_signed(),
        Format::S24 => (word(bytes, 0) % 16777216 * 256).cast_signed(),
        Format::S32 => word(bytes, 0).cast_signed(),
    }
}

/// Writes an inner sample as the bytes of a format, rounded to the nearest and held to the format's range.
pub fn sample_out(format: Format, x: Sample, bytes: &mut [u8])
    requires { length bytes.old ≡ width format }
    ensures { bytes.new ≡ sample_out_of format x }
{
    match format {
        Format::S16 => LittleEndian::write_i16(bytes, half_out(x)),
        Format::S24 => LittleEndian::write_i32(bytes, low_out(x)),
        Format::S32 => LittleEndian::write_i32(bytes, x),
    }
}

/// The upper 16 bits of a sample, rounded to the nearest and held.
fn half_out(x: Sample) -> i16
    ensures { result ≡ sat 16 (rounded 16 x) }
{
    let nearest = (i64::from(x) + 32768).div_euclid(65536);
    if nearest > 32767 {
        i16::MAX
    } else {
        nearest as i16
    }
}

/// The upper 24 bits of a sample, rounded to the nearest and held.
fn low_out(x: Sample) -> i32
    ensures { result ≡ sat 24 (rounded 8 x) }
{
    let nearest = (i64::from(x) + 128).div_euclid(256);
    if nearest > 8388607 {
        8388607
    } else {
        nearest as i32
    }
}
