// Samples one after the other, from words to their bytes: a loop for each format.
ghost use Rattle.std.specs.Prelude.{◌≡◌, ◌+◌, ◌*◌, ◌++◌, length};
ghost use Rattle.sof_base.specs.declared.format.Format.TheVariants.{S16, S24, S32};
ghost use Rattle.sof_base.specs.Samples.{width, frame_out};

use sof_base::{Format, Sample, sample_out};

/// Writes the samples of words in a format.
fn write_samples(format: Format, words: &[Sample], bytes: &mut [u8])
    requires { length bytes.old ≡ length words.now * width format }
    ensures { bytes.new ≡ frame_out format words.now }
{
    match format {
        Format::S16 => write_16(words, bytes),
        Format::S24 => write_24(words, bytes),
        Format::S32 => write_32(words, bytes),
    }
}

/// Writes the samples of words and of those after them.
pub(crate) fn write_both(format: Format, front: &[Sample], back: &[Sample], bytes: &mut [u8])
    requires { length bytes.old ≡ (length front.now + length back.now) * width format }
    ensures { bytes.new ≡ frame_out format (front.now ++ back.now) }
{
    let (near, far) = bytes.split_at_mut(front.len() * format.width());
    write_samples(format, front, near);
    if !back.is_empty() {
        write_samples(format, back, far);
    }
}

fn write_16(words: &[Sample], bytes: &mut [u8])
    requires { length bytes.old ≡ length words.now * 2 }
    ensures { bytes.new ≡ frame_out S16 words.now }
{
    let mut at = 0;
    for word in words {
        sample_out(Format::S16, *word, &mut bytes[at..at + 2]);
        at += 2;
    }
}

fn write_24(words: &[Sample], bytes: &mut [u8])
    requires { length bytes.old ≡ length words.now * 4 }
    ensures { bytes.new ≡ frame_out S24 words.now }
{
    let mut at = 0;
    for word in words {
        sample_out(Format::S24, *word, &mut bytes[at..at + 4]);
        at += 4;
    }
}

fn write_32(words: &[Sample], bytes: &mut [u8])
    requires { length bytes.old ≡ length words.now * 4 }
    ensures { bytes.new ≡ frame_out S32 words.now }
{
    let mut at = 0;
    for word in words {
        sample_out(Format::S32, *word, &mut bytes[at..at + 4]);
        at += 4;
    }
}
