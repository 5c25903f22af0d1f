// Samples one after the other, from their bytes to words: a loop for each format.
ghost use Rattle.std.specs.Prelude.{◌≡◌, ◌*◌, length};
ghost use Rattle.sof_base.specs.declared.format.Format.TheVariants.{S16, S24, S32};
ghost use Rattle.sof_base.specs.Samples.{width, frame_in};

use sof_base::{Format, Sample, sample_in};

/// Reads samples of a format, one for each word.
pub(crate) fn read_samples(format: Format, bytes: &[u8], words: &mut [Sample])
    requires { length bytes.now ≡ length words.old * width format }
    ensures { words.new ≡ frame_in format (length words.old) bytes.now 0 }
{
    match format {
        Format::S16 => read_16(bytes, words),
        Format::S24 => read_24(bytes, words),
        Format::S32 => read_32(bytes, words),
    }
}

fn read_16(bytes: &[u8], words: &mut [Sample])
    requires { length bytes.now ≡ length words.old * 2 }
    ensures { words.new ≡ frame_in S16 (length words.old) bytes.now 0 }
{
    let mut at = 0;
    for word in words.iter_mut() {
        *word = sample_in(Format::S16, &bytes[at..at + 2]);
        at += 2;
    }
}

fn read_24(bytes: &[u8], words: &mut [Sample])
    requires { length bytes.now ≡ length words.old * 4 }
    ensures { words.new ≡ frame_in S24 (length words.old) bytes.now 0 }
{
    let mut at = 0;
    for word in words.iter_mut() {
        *word = sample_in(Format::S24, &bytes[at..at + 4]);
        at += 4;
    }
}

fn read_32(bytes: &[u8], words: &mut [Sample])
    requires { length bytes.now ≡ length words.old * 4 }
    ensures { words.new ≡ frame_in S32 (length words.old) bytes.now 0 }
{
    let mut at = 0;
    for word in words.iter_mut() {
        *word = sample_in(Format::S32, &bytes[at..at + 4]);
        at += 4;
    }
}
