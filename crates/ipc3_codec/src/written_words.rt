// Words and bytes that are written after the first bytes of a message. Each call tells how many bytes there are then.
ghost use Rattle.std.specs.Prelude.{◌≡◌, ◌≤◌, ◌+◌, ◌*◌, ◌++◌, length, take};
ghost use Rattle.sof_base.specs.Cells.{written};
ghost use Rattle.sof_base.specs.Slots.{slots_cells, words_bytes};
ghost use Rattle.ipc3_model.specs.ControlWords.{value_slots};
ghost use Rattle.ipc3_codec.specs.Writing.{halves_bytes};

use byteorder::{ByteOrder, LittleEndian};

/// Writes words after the first `at` bytes.
pub fn put(out: &mut [u8; 384], at: usize, words: &[u32]) -> usize
    requires { at + 4 * length words.now ≤ 384 }
    ensures end { result ≡ at + 4 * length words.now }
    ensures bytes { take result out.new ≡ take at out.old ++ words_bytes words.now }
{
    let mut end = at;
    for word in words {
        LittleEndian::write_u32(&mut out[end..end + 4], *word);
        end += 4;
    }
    end
}

/// Writes words of two bytes after the first `at` bytes.
pub fn put_halves(out: &mut [u8; 384], at: usize, halves: &[u16]) -> usize
    requires { at + 2 * length halves.now ≤ 384 }
    ensures end { result ≡ at + 2 * length halves.now }
    ensures bytes { take result out.new ≡ take at out.old ++ halves_bytes halves.now }
{
    let mut end = at;
    for half in halves {
        LittleEndian::write_u16(&mut out[end..end + 2], *half);
        end += 2;
    }
    end
}

/// Writes bytes after the first `at` bytes.
pub fn put_bytes(out: &mut [u8; 384], at: usize, bytes: &[u8]) -> usize
    requires { at + length bytes.now ≤ 384 }
    ensures end { result ≡ at + length bytes.now }
    ensures bytes { take result out.new ≡ take at out.old ++ bytes.now }
{
    let end = at + bytes.len();
    out[at..end].copy_from_slice(bytes);
    end
}

/// Writes values, each after its channel, after the first `at` bytes.
pub fn put_values(out: &mut [u8; 384], at: usize, values: &[u32]) -> usize
    requires { at + 8 * length values.now ≤ 384 }
    ensures end { result ≡ at + 8 * length values.now }
    ensures bytes { take result out.new ≡ take at out.old ++ written (slots_cells (value_slots 0 values.now)) }
{
    let mut end = at;
    for i in 0..values.len() {
        end = put(out, end, &[i as u32, values[i]]);
    }
    end
}
