// Bytes in words, four in each, the low one first.
ghost use Rattle.std.specs.Prelude.{◌≡◌, ℕ, ◌+◌, ◌*◌, ◌≤◌, ◌<◌, ◌++◌, length, take, drop, slice_index, slice_set};
ghost use Rattle.eq_blob.specs.WordBytes.{bytes_of_words};

/// Writes the first bytes of words over `out`.
pub fn copy_out(words: &[i32], out: &mut [u8])
    requires { length out.old ≤ 4 * length words.now }
    ensures { out.new ≡ take (length out.old) (bytes_of_words words.now) }
{
    for (i, byte) in out.iter_mut().enumerate() {
        *byte = byte_at(words, i);
    }
}

/// Puts bytes over those from a place on.
pub fn put_bytes(words: &mut [i32], at: usize, bytes: &[u8])
    requires { at + length bytes.now ≤ 4 * length words.old }
    ensures { bytes_of_words words.new ≡ take at (bytes_of_words words.old) ++ (bytes.now ++ drop (at + length bytes.now) (bytes_of_words words.old)) }
{
    for (i, byte) in bytes.iter().enumerate() {
        put_byte(words, at + i, *byte);
    }
}

fn byte_at(words: &[i32], i: usize) -> u8
    requires { i < 4 * length words.now }
    ensures { result ≡ slice_index (bytes_of_words words.now) i }
{
    words[i / 4].to_le_bytes()[i % 4]
}

fn put_byte(words: &mut [i32], i: usize, byte: u8)
    requires { i < 4 * length words.old }
    ensures { bytes_of_words words.new ≡ slice_set (bytes_of_words words.old) i byte }
{
    let mut four = words[i / 4].to_le_bytes();
    four[i % 4] = byte;
    words[i / 4] = i32::from_le_bytes(four);
}
