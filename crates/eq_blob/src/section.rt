// A section as the words of a blob have it.
ghost use Rattle.std.specs.Prelude.{◌≡◌, ◌+◌, ◌*◌, ◌≤◌, length, take};
ghost use Rattle.sof_base.specs.Blob.{signed_at, section_at as section_of};
ghost use Rattle.eq_blob.specs.WordBytes.{bytes_of_words};
ghost use Rattle.eq_blob.specs.Sections.{law_section};

/// Its coefficients, of which 2^30 is 1, and its shift and gain, of which 2^14 is 1.
#[derive(Clone, Copy)]
pub struct Section {
    pub a2: i32,
    pub a1: i32,
    pub b2: i32,
    pub b1: i32,
    pub b0: i32,
    pub shift: i32,
    pub gain: i32,
}

/// Where the sections of a channel stand in the words of a blob, and how many they are.
#[derive(Clone, Copy)]
pub struct Found {
    pub place: usize,
    pub count: usize,
}

/// The section whose seven words begin at a place of a blob of so many bytes.
pub fn section_at(blob: &[i32], _len: usize, place: usize) -> Section
    requires { (4 * place + 28 ≤ _len) × (_len ≤ 4 * length blob.now) }
    ensures section { law_section result ≡ section_of (take _len (bytes_of_words blob.now)) (4 * place) }
    ensures shift { result.shift ≡ signed_at (take _len (bytes_of_words blob.now)) (4 * place + 20) }
{
    Section {
        a2: blob[place],
        a1: blob[place + 1],
        b2: blob[place + 2],
        b1: blob[place + 3],
        b0: blob[place + 4],
        shift: blob[place + 5],
        gain: blob[place + 6],
    }
}
