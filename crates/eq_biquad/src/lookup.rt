// The sections of a channel, looked up in the words of the blob in force.
ghost use Rattle.std.specs.Prelude.{◌≡◌, ◌+◌, ◌*◌, ◌<◌, ◌≤◌, length, take, IfSome};
ghost use Rattle.sof_base.specs.Blob as form;
ghost use Rattle.sof_base.specs.BlobParts as blob_parts;
ghost use Rattle.sof_base.specs.Slots.{word_at};
ghost use Rattle.stream_law.specs.Equaliser.{sections_of};
ghost use Rattle.eq_blob.specs.WordBytes.{bytes_of_words};
ghost use Rattle.eq_blob.specs.Sections.{found_in, AreWithin};

use eq_blob::Found;

/// The sections of a channel: none where no blob is in force, and where the channel has no assignment or a negative one.
pub fn find_sections(blob: &[i32], len: usize, channel: usize) -> Option<Found>
    requires words { (length blob.now ≡ 256) × (len ≤ 1024) }
    requires blob { 0 < len → blob_parts.IsBlob (take len (bytes_of_words blob.now)) }
    ensures sections { found_in (take len (bytes_of_words blob.now)) result ≡ sections_of (take len (bytes_of_words blob.now)) channel }
    ensures within { IfSome result (AreWithin (take len (bytes_of_words blob.now))) }
{
    if len == 0 {
        return None;
    }
    if channel >= count_at(blob, len, 9) {
        return None;
    }
    let assignment = blob[15 + channel];
    if assignment < 0 {
        return None;
    }
    let place = response_at(blob, len, assignment as usize);
    Some(Found {
        place: place + 6,
        count: count_at(blob, len, place),
    })
}

/// The word where a response begins.
fn response_at(blob: &[i32], len: usize, response: usize) -> usize
    requires words { (length blob.now ≡ 256) × (len ≤ 1024) }
    requires blob { blob_parts.IsBlob (take len (bytes_of_words blob.now)) }
    requires there { response < form.blob_responses (take len (bytes_of_words blob.now)) }
    ensures { 4 * result ≡ form.response_at (take len (bytes_of_words blob.now)) response }
{
    let mut place = 15 + count_at(blob, len, 9);
    for _ in 0..response {
        place = place + 6 + 7 * count_at(blob, len, place);
    }
    place
}

/// The number in a word of the blob.
fn count_at(blob: &[i32], _len: usize, place: usize) -> usize
    requires { (4 * place + 4 ≤ _len) × (_len ≤ 4 * length blob.now) }
    ensures { result ≡ word_at (take _len (bytes_of_words blob.now)) (4 * place) }
{
    blob[place].cast_unsigned() as usize
}
