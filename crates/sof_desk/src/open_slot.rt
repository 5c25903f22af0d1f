// The slots of a desk in memory that are open.
ghost use Rattle.std.specs.Prelude.{◌≡◌, ◌≤◌, min, length, take, position, vec_len, vec_capacity, if◌then◌else◌};
ghost use Rattle.sof_desk.specs.declared.calls.TheConstants.{SLOTS};
ghost use Rattle.sof_desk.specs.OpenSlots.{is_under, can_open, with_opened};

use crate::calls::SLOTS;

/// A slot that is open, the place of its file, and how many of its bytes were read.
#[derive(Clone, Copy, Debug)]
pub struct OpenSlot {
    pub slot: u32,
    pub place: usize,
    pub position: usize,
}

/// The place of a slot among those that are open.
pub fn place_of(opens: &[OpenSlot], slot: u32) -> Option<usize>
    ensures { result ≡ position (is_under slot) opens.now }
{
    opens.iter().position(|open| open.slot == slot)
}

/// Opens a slot at the place of a file, where it is open or there is room for one more, and tells whether it did.
pub fn open_in(opens: &mut Vec<OpenSlot>, slot: u32, place: usize) -> bool
    requires within { vec_len opens.old ≤ SLOTS }
    requires room { SLOTS ≤ vec_capacity opens.old }
    ensures done { result ≡ can_open slot opens.old.items }
    ensures after { opens.new.items ≡ (if result then with_opened slot place opens.old.items else opens.old.items) }
    ensures within { vec_len opens.new ≤ SLOTS }
    ensures room { SLOTS ≤ vec_capacity opens.new }
{
    let open = OpenSlot {
        slot,
        place,
        position: 0,
    };
    match place_of(opens, slot) {
        Some(at) => opens[at] = open,
        None => {
            if opens.len() >= SLOTS {
                return false;
            }
            opens.push(open).unwrap();
        }
    }
    true
}

/// Copies the front of some bytes, as many as `out` has room for and `most` allows, and tells how many.
pub fn copy_front(bytes: &[u8], out: &mut [u8], most: usize) -> usize
    ensures count { result ≡ min (length bytes.now) (min (length out.old) most) }
    ensures copied { take result out.new ≡ take result bytes.now }
{
    let count = bytes.len().min(out.len().min(most));
    out[..count].copy_from_slice(&bytes[..count]);
    count
}
