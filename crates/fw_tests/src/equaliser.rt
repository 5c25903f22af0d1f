// An equaliser in its piece.
ghost use Rattle.std.specs.Prelude.{◌≡◌};

use eq_biquad::Eq;
use eq_blob::check;
use fw_heap::Region;
use sof_base::NoMemory;
use std::alloc::Global;

// One section with b0 = a1 = 2^29, shift 0 and gain 2^14, on one channel.
static BLOB: [u8; 116] = [
    0x53, 0x4f, 0x46, 0, 0, 0, 0, 0, 84, 0, 0, 0, 0, 0, 0, 0, 0, 0, 0, 0, 0, 0, 0, 0, 0, 0, 0, 0,
    0, 0, 0, 0, 84, 0, 0, 0, 1, 0, 0, 0, 1, 0, 0, 0, 0, 0, 0, 0, 0, 0, 0, 0, 0, 0, 0, 0, 0, 0, 0,
    0, 0, 0, 0, 0, 1, 0, 0, 0, 1, 0, 0, 0, 0, 0, 0, 0, 0, 0, 0, 0, 0, 0, 0, 0, 0, 0, 0, 0, 0, 0, 0,
    0, 0, 0, 0, 0x20, 0, 0, 0, 0, 0, 0, 0, 0, 0, 0, 0, 0x20, 0, 0, 0, 0, 0, 0x40, 0, 0,
];

// 1000, 0 and 0 in two runs become 500, 250 and 125. Then the words from byte 2112 on are the section's numbers, 67108864000
// and 0, and `clear` makes the first 0.
fn halves_and_feeds_back(eq: &mut Eq) -> bool
    ensures home { eq.new.piece.home ≡ eq.old.piece.home }
    ensures place { eq.new.piece.place ≡ eq.old.piece.place }
    ensures size { eq.new.piece.size ≡ eq.old.piece.size }
{
    if check(&BLOB).is_err() {
        return false;
    }
    eq.install(&BLOB);
    let mut first = [1000];
    let mut rest = [0, 0];
    eq.run(&mut first, 1);
    eq.run(&mut rest, 1);
    let mut right = first == [500] && rest == [250, 125];
    let words = eq.piece().words();
    right = right
        && i64::from(words[529]) * 4294967296 + i64::from(words[528].cast_unsigned())
            == 67108864000;
    right = right && words[530..536] == [0; 6];
    eq.clear();
    right && eq.piece().words()[528] == 0
}

// The blob in force and the staged bytes come back, and no byte after them is written.
fn keeps_its_bytes(eq: &mut Eq) -> bool
    ensures home { eq.new.piece.home ≡ eq.old.piece.home }
    ensures place { eq.new.piece.place ≡ eq.old.piece.place }
    ensures size { eq.new.piece.size ≡ eq.old.piece.size }
{
    if check(&BLOB).is_err() {
        return false;
    }
    eq.stage(3, &[9, 8, 7]);
    eq.install(&BLOB);
    let mut out = [1; 1024];
    let length = eq.blob(&mut out);
    let right = length == 116 && &out[..116] == BLOB.as_slice() && out[116] == 1;
    eq.staged(&mut out);
    right && out[3..6] == [9, 8, 7]
}

// Two sections on two channels: one with b0, b1 and a1 of 2^31 - 1, whose sums wrap in 64 bits, and then that of `BLOB`.
static TWO: [u8; 148] = [
    0x53, 0x4f, 0x46, 0, 0, 0, 0, 0, 116, 0, 0, 0, 0, 0, 0, 0, 0, 0, 0, 0, 0, 0, 0, 0, 0, 0, 0, 0,
    0, 0, 0, 0, 116, 0, 0, 0, 2, 0, 0, 0, 1, 0, 0, 0, 0, 0, 0, 0, 0, 0, 0, 0, 0, 0, 0, 0, 0, 0, 0,
    0, 0, 0, 0, 0, 0, 0, 0, 0, 2, 0, 0, 0, 2, 0, 0, 0, 0, 0, 0, 0, 0, 0, 0, 0, 0, 0, 0, 0, 0, 0, 0,
    0, 0, 0, 0, 0, 0xff, 0xff, 0xff, 0x7f, 0, 0, 0, 0, 0xff, 0xff, 0xff, 0x7f, 0xff, 0xff, 0xff,
    0x7f, 0, 0, 0, 0, 0, 0x40, 0, 0, 0, 0, 0, 0, 0, 0, 0, 0x20, 0, 0, 0, 0, 0, 0, 0, 0, 0, 0, 0,
    0x20, 0, 0, 0, 0, 0, 0x40, 0, 0,
];

// Sums of two channels side by side are held, also where they wrap, and each channel alone gives the same.
fn holds_side_by_side(eq: &mut Eq) -> bool
    ensures home { eq.new.piece.home ≡ eq.old.piece.home }
    ensures place { eq.new.piece.place ≡ eq.old.piece.place }
    ensures size { eq.new.piece.size ≡ eq.old.piece.size }
{
    if check(&TWO).is_err() {
        return false;
    }
    eq.install(&TWO);
    let mut both = [
        2147483647,
        -2147483648,
        2147483647,
        -2147483648,
        -2147483648,
        1000,
        5,
        0,
    ];
    eq.run(&mut both, 2);
    eq.clear();
    let mut left = [2147483647, 2147483647, -2147483648, 5];
    eq.run(&mut left, 1);
    eq.clear();
    let mut right = [-2147483648, -2147483648, 1000, 0];
    eq.run(&mut right, 1);
    both == [
        1073741824,
        -1073741824,
        1610612736,
        -1610612736,
        1879048192,
        -1879048192,
        939524100,
        -2013265920,
    ] && left == [1073741824, 1610612736, 1879048192, 939524100]
        && right == [-1073741824, -1610612736, -1879048192, -2013265920]
}

fn in_a_piece(alloc: Global) -> Result<bool, NoMemory> {
    let mut region = Region::new(alloc, 4160)?;
    let mut right = false;
    if let Ok(piece) = region.carve(4160) {
        let mut eq = Eq::in_piece(piece);
        let mut out = [1; 1024];
        right = eq.blob(&mut out) == 0 && out[0] == 1;
        right = right && halves_and_feeds_back(&mut eq) && keeps_its_bytes(&mut eq);
        right = right && holds_side_by_side(&mut eq);
        region.give(eq.into_piece());
    }
    region.close();
    Ok(right)
}

#[test]
fn sections_halve_and_feed_back_and_hold(rt: HostRuntime) {
    let right = in_a_piece(rt.alloc());
    assert!(rt; matches!(right, Ok(true)));
}
