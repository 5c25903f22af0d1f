// A region, its pieces, and a ring over one of them.
use fw_heap::Region;
use fw_ring::Ring;
use sof_base::{Format, NoMemory};
use std::alloc::Global;

// A region without a byte is full.
fn without_a_byte(alloc: Global) -> Result<bool, NoMemory> {
    let mut region = Region::new(alloc, 0)?;
    let full = match region.carve(1) {
        Ok(piece) => {
            region.give(piece);
            false
        }
        Err(_) => true,
    };
    region.close();
    Ok(full)
}

// In 64 bytes a piece of 17 takes 32, and one of 32 the rest. Where the first comes back, 33 bytes do not fit and 16 do.
fn pieces_of_64_bytes(alloc: Global) -> Result<bool, NoMemory> {
    let mut region = Region::new(alloc, 64)?;
    region.limit(64);
    let Ok(first) = region.carve(17) else {
        region.close();
        return Ok(false);
    };
    let mut right = first.size() == 32 && first.place() == 0;
    let Ok(second) = region.carve(32) else {
        region.give(first);
        region.close();
        return Ok(false);
    };
    right = right && second.place() == 32 && region.used() == 64;
    match region.carve(1) {
        Ok(piece) => {
            region.give(piece);
            right = false;
        }
        Err(_) => (),
    }
    region.give(first);
    match region.carve(33) {
        Ok(piece) => {
            region.give(piece);
            right = false;
        }
        Err(_) => (),
    }
    match region.carve(16) {
        Ok(piece) => {
            right = right && piece.place() == 0 && piece.size() == 16;
            region.give(piece);
        }
        Err(_) => right = false,
    }
    region.give(second);
    right = right && region.used() == 0;
    region.close();
    Ok(right)
}

// A ring of four frames over 64 bytes. Six samples are pushed, four taken and four pushed: the last frames lie round the end.
fn round_the_end(alloc: Global) -> Result<bool, NoMemory> {
    let mut region = Region::new(alloc, 64)?;
    region.limit(64);
    let mut right = false;
    if let Ok(piece) = region.carve(64) {
        let mut ring = Ring::over(piece, 8, 2);
        ring.push_frames(&[1, 2, 3, 4, 5, 6]);
        ring.take(2);
        ring.push_frames(&[7, 8, 9, 10]);
        right = ring.start() == 4 && ring.len() == 3 && ring.free() == 1;
        let (front, back) = ring.spans(3);
        right = right && matches!(front, [5, 6, 7, 8]) && matches!(back, [9, 10]);
        let words = ring.piece().words();
        right = right && matches!(words, [_, _, _, _, _, _, _, _, 9, 10, _, _, 5, 6, 7, 8]);
        region.give(ring.into_piece());
    }
    region.close();
    Ok(right)
}

// The same ring, where the last four samples come as bytes.
fn bytes_round_the_end(alloc: Global) -> Result<bool, NoMemory> {
    let mut region = Region::new(alloc, 64)?;
    region.limit(64);
    let mut right = false;
    if let Ok(piece) = region.carve(64) {
        let mut ring = Ring::over(piece, 8, 2);
        ring.push_frames(&[1, 2, 3, 4, 5, 6]);
        ring.take(2);
        ring.push_bytes(Format::S16, 2, &[1, 0, 2, 0, 255, 255, 0, 128]);
        let (front, back) = ring.spans(3);
        right = matches!(front, [5, 6, 65536, 131072]);
        right = right && matches!(back, [-65536, -2147483648]);
        region.give(ring.into_piece());
    }
    region.close();
    Ok(right)
}

#[test]
fn no_piece_without_a_byte(rt: HostRuntime) {
    let full = without_a_byte(rt.alloc());
    assert!(rt; matches!(full, Ok(true)));
}

#[test]
fn pieces_are_rounded_and_come_back(rt: HostRuntime) {
    let right = pieces_of_64_bytes(rt.alloc());
    assert!(rt; matches!(right, Ok(true)));
}

#[test]
fn frames_lie_round_the_end_of_a_piece(rt: HostRuntime) {
    let right = round_the_end(rt.alloc());
    assert!(rt; matches!(right, Ok(true)));
}

#[test]
fn bytes_lie_round_the_end(rt: HostRuntime) {
    let right = bytes_round_the_end(rt.alloc());
    assert!(rt; matches!(right, Ok(true)));
}
