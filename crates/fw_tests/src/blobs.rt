// Blobs that stand in the source.
use crate::same::same;
use eq_blob::{EqFault, check};
use std::process::Abort;
use std::test::Fail;

fn put(blob: &mut [u8], at: usize, word: u32) {
    let bytes = word.to_le_bytes();
    for k in 0..4 {
        if at < blob.len() && k < blob.len() - at {
            blob[at + k] = bytes[k];
        }
    }
}

/// A blob of one channel, assigned to a response of one section.
fn one_section() -> [u8; 116] {
    let mut blob = [0; 116];
    for (at, word) in [
        (0, 0x0046_4F53),
        (8, 84),
        (36, 1),
        (40, 1),
        (64, 1),
        (68, 1),
        (104, 1 << 30),
        (112, 16384),
    ] {
        put(&mut blob, at, word);
    }
    blob
}

#[test]
fn each_fault_is_told_by_its_number(rt: HostRuntime) -> Result<(), Fail> {
    assert_eq!(rt; check(&one_section()), Ok(()));
    for (at, word, fault, number) in [
        (0, 0, EqFault::Magic, 2),
        (8, 85, EqFault::HeaderSize, 3),
        (36, 9, EqFault::Channels, 4),
        (40, 0, EqFault::Responses, 5),
        (60, 1, EqFault::Assignment(0), 6),
        (64, 2, EqFault::Sections(0), 7),
        (68, 0, EqFault::Sections(0), 7),
        (108, 32, EqFault::Shift(0, 0), 8),
        (40, 2, EqFault::Length, 9),
    ] {
        let mut blob = one_section();
        put(&mut blob, at, word);
        assert_eq!(rt; check(&blob), Err(fault));
        assert_eq!(rt; fault.number(), number);
    }
    assert_eq!(rt; check(&[0; 59]), Err(EqFault::Size));
    assert_eq!(rt; check(&[0; 1025]), Err(EqFault::Size));
    assert_eq!(rt; EqFault::Size.number(), 1);
    Ok(())
}

/// Three responses of 8, 8 and 4 sections over two channels, both with the first response. Each section passes its input, but
/// the first section of the first response halves it.
pub(crate) fn three_responses() -> [u8; 700] {
    let mut blob = [0; 700];
    for (at, word) in [(0, 0x0046_4F53), (8, 668), (32, 668), (36, 2), (40, 3)] {
        put(&mut blob, at, word);
    }
    for (at, sections) in [(68, 8), (316, 8), (564, 4)] {
        put(&mut blob, at, sections);
        put(&mut blob, at + 4, sections);
        for section in 0..sections as usize {
            put(&mut blob, at + 24 + 28 * section + 16, 1 << 30);
            put(&mut blob, at + 24 + 28 * section + 24, 16384);
        }
    }
    put(&mut blob, 116, 8192);
    blob
}

#[test]
fn a_blob_of_three_responses_is_right(rt: HostRuntime) -> Result<(), Fail> {
    assert_eq!(rt; check(&three_responses()), Ok(()));
    for (at, word, fault) in [
        (64, 3, EqFault::Assignment(1)),
        (316, 9, EqFault::Sections(1)),
        (568, 3, EqFault::Sections(2)),
        (692, 32, EqFault::Shift(2, 3)),
    ] {
        let mut blob = three_responses();
        put(&mut blob, at, word);
        assert_eq!(rt; check(&blob), Err(fault));
    }
    Ok(())
}

// The words of that blob that can be neither 0 nor 4294967295, and what is said then: the magic, the header's size, the numbers of
// channels and of responses, and each response's two numbers of sections. An assignment or a shift may be 0 or -1, and no other word
// is looked at.
const NEITHER: [(usize, EqFault); 10] = [
    (0, EqFault::Magic),
    (8, EqFault::HeaderSize),
    (36, EqFault::Channels),
    (40, EqFault::Responses),
    (68, EqFault::Sections(0)),
    (72, EqFault::Sections(0)),
    (316, EqFault::Sections(1)),
    (320, EqFault::Sections(1)),
    (564, EqFault::Sections(2)),
    (568, EqFault::Sections(2)),
];

// What is said of the blob with 0 or with 4294967295 at a place.
fn said_of_either(at: usize) -> Result<(), EqFault> {
    for (place, fault) in NEITHER {
        if place == at {
            return Err(fault);
        }
    }
    Ok(())
}

fn each_word_is_told(rt: &impl Abort, word: u32) {
    for place in 0..175 {
        let at = 4 * place;
        let mut blob = three_responses();
        put(&mut blob, at, word);
        same(rt, &word, &(at, check(&blob)), &(at, said_of_either(at)));
    }
}

#[test]
fn each_word_of_a_blob_is_told(rt: HostRuntime) {
    each_word_is_told(&rt, 0);
    each_word_is_told(&rt, 4294967295);
}

#[test]
fn faults_are_told_in_words(rt: HostRuntime) -> Result<(), Fail> {
    assert_eq!(rt;
        format!(in rt.alloc(); "{}", EqFault::Shift(2, 3))?.as_str(),
        "section 3 of response 2 has a shift that is not -13 to 31"
    );
    assert_eq!(rt;
        format!(in rt.alloc(); "{}", EqFault::Assignment(1))?.as_str(),
        "channel 1 has a response that is not there"
    );
    Ok(())
}
