// Compiles over a desk that fails: a front of the file and of its line is left, and the status is 3.
use crate::played::ends;
use crate::same::same;
use sof_desk::MemDesk;
use std::alloc::Global;
use std::process::Abort;

/// The source of a topology of one widget.
const SOURCE: &[u8] = b"[[widget]]
kind = \"input\"
name = \"T\"
index = 7
";

// The words of its file that are not 0: the header of a block of the pipeline 7 with one widget record of 132 bytes, and the record's
// size and name.
const WORDS: [(usize, [u8; 4]); 9] = [
    (0, *b"CoSA"),
    // the ABI, the type of a block of widgets, the header's bytes, those after it, the index and the count
    (4, [5, 0, 0, 0]),
    (12, [5, 0, 0, 0]),
    (16, [36, 0, 0, 0]),
    (24, [132, 0, 0, 0]),
    (28, [7, 0, 0, 0]),
    (32, [1, 0, 0, 0]),
    // the record's size word; its id, an input's, is 0
    (36, [132, 0, 0, 0]),
    (44, *b"T\0\0\0"),
];

// The bytes of its file.
fn file() -> [u8; 168] {
    let mut bytes = [0; 168];
    for (at, word) in WORDS {
        if at <= 164 {
            bytes[at..at + 4].copy_from_slice(&word);
        }
    }
    bytes
}

// A desk with the source, and a file to write of at most `room` bytes. Its call of a number fails and still writes some bytes.
fn laid_out(rt: &impl Abort, alloc: Global, room: usize, call: u32, passes: u32) -> MemDesk {
    let mut desk = MemDesk::new(alloc, 4096).expect(rt, "there is memory");
    desk.put_file("a.toml", SOURCE)
        .expect(rt, "there is memory");
    desk.put_out("a.tplg", room).expect(rt, "there is memory");
    desk.fail_call(call, passes).expect(rt, "there is memory");
    desk
}

// A compile over a desk that is laid out leaves a front of the file.
fn leaves(
    rt: &impl Abort,
    alloc: Global,
    row: usize,
    desk: &mut MemDesk,
    status: u8,
    said: &[u8],
    bytes: usize,
) {
    let words = ["compile", "a.toml", "a.tplg"];
    let on = ends(rt, alloc, row, &words, desk, status, Some(said));
    same(rt, &row, &on, &false);
    same(rt, &row, &desk.file("a.tplg"), &file().get(..bytes));
}

// The calls are the load, the file's creation, its bytes, and the line. The fifth never comes.
#[test]
fn a_compile_that_fails_leaves_a_front_of_its_file_and_line(rt: HostRuntime) {
    for (call, passes, status, bytes, said) in [
        (1u32, 0u32, 3u8, 0usize, b"".as_slice()),
        (2, 0, 3, 0, b""),
        (3, 36, 3, 36, b""),
        (4, 3, 3, 168, b"wro"),
        (5, 0, 0, 168, b"wrote 168\n"),
    ] {
        let mut desk = laid_out(&rt, rt.alloc(), 168, call, passes);
        leaves(
            &rt,
            rt.alloc(),
            call as usize,
            &mut desk,
            status,
            said,
            bytes,
        );
    }
}

// The file has room for one byte less than the topology has.
#[test]
fn a_file_without_room_leaves_a_front_of_its_bytes(rt: HostRuntime) {
    let mut desk = laid_out(&rt, rt.alloc(), 167, 5, 0);
    leaves(&rt, rt.alloc(), 5, &mut desk, 3, b"", 167);
}
