// A desk in memory, and one over real files.
use crate::same::same;
use sof_desk::{Desk, DeskFailed, MemDesk};
use sof_files::OsDesk;
use std::alloc::Global;
use std::process::Abort;

// A desk with a file, and room for `said` bytes to be said.
fn desk_with(rt: &impl Abort, alloc: Global, bytes: &[u8], said: usize) -> MemDesk {
    let mut desk = MemDesk::new(alloc, said).expect(rt, "there is memory");
    desk.put_file("in.raw", bytes).expect(rt, "there is memory");
    desk
}

#[test]
fn a_file_is_loaded(rt: HostRuntime) {
    let mut desk = desk_with(&rt, rt.alloc(), b"abc", 0);
    let loaded = desk.load(rt.alloc(), "in.raw", 3);
    let loaded = loaded.expect(&rt, "it is a file");
    same(&rt, &"it", &loaded.as_slice(), &b"abc".as_slice());
}

// Opens a file and reads it three times: how many bytes come, and what stands in the room for five then.
fn reads<D: Desk>(rt: &impl Abort, desk: &mut D, name: &str, wants: [(usize, &[u8]); 3]) {
    assert!(rt; desk.open(2, name).is_ok(), "at {name}");
    let mut out = [0u8; 5];
    let [first, second, third] = wants;
    same(rt, &name, &desk.read(2, &mut out), &Ok(first.0));
    same(rt, &name, &out.as_slice(), &first.1);
    same(rt, &name, &desk.read(2, &mut out), &Ok(second.0));
    same(rt, &name, &out.as_slice(), &second.1);
    same(rt, &name, &desk.read(2, &mut out), &Ok(third.0));
    same(rt, &name, &out.as_slice(), &third.1);
}

#[test]
fn an_open_file_is_read_in_pieces(rt: HostRuntime) {
    let mut desk = desk_with(&rt, rt.alloc(), b"abcdefg", 0);
    let wants = [(5, b"abcde".as_slice()), (2, b"fgcde"), (0, b"fgcde")];
    reads(&rt, &mut desk, "in.raw", wants);
}

#[test]
fn a_read_gives_no_more_than_the_desk_was_told(rt: HostRuntime) {
    let mut desk = desk_with(&rt, rt.alloc(), b"abcdef", 0);
    desk.read_at_most(1);
    let first = (1, b"a\0\0\0\0".as_slice());
    let wants = [first, (1, b"b\0\0\0\0"), (1, b"c\0\0\0\0")];
    reads(&rt, &mut desk, "in.raw", wants);
}

// Creates an output for a slot and appends to it twice.
fn appends_twice(rt: &impl Abort, desk: &mut MemDesk) {
    assert!(rt; desk.create(7, "out.raw").is_ok(), "it is not created");
    same(rt, &"abc", &desk.append(7, b"abc"), &Ok(()));
    same(rt, &"def", &desk.append(7, b"def"), &Err(DeskFailed));
}

#[test]
fn an_output_takes_what_there_is_room_for(rt: HostRuntime) {
    let mut desk = desk_with(&rt, rt.alloc(), b"", 0);
    desk.put_out("out.raw", 4).expect(&rt, "there is memory");
    appends_twice(&rt, &mut desk);
    let want = Some(b"abcd".as_slice());
    same(&rt, &"the file", &desk.file("out.raw"), &want);
}

// The result of saying a piece, and what was said then.
fn says(
    rt: &impl Abort,
    desk: &mut MemDesk,
    piece: &[u8],
    want: Result<(), DeskFailed>,
    said: &[u8],
) {
    same(rt, &"a piece", &desk.say(piece), &want);
    same(rt, &"what was said", &desk.said(), &said);
}

#[test]
fn a_planned_failure_passes_some_bytes(rt: HostRuntime) {
    let mut desk = desk_with(&rt, rt.alloc(), b"", 9);
    desk.fail_call(2, 1).expect(&rt, "there is memory");
    says(&rt, &mut desk, b"ab", Ok(()), b"ab");
    says(&rt, &mut desk, b"cd", Err(DeskFailed), b"abc");
}

// A file without an end, and one without bytes under the slot that the first one had.
#[test]
fn real_files_are_read_in_pieces(rt: HostRuntime) {
    let mut desk = OsDesk::new(&rt, rt.alloc()).expect(&rt, "there is memory");
    let zeros = b"\0\0\0\0\0".as_slice();
    reads(&rt, &mut desk, "/dev/zero", [(5, zeros); 3]);
    reads(&rt, &mut desk, "/dev/null", [(0, zeros); 3]);
}
