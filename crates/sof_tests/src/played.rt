// Desks that fail by plan, and the result of a run over one.
use crate::runs::run_over;
use crate::same::same;
use sof_desk::MemDesk;
use std::alloc::Global;
use std::process::Abort;

/// The greatest heap of the firmware, in bytes; it is small, since many runs are made.
const ROOM: u32 = 4096;

/// The number from 1 of a call that fails, and how many bytes of it are still written. No call has the number 0.
pub type Failing = (u32, u32);

/// A desk with a topology as `a.tplg` and a script as `s.txt`, of which a call fails.
pub fn desk_with(
    rt: &impl Abort,
    alloc: Global,
    topology: &[u8],
    script: &[u8],
    failing: Failing,
) -> MemDesk {
    let mut desk = MemDesk::new(alloc, 4096).expect(rt, "there is memory");
    desk.put_file("a.tplg", topology)
        .expect(rt, "there is memory");
    desk.put_file("s.txt", script).expect(rt, "there is memory");
    desk.fail_call(failing.0, failing.1)
        .expect(rt, "there is memory");
    desk
}

/// A run of these words over a desk ends with this status, and so much said; whether the device is on then. A failure tells the row.
pub fn ends(
    rt: &impl Abort,
    alloc: Global,
    row: usize,
    words: &[&str],
    desk: &mut MemDesk,
    status: u8,
    said: Option<&[u8]>,
) -> bool {
    let ending = run_over(rt, alloc, words, ROOM, desk);
    same(rt, &row, &ending.status, &status);
    same(rt, &row, &Some(desk.said()), &said);
    ending.on
}
