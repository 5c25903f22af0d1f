// Runs over a desk in memory and the firmware. Every test calls `run` through here, so its contract is read once.
use fw_core::Firmware;
use mbox_link::Dsp;
use sof_desk::MemDesk;
use sof_run::run;
use std::alloc::Global;
use std::process::Abort;

/// How a run ended: its status, and whether the device is on.
#[derive(Clone, Copy)]
pub struct Ending {
    pub status: u8,
    pub on: bool,
}

// Words that own their texts.
fn owned(rt: &impl Abort, alloc: Global, words: &[&str]) -> Vec<String> {
    let mut texts = Vec::new(alloc);
    for word in words {
        let text = String::from_str(alloc, word).expect(rt, "there is memory");
        texts.push(text).expect(rt, "there is memory");
    }
    texts
}

/// A run of these words over a desk, with a firmware of a greatest heap of `room` bytes.
pub fn run_over(
    rt: &impl Abort,
    alloc: Global,
    words: &[&str],
    room: u32,
    desk: &mut MemDesk,
) -> Ending {
    let texts = owned(rt, alloc, words);
    let Ok(dsp) = Firmware::new(alloc, room) else {
        panic!(rt; "there is no memory")
    };
    let ended = run(alloc, &texts, desk, dsp);
    Ending {
        status: ended.status,
        on: ended.dsp.on(),
    }
}
