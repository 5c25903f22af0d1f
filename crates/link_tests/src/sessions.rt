// A session that makes pipelines on use, by its own calls, over the firmware.
ghost use Rattle.std.specs.Prelude.{◌≡◌, true};
ghost use Rattle.sof_session.specs.CommandRanges.{is_in_range};

use crate::device::{Device, Failing, device};
use crate::graphs::MIX;
use crate::plans::plan_of;
use crate::same::same;
use host_widgets::{Answer, HostFault, Power};
use mbox_link::Dsp;
use sof_base::{Line, Name44};
use sof_io::{Inputs, Outputs};
use sof_script::Command;
use sof_session::DynSession;
use std::alloc::Global;
use std::process::Abort;

// A session over the graph of two streams and a mixer, with a heap of so many bytes.
fn begun(alloc: Global, heap: u32) -> Result<DynSession<Device>, &'static str> {
    let plan = plan_of(alloc, MIX)?;
    let dsp = device(alloc, Failing::Nothing)?;
    if heap > dsp.room() {
        return Err("a great heap");
    }
    match DynSession::new(alloc, plan, heap, dsp) {
        Ok(session) => Ok(session),
        Err(_) => Err("there is no memory"),
    }
}

// A stream's name.
fn name(rt: &impl Abort, bytes: &[u8]) -> Name44 {
    Name44::new(bytes).expect(rt, "a short name")
}

// Carries out a command without endpoints. Every test steps through here, so the contract of a step is read once.
fn carry(
    rt: &impl Abort,
    alloc: Global,
    session: &mut DynSession<Device>,
    command: &Command,
) -> Answer
    requires { is_in_range command.now ≡ true }
{
    if session.sent() > 1000000 {
        panic!(rt; "there are many messages")
    }
    let Ok(mut inputs) = Inputs::new(alloc) else {
        panic!(rt; "there is no memory")
    };
    let Ok(mut outputs) = Outputs::new(alloc) else {
        panic!(rt; "there is no memory")
    };
    session.step(command, &mut inputs, &mut outputs)
}

// The number of the error with which a message was refused, or 0 where the command was done; any other answer is 1.
fn number_of(answer: &Answer) -> i32 {
    match answer {
        Answer::Done => 0,
        Answer::Fault(HostFault::Refused(error)) => error.0,
        Answer::Fault(_) | Answer::Values(_) | Answer::Bytes(_) | Answer::PlanFull | Answer::Show =>
            1,
    }
}

// A command is answered by this number, and so many messages are sent after it.
fn expect(
    rt: &impl Abort,
    alloc: Global,
    session: &mut DynSession<Device>,
    command: &Command,
    number: i32,
    sent: u64,
)
    requires { is_in_range command.now ≡ true }
{
    let answer = carry(rt, alloc, session, command);
    same(rt, &sent, &number_of(&answer), &number);
    same(rt, &sent, &session.sent(), &sent);
}

// Whether these pipelines are up, in this order.
fn up_is(session: &DynSession<Device>, up: &[u32]) -> bool {
    session.up() == up
}

// How many lines a session shows, at most a hundred.
fn shown(session: &DynSession<Device>) -> u32 {
    let mut line = Line::new();
    let mut lines = 0;
    for k in 0..100 {
        if session.show_line(k, &mut line) {
            lines = k + 1;
        }
    }
    lines
}

// A first open makes the pipelines of the stream and of the mixer by 13 messages, and another one that of its stream by 6; a close
// unmakes that of its stream by 3.
#[test]
fn a_session_on_use_counts_its_messages(rt: HostRuntime) {
    let alloc = rt.alloc();
    let mut session = begun(alloc, 4352).expect(&rt, "a session");
    let open_first = Command::Open(name(&rt, b"PCM0P"));
    let open_second = Command::Open(name(&rt, b"PCM1P"));
    let close_first = Command::Close(name(&rt, b"PCM0P"));
    expect(&rt, alloc, &mut session, &Command::Load, 0, 0);
    expect(&rt, alloc, &mut session, &open_first, 0, 13);
    expect(&rt, alloc, &mut session, &open_second, 0, 19);
    expect(&rt, alloc, &mut session, &close_first, 0, 22);
    expect(&rt, alloc, &mut session, &open_first, 0, 28);
    assert!(rt;
        up_is(&session, &[3, 2, 1]),
        "the order in which they were made"
    );
}

// A heap has room for either stream, and not for both.
#[test]
fn a_session_on_use_has_room_for_either_stream(rt: HostRuntime) {
    let alloc = rt.alloc();
    let mut session = begun(alloc, 2784).expect(&rt, "a session");
    let open_second = Command::Open(name(&rt, b"PCM1P"));
    assert!(rt;
        carry_all(&rt, alloc, &mut session, &open_second),
        "the second has no room"
    );
    assert!(rt; up_is(&session, &[2, 3]), "what the second needs");
    same(
        &rt,
        &"the power",
        &(session.record().power == Power::On),
        &true,
    );
    // The power, the parts of two pipelines, two edges and two streams.
    same(&rt, &"lines", &shown(&session), &12);
    same(&rt, &"the device", &session.into_dsp().on(), &true);
}

// The second stream is refused while the first is open, and then it is opened.
fn carry_all(
    rt: &impl Abort,
    alloc: Global,
    session: &mut DynSession<Device>,
    open_second: &Command,
) -> bool
    requires { is_in_range open_second.now ≡ true }
{
    let open_first = Command::Open(name(rt, b"PCM0P"));
    let close_first = Command::Close(name(rt, b"PCM0P"));
    let mut right = number_of(&carry(rt, alloc, session, &Command::Load)) == 0;
    right = right && up_is(session, &[]);
    right = right && number_of(&carry(rt, alloc, session, &open_first)) == 0;
    right = right && number_of(&carry(rt, alloc, session, open_second)) == -12;
    right = right && up_is(session, &[1, 3]);
    right = right && number_of(&carry(rt, alloc, session, &close_first)) == 0;
    right = right && up_is(session, &[]);
    right && number_of(&carry(rt, alloc, session, open_second)) == 0
}
