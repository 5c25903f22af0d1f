// What messages are answered, and what is there after them.
use crate::messages::{
    DAI, HOST, S32, VOLUME, amplified, buffer, component, gains, pipeline, stereo, thin,
};
use crate::small::set_data;
use crate::steps::{BUSY, INVALID, NO_DEVICE, NO_MEMORY, Step, TWO_VALUES, done, played};
use ipc3_codec::{CompWords, Message};
use std::test::Fail;

#[test]
fn bytes_that_are_no_message_are_not_valid(rt: HostRuntime) -> Result<(), Fail> {
    let steps = [
        Step::Bytes(
            [
                20, 0, 0, 0, 0, 0, 1, 0x30, 0, 0, 0, 0, 1, 0, 0, 0, 1, 0, 0, 0,
            ],
            INVALID,
        ),
        Step::Holds(0, 0),
    ];
    played(&rt, rt.alloc(), 992, &[], &steps)
}

#[test]
fn one_stream_fits_in_992_bytes(rt: HostRuntime) -> Result<(), Fail> {
    let steps = [Step::Holds(992, 4)];
    played(&rt, rt.alloc(), 992, &thin(), &steps)
}

#[test]
fn its_pipeline_does_not_fit_in_976_bytes(rt: HostRuntime) -> Result<(), Fail> {
    let steps = [
        done(component(0, S32, HOST)),
        done(buffer(1, 768)),
        done(component(2, S32, DAI)),
        Step::Told(pipeline(3, 2, 1000), NO_MEMORY),
        Step::Holds(928, 3),
    ];
    played(&rt, rt.alloc(), 976, &[], &steps)
}

#[test]
fn all_pieces_go_with_a_cut(rt: HostRuntime) -> Result<(), Fail> {
    let steps = [Step::Holds(1856, 6), Step::Cut, Step::Holds(0, 0)];
    played(&rt, rt.alloc(), 1856, &amplified(S32), &steps)
}

#[test]
fn the_gains_of_a_volume_are_set_and_got_until_it_is_freed(rt: HostRuntime) -> Result<(), Fail> {
    let steps = [
        done(component(7, S32, VOLUME)),
        Step::Gains(7, [0, 0, 0, 0, 0, 0, 1, 0, 1, 0, 0, 0, 0, 0, 1, 0]),
        done(gains(7, 32768, 3)),
        Step::Gains(7, [0, 0, 0, 0, 0, 0x80, 0, 0, 1, 0, 0, 0, 3, 0, 0, 0]),
        Step::Told(Message::GetValue { id: 7, command: 1 }, INVALID),
        Step::Told(Message::GetValue { id: 7, command: 0 }, TWO_VALUES),
        Step::Holds(64, 1),
        done(Message::CompFree { id: 7 }),
        Step::Told(Message::GetValue { id: 7, command: 0 }, NO_DEVICE),
        Step::Holds(0, 0),
    ];
    played(&rt, rt.alloc(), 992, &[], &steps)
}

#[test]
fn a_graph_is_freed_from_its_pipeline_on(rt: HostRuntime) -> Result<(), Fail> {
    let steps = [
        Step::Told(Message::CompFree { id: 0 }, BUSY),
        Step::Told(Message::BufferFree { id: 1 }, BUSY),
        done(stereo(0, 48000)),
        Step::Told(Message::PipeFree { id: 3 }, INVALID),
        done(Message::PcmFree { id: 0 }),
        done(Message::PipeFree { id: 3 }),
        Step::Holds(928, 3),
        Step::Told(Message::CompFree { id: 0 }, INVALID),
        done(Message::BufferFree { id: 1 }),
        done(Message::CompFree { id: 0 }),
        done(Message::CompFree { id: 2 }),
        Step::Holds(0, 0),
        Step::Told(Message::CompFree { id: 0 }, NO_DEVICE),
    ];
    played(&rt, rt.alloc(), 992, &thin(), &steps)
}

#[test]
fn each_other_message_is_answered_by_its_row(rt: HostRuntime) -> Result<(), Fail> {
    let steps = [
        done(Message::CtxSave),
        Step::Told(Message::TrigStart { id: 0 }, NO_DEVICE),
        done(component(0, S32, HOST)),
        Step::Told(component(0, S32, CompWords::Mux), BUSY),
        Step::Told(Message::TrigStart { id: 0 }, INVALID),
        Step::Told(stereo(0, 48000), INVALID),
        Step::Told(Message::PcmFree { id: 0 }, INVALID),
        Step::Told(Message::TrigStop { id: 0 }, INVALID),
        Step::Told(Message::TrigPause { id: 0 }, INVALID),
        Step::Told(Message::TrigRelease { id: 0 }, INVALID),
        Step::Told(Message::PipeComplete { id: 0 }, INVALID),
        Step::Told(Message::Connect { source: 0, sink: 0 }, INVALID),
        Step::Told(set_data(0), INVALID),
        Step::Told(set_data(9), NO_DEVICE),
        Step::Told(Message::GetData { id: 0, index: 0 }, INVALID),
        Step::Told(Message::GetData { id: 9, index: 0 }, NO_DEVICE),
        Step::Told(gains(0, 1, 1), INVALID),
        Step::Holds(64, 1),
    ];
    played(&rt, rt.alloc(), 992, &[], &steps)
}
