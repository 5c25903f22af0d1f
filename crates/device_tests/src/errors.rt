// What each message is answered in a state, with each of its errors. A state is what messages lead to from a boot; what is refused
// leaves it, so that the rows of a state follow one another.
use crate::small::{
    buffer, component, dai, host, join, mixer, params, parts, pipeline, set_data, set_value, thin,
    volume,
};
use crate::steps::{
    BUSY, DONE, EIGHT_VALUES, INVALID, NO_DEVICE, NO_MEMORY, ONE_VALUE, TWO_VALUES, answered,
};
use ipc3_codec::{CompWords, Message};
use std::alloc::Global;
use std::test::Fail;

// ---- what is made

#[test]
fn ids_and_indices_that_are_used(rt: HostRuntime) -> Result<(), Fail> {
    let rows = [
        (host(0, 9, 0), BUSY),
        (host(1, 9, 0), BUSY),
        (host(3, 9, 0), BUSY),
        (host(7, 1, 0), BUSY),
        (buffer(0, 9), BUSY),
        (buffer(1, 9), BUSY),
        (buffer(3, 9), BUSY),
        (buffer(7, 1), BUSY),
        (pipeline(0, 9, 2), BUSY),
        (pipeline(1, 9, 2), BUSY),
        (pipeline(3, 9, 2), BUSY),
        (pipeline(7, 1, 2), BUSY),
        (host(7, 9, 0), DONE),
        (buffer(8, 9), DONE),
        (pipeline(9, 9, 2), DONE),
        (host(10, 9, 0), DONE),
    ];
    answered(&rt, rt.alloc(), 4096, &thin(), &rows)
}

#[test]
fn no_hole_of_a_full_heap(rt: HostRuntime) -> Result<(), Fail> {
    let rows = [
        (host(0, 1, 0), BUSY),
        (buffer(0, 1), BUSY),
        (pipeline(0, 1, 0), BUSY),
        (host(7, 1, 0), NO_MEMORY),
        (buffer(7, 1), NO_MEMORY),
        (pipeline(7, 1, 0), NO_MEMORY),
        (Message::CompFree { id: 0 }, DONE),
        (pipeline(7, 1, 0), DONE),
    ];
    answered(&rt, rt.alloc(), 64, &[host(0, 1, 0)], &rows)
}

// ---- what is joined and completed

#[test]
fn joins(rt: HostRuntime) -> Result<(), Fail> {
    let state = [
        host(0, 1, 0),
        buffer(1, 1),
        dai(2, 1, 0),
        pipeline(3, 1, 2),
        buffer(4, 1),
        volume(5, 1),
        buffer(6, 1),
        host(7, 1, 1),
        mixer(8, 1),
    ];
    let rows = [
        (join(9, 1), NO_DEVICE),
        (join(0, 9), NO_DEVICE),
        (join(0, 2), INVALID),
        (join(1, 4), INVALID),
        (join(3, 1), INVALID),
        (join(0, 3), INVALID),
        (join(0, 1), DONE),
        (join(0, 1), BUSY),
        (join(5, 1), BUSY),
        // A host has one edge out and none in.
        (join(0, 4), INVALID),
        (join(4, 0), INVALID),
        (join(1, 5), DONE),
        (join(1, 2), BUSY),
        (join(5, 4), DONE),
        (join(6, 5), INVALID),
        (join(5, 6), INVALID),
        (join(4, 8), DONE),
        (join(8, 6), DONE),
        // A cycle would arise.
        (join(6, 8), INVALID),
        // A capture host is reached from a playback host, which parameters alone ask for.
        (join(6, 7), DONE),
    ];
    answered(&rt, rt.alloc(), 4096, &state, &rows)
}

// A capture stream through a mixer, prepared, and a DAI that captures into a buffer.
#[test]
fn a_way_that_would_grow(rt: HostRuntime) -> Result<(), Fail> {
    let state = [
        dai(0, 1, 1),
        buffer(1, 1),
        mixer(2, 1),
        buffer(3, 1),
        host(4, 1, 1),
        pipeline(5, 1, 0),
        join(0, 1),
        join(1, 2),
        join(2, 3),
        join(3, 4),
        Message::PipeComplete { id: 5 },
        params(4, 1, 48000),
        dai(6, 9, 1),
        buffer(7, 9),
    ];
    let rows = [
        (join(6, 7), DONE),
        (join(7, 2), INVALID),
        (Message::PcmFree { id: 4 }, DONE),
        (join(7, 2), DONE),
    ];
    answered(&rt, rt.alloc(), 4096, &state, &rows)
}

// A playback through a demux to a DAI, and a capture of what the demux splits off. The pipeline of the playback's host is not complete.
fn echoed() -> [Message; 16] {
    [
        host(0, 2, 0),
        buffer(1, 2),
        component(2, 1, CompWords::Demux),
        buffer(3, 1),
        dai(4, 1, 0),
        buffer(5, 1),
        host(6, 1, 1),
        pipeline(7, 1, 4),
        pipeline(8, 2, 4),
        join(0, 1),
        join(1, 2),
        join(2, 3),
        join(3, 4),
        join(2, 5),
        join(5, 6),
        Message::PipeComplete { id: 7 },
    ]
}

#[test]
fn a_way_that_would_be_another(rt: HostRuntime) -> Result<(), Fail> {
    let rows = [
        (params(6, 1, 48000), DONE),
        // Without it no playback reaches the demux, and the capture's way would go on to it.
        (Message::BufferFree { id: 1 }, INVALID),
        (Message::PcmFree { id: 6 }, DONE),
        (Message::BufferFree { id: 1 }, DONE),
    ];
    answered(&rt, rt.alloc(), 4096, &echoed(), &rows)
}

#[test]
fn pipelines_are_completed(rt: HostRuntime) -> Result<(), Fail> {
    let rows = [
        (pipeline(10, 10, 99), DONE),
        (pipeline(11, 11, 1), DONE),
        (Message::PipeComplete { id: 9 }, NO_DEVICE),
        (Message::PipeComplete { id: 10 }, NO_DEVICE),
        (Message::PipeComplete { id: 0 }, INVALID),
        (Message::PipeComplete { id: 1 }, INVALID),
        (Message::PipeComplete { id: 11 }, INVALID),
        (Message::PipeComplete { id: 3 }, DONE),
        (Message::PipeComplete { id: 3 }, BUSY),
    ];
    answered(&rt, rt.alloc(), 4096, &parts(), &rows)
}

// ---- what is freed

#[test]
fn pieces_of_a_pipeline_that_is_not_complete_are_freed(rt: HostRuntime) -> Result<(), Fail> {
    let rows = [
        (Message::CompFree { id: 9 }, NO_DEVICE),
        (Message::BufferFree { id: 9 }, NO_DEVICE),
        (Message::PipeFree { id: 9 }, NO_DEVICE),
        (Message::CompFree { id: 1 }, INVALID),
        (Message::CompFree { id: 3 }, INVALID),
        (Message::BufferFree { id: 0 }, INVALID),
        (Message::BufferFree { id: 3 }, INVALID),
        (Message::PipeFree { id: 0 }, INVALID),
        (Message::PipeFree { id: 1 }, INVALID),
        (join(0, 1), DONE),
        (Message::CompFree { id: 0 }, INVALID),
        (Message::CompFree { id: 2 }, DONE),
        (Message::BufferFree { id: 1 }, DONE),
        (Message::CompFree { id: 0 }, DONE),
        (Message::PipeFree { id: 3 }, DONE),
        (Message::PipeFree { id: 3 }, NO_DEVICE),
    ];
    answered(&rt, rt.alloc(), 4096, &parts(), &rows)
}

// A buffer on the way of a prepared stream is in a complete pipeline, so that error comes first.
#[test]
fn pieces_of_a_prepared_stream_are_held(rt: HostRuntime) -> Result<(), Fail> {
    let rows = [
        (params(0, 0, 48000), DONE),
        (Message::CompFree { id: 0 }, BUSY),
        (Message::CompFree { id: 1 }, BUSY),
        (Message::CompFree { id: 3 }, BUSY),
        (Message::BufferFree { id: 1 }, BUSY),
        (Message::BufferFree { id: 0 }, BUSY),
        (Message::PipeFree { id: 3 }, INVALID),
        (Message::PcmFree { id: 0 }, DONE),
        (Message::CompFree { id: 0 }, BUSY),
        (Message::PipeFree { id: 3 }, DONE),
        (Message::CompFree { id: 0 }, INVALID),
        (Message::BufferFree { id: 1 }, DONE),
        (Message::CompFree { id: 0 }, DONE),
    ];
    answered(&rt, rt.alloc(), 4096, &thin(), &rows)
}

// ---- values and data

#[test]
fn values_are_set_and_got(rt: HostRuntime) -> Result<(), Fail> {
    let state = [
        volume(0, 1),
        component(1, 1, CompWords::Mux),
        host(2, 1, 0),
        buffer(3, 1),
    ];
    let rows = [
        (set_value(9, 0, &[1, 2]), NO_DEVICE),
        (set_value(2, 0, &[1, 2]), INVALID),
        (set_value(3, 0, &[1, 2]), INVALID),
        (set_value(0, 1, &[1, 2]), INVALID),
        (set_value(0, 0, &[1]), INVALID),
        (set_value(0, 0, &[16777217, 2]), INVALID),
        (set_value(0, 0, &[16777216, 2]), DONE),
        (set_value(1, 0, &[1]), INVALID),
        (set_value(1, 1, &[1, 2]), INVALID),
        (set_value(1, 1, &[1]), DONE),
        (Message::GetValue { id: 9, command: 0 }, NO_DEVICE),
        (Message::GetValue { id: 2, command: 0 }, INVALID),
        (Message::GetValue { id: 3, command: 1 }, INVALID),
        (Message::GetValue { id: 0, command: 1 }, INVALID),
        (Message::GetValue { id: 0, command: 0 }, TWO_VALUES),
        (Message::GetValue { id: 1, command: 0 }, INVALID),
        (Message::GetValue { id: 1, command: 1 }, ONE_VALUE),
    ];
    answered(&rt, rt.alloc(), 4096, &state, &rows)
}

#[test]
fn masks_are_set_and_got(rt: HostRuntime) -> Result<(), Fail> {
    let state = [component(0, 1, CompWords::Demux)];
    let rows = [
        (set_value(0, 0, &[1, 2, 3, 4, 5, 6, 7, 8]), INVALID),
        (set_value(0, 2, &[1, 2, 3, 4, 5, 6, 7]), INVALID),
        (set_value(0, 2, &[1, 2, 3, 4, 5, 6, 7, 256]), INVALID),
        (set_value(0, 2, &[1, 2, 3, 4, 5, 6, 0, 255]), DONE),
        (Message::GetValue { id: 0, command: 0 }, INVALID),
        (Message::GetValue { id: 0, command: 1 }, INVALID),
        (Message::GetValue { id: 0, command: 2 }, EIGHT_VALUES),
    ];
    answered(&rt, rt.alloc(), 4096, &state, &rows)
}

#[test]
fn data_of_no_equaliser(rt: HostRuntime) -> Result<(), Fail> {
    let rows = [
        (set_data(9), NO_DEVICE),
        (set_data(0), INVALID),
        (set_data(1), INVALID),
        (Message::GetData { id: 9, index: 0 }, NO_DEVICE),
        (Message::GetData { id: 0, index: 0 }, INVALID),
        (Message::GetData { id: 1, index: 0 }, INVALID),
    ];
    answered(&rt, rt.alloc(), 4096, &parts(), &rows)
}

// ---- streams

#[test]
fn parameters_of_a_way_that_is_not_ready(rt: HostRuntime) -> Result<(), Fail> {
    let rows = [
        (params(9, 0, 48000), NO_DEVICE),
        (params(1, 0, 48000), INVALID),
        (params(2, 0, 48000), INVALID),
        (params(3, 0, 48000), INVALID),
        // Not complete, and not whole.
        (Message::PipeFree { id: 3 }, DONE),
        (pipeline(4, 9, 2), DONE),
        (Message::PipeComplete { id: 4 }, DONE),
        (join(0, 1), DONE),
        (join(1, 2), DONE),
        // No pipeline has this index.
        (params(0, 0, 48000), INVALID),
        (pipeline(3, 1, 2), DONE),
        // It is there, and not complete.
        (params(0, 0, 48000), INVALID),
        (Message::PipeComplete { id: 3 }, DONE),
        (params(0, 1, 48000), INVALID),
        (params(0, 0, 7000), INVALID),
        (params(0, 0, 44101), INVALID),
        (params(0, 0, 193000), INVALID),
        (params(0, 0, 48000), DONE),
        (params(0, 0, 8000), DONE),
        (params(0, 0, 44100), DONE),
        (params(0, 0, 192000), DONE),
    ];
    answered(&rt, rt.alloc(), 4096, &parts(), &rows)
}

// Two hosts play into a mixer, which no edge leaves at first.
#[test]
fn parameters_that_do_not_agree(rt: HostRuntime) -> Result<(), Fail> {
    let state = [
        host(0, 1, 0),
        host(6, 1, 0),
        mixer(4, 1),
        dai(2, 1, 0),
        buffer(1, 1),
        buffer(5, 1),
        buffer(7, 1),
        pipeline(3, 1, 2),
        join(0, 1),
        join(1, 4),
        join(6, 7),
        join(7, 4),
        Message::PipeComplete { id: 3 },
    ];
    let rows = [
        (params(0, 0, 48000), INVALID),
        (join(4, 5), DONE),
        (params(0, 0, 48000), INVALID),
        (join(5, 2), DONE),
        (params(0, 0, 48000), DONE),
        (params(6, 0, 96000), INVALID),
        (params(6, 0, 48000), DONE),
    ];
    answered(&rt, rt.alloc(), 4096, &state, &rows)
}

// A walk from a playback host to a capture host along no echo edge.
#[test]
fn parameters_of_a_playback_that_reaches_a_capture(rt: HostRuntime) -> Result<(), Fail> {
    let state = [
        host(0, 1, 0),
        buffer(1, 1),
        host(2, 1, 1),
        pipeline(3, 1, 0),
        join(0, 1),
        join(1, 2),
        Message::PipeComplete { id: 3 },
    ];
    let rows = [
        (params(0, 0, 48000), INVALID),
        (params(2, 1, 48000), INVALID),
    ];
    answered(&rt, rt.alloc(), 4096, &state, &rows)
}

#[test]
fn an_echo_agrees_with_its_sound(rt: HostRuntime) -> Result<(), Fail> {
    let rows = [
        (params(0, 0, 48000), INVALID),
        (Message::PipeComplete { id: 8 }, DONE),
        (params(0, 0, 48000), DONE),
        (params(6, 1, 16000), INVALID),
        (params(6, 1, 48000), DONE),
    ];
    answered(&rt, rt.alloc(), 4096, &echoed(), &rows)
}

#[test]
fn a_stream_in_each_phase(rt: HostRuntime) -> Result<(), Fail> {
    let rows = [
        (Message::PcmFree { id: 9 }, NO_DEVICE),
        (Message::TrigStart { id: 9 }, NO_DEVICE),
        (Message::TrigStop { id: 9 }, NO_DEVICE),
        (Message::TrigPause { id: 9 }, NO_DEVICE),
        (Message::TrigRelease { id: 9 }, NO_DEVICE),
        (Message::PcmFree { id: 2 }, INVALID),
        (Message::TrigStart { id: 2 }, INVALID),
        (Message::TrigStop { id: 2 }, INVALID),
        (Message::TrigPause { id: 2 }, INVALID),
        (Message::TrigRelease { id: 2 }, INVALID),
        // It is idle.
        (Message::PcmFree { id: 0 }, INVALID),
        (Message::TrigStart { id: 0 }, INVALID),
        (Message::TrigStop { id: 0 }, INVALID),
        (Message::TrigPause { id: 0 }, INVALID),
        (Message::TrigRelease { id: 0 }, INVALID),
        (params(0, 0, 48000), DONE),
        // It is prepared.
        (Message::TrigStop { id: 0 }, INVALID),
        (Message::TrigPause { id: 0 }, INVALID),
        (Message::TrigRelease { id: 0 }, INVALID),
        (Message::TrigStart { id: 0 }, DONE),
        // It is running.
        (params(0, 0, 48000), INVALID),
        (Message::PcmFree { id: 0 }, INVALID),
        (Message::TrigStart { id: 0 }, INVALID),
        (Message::TrigRelease { id: 0 }, INVALID),
        (Message::TrigPause { id: 0 }, DONE),
        // It is paused.
        (params(0, 0, 48000), INVALID),
        (Message::PcmFree { id: 0 }, INVALID),
        (Message::TrigStart { id: 0 }, INVALID),
        (Message::TrigPause { id: 0 }, INVALID),
        (Message::TrigRelease { id: 0 }, DONE),
        (Message::TrigPause { id: 0 }, DONE),
        (Message::TrigStop { id: 0 }, DONE),
        // It is prepared again.
        (Message::TrigStart { id: 0 }, DONE),
        (Message::TrigStop { id: 0 }, DONE),
        (Message::CtxSave, DONE),
        (Message::PcmFree { id: 0 }, DONE),
        (Message::PcmFree { id: 0 }, INVALID),
    ];
    answered(&rt, rt.alloc(), 4096, &thin(), &rows)
}

// ---- a full registry

// 128 components, 128 buffers and 32 pipelines.
fn full(alloc: Global) -> Result<Vec<Message>, Fail> {
    let mut state = Vec::new(alloc);
    for id in 0..128 {
        state.push(mixer(id, 0))?;
    }
    for id in 128..256 {
        state.push(buffer(id, 0))?;
    }
    for id in 256..288 {
        state.push(pipeline(id, id, 0))?;
    }
    Ok(state)
}

// There is room in the heap for more, and none in the registry.
#[test]
fn a_full_registry_refuses_the_next(rt: HostRuntime) -> Result<(), Fail> {
    let rows = [
        (mixer(300, 0), NO_MEMORY),
        (buffer(300, 0), NO_MEMORY),
        (pipeline(300, 300, 0), NO_MEMORY),
        (Message::CompFree { id: 5 }, DONE),
        (mixer(300, 0), DONE),
        (mixer(5, 0), NO_MEMORY),
        (Message::BufferFree { id: 130 }, DONE),
        (buffer(130, 0), DONE),
        (buffer(301, 0), NO_MEMORY),
        (Message::PipeFree { id: 260 }, DONE),
        (pipeline(260, 260, 0), DONE),
        (pipeline(301, 301, 0), NO_MEMORY),
    ];
    let state = full(rt.alloc())?;
    answered(&rt, rt.alloc(), 16384, &state, &rows)
}
