// Each fault at each kind of record: what the reader says of a file that has one of each, with some bytes changed.
use crate::amplified::volume;
use crate::same::same;
use crate::stated::{
    fault_of, named, put_byte, put_header, put_pcm, put_route, put_widget, topology_of, widget,
    written,
};
use sof_base::Items;
use std::alloc::Global;
use std::test::Fail;
use tplg_build::{Choices, SourceControl, SourceWidget, TopologySource, WidgetKind};
use tplg_model::token_number::BUFFER_SIZE;
use tplg_model::{Block, Body, Control, Widget, block_type};
use tplg_read::TplgFault;

fn mux(alloc: Global) -> Result<SourceWidget, Fail> {
    let mut items = Items::new(alloc);
    items.push(named(b"First")?)?;
    let control = SourceControl::Choice {
        name: named(b"Source")?,
        items: Choices::of(items),
    };
    Ok(widget(alloc, WidgetKind::Mux, b"MUX0", b"")?.with_control(control)?)
}

fn effect(alloc: Global) -> Result<SourceWidget, Fail> {
    let control = SourceControl::Blob {
        name: named(b"Filter")?,
        max: 0,
        blob: Items::new(alloc),
    };
    Ok(widget(alloc, WidgetKind::Effect, b"EQ0", b"")?.with_control(control)?)
}

fn buffer(alloc: Global) -> Result<SourceWidget, Fail> {
    Ok(widget(alloc, WidgetKind::Buffer, b"B0", b"")?.with_number(BUFFER_SIZE, 768)?)
}

fn put_widgets(alloc: Global, source: &mut TopologySource) -> Result<(), Fail> {
    put_widget(source, volume(alloc)?)?;
    put_widget(source, mux(alloc)?)?;
    put_widget(source, effect(alloc)?)?;
    put_widget(source, buffer(alloc)?)
}

// A volume with a mixer control, a mux with an enum, an effect with a bytes control, a buffer with an array, a route and a
// PCM.
fn one_of_most(alloc: Global) -> Result<TopologySource, Fail> {
    let mut source = TopologySource::new(alloc);
    put_widgets(alloc, &mut source)?;
    put_route(&mut source, b"VOL0", b"B0")?;
    put_pcm(&mut source)?;
    Ok(source)
}

// A manifest of 4 bytes, and the rest after it, each in a block of its own.
fn one_of_each(alloc: Global) -> Result<Vec<u8>, Fail> {
    let mut manifest = Vec::new(alloc);
    put_header(&mut manifest, block_type::MANIFEST, 116)?;
    manifest.extend_from_slice(&112u32.to_le_bytes())?;
    manifest.extend_from_slice(&[0; 104])?;
    manifest.extend_from_slice(&[4, 0, 0, 0, 7, 7, 7, 7])?;
    written(alloc, &one_of_most(alloc)?, manifest)
}

// Where bytes are changed, how many, to what, and the fault.
const CHANGES: [(usize, usize, u8, TplgFault); 76] = [
    // the header of each block: magic, abi, its own size, a payload beyond the file
    (0, 1, 0x44, TplgFault::Magic(0)),
    (4, 1, 6, TplgFault::Abi(0, 6)),
    (16, 1, 0x23, TplgFault::HeaderSize(0)),
    (27, 1, 1, TplgFault::Truncated(0)),
    (152, 1, 0x44, TplgFault::Magic(152)),
    (156, 1, 6, TplgFault::Abi(152, 6)),
    (168, 1, 0x23, TplgFault::HeaderSize(152)),
    (179, 1, 1, TplgFault::Truncated(152)),
    (680, 1, 0x44, TplgFault::Magic(680)),
    (684, 1, 6, TplgFault::Abi(680, 6)),
    (696, 1, 0x23, TplgFault::HeaderSize(680)),
    (707, 1, 1, TplgFault::Truncated(680)),
    (2612, 1, 0x44, TplgFault::Magic(2612)),
    (2616, 1, 6, TplgFault::Abi(2612, 6)),
    (2628, 1, 0x23, TplgFault::HeaderSize(2612)),
    (2639, 1, 1, TplgFault::Truncated(2612)),
    (3020, 1, 0x44, TplgFault::Magic(3020)),
    (3024, 1, 6, TplgFault::Abi(3020, 6)),
    (3036, 1, 0x23, TplgFault::HeaderSize(3020)),
    (3047, 1, 1, TplgFault::Truncated(3020)),
    (3208, 1, 0x44, TplgFault::Magic(3208)),
    (3212, 1, 6, TplgFault::Abi(3208, 6)),
    (3224, 1, 0x23, TplgFault::HeaderSize(3208)),
    (3235, 1, 1, TplgFault::Truncated(3208)),
    (3376, 1, 0x44, TplgFault::Magic(3376)),
    (3380, 1, 6, TplgFault::Abi(3376, 6)),
    (3392, 1, 0x23, TplgFault::HeaderSize(3376)),
    (3403, 1, 1, TplgFault::Truncated(3376)),
    // a payload of one byte less than its last record, or that record's control, needs
    (24, 1, 0x73, TplgFault::Payload(36)),
    (176, 1, 0xeb, TplgFault::Payload(320)),
    (704, 1, 0x67, TplgFault::Payload(848)),
    (2636, 1, 0x73, TplgFault::Payload(2780)),
    (3044, 1, 0x97, TplgFault::Payload(3056)),
    (3232, 1, 0x83, TplgFault::Payload(3244)),
    (3400, 1, 0x8f, TplgFault::Payload(3412)),
    // a payload with a record more, and with one less, than it has
    (32, 1, 2, TplgFault::Payload(152)),
    (32, 1, 0, TplgFault::Payload(36)),
    (184, 1, 2, TplgFault::Payload(680)),
    (184, 1, 0, TplgFault::Payload(188)),
    (712, 1, 2, TplgFault::Payload(2612)),
    (712, 1, 0, TplgFault::Payload(716)),
    (2644, 1, 2, TplgFault::Payload(3020)),
    (2644, 1, 0, TplgFault::Payload(2648)),
    (3052, 1, 2, TplgFault::Payload(3208)),
    (3052, 1, 0, TplgFault::Payload(3056)),
    (3240, 1, 2, TplgFault::Payload(3376)),
    (3240, 1, 0, TplgFault::Payload(3244)),
    (3408, 1, 2, TplgFault::Payload(4324)),
    (3408, 1, 0, TplgFault::Payload(3412)),
    // private data beyond the payload: of a manifest, a widget, each kind of control, a PCM
    (147, 1, 1, TplgFault::Payload(36)),
    (319, 1, 1, TplgFault::Payload(188)),
    (3187, 1, 1, TplgFault::Payload(3056)),
    (679, 1, 1, TplgFault::Payload(320)),
    (2611, 1, 1, TplgFault::Payload(848)),
    (3019, 1, 1, TplgFault::Payload(2780)),
    (4323, 1, 1, TplgFault::Payload(3412)),
    // a name without an end: of a widget, each kind of control, a route, a PCM
    (196, 44, 0x41, TplgFault::Name(188)),
    (240, 44, 0x41, TplgFault::Name(188)),
    (328, 44, 0x41, TplgFault::Name(320)),
    (856, 44, 0x41, TplgFault::Name(848)),
    (2788, 44, 0x41, TplgFault::Name(2780)),
    (3244, 44, 0x41, TplgFault::Name(3244)),
    (3288, 44, 0x41, TplgFault::Name(3244)),
    (3332, 44, 0x41, TplgFault::Name(3244)),
    (3416, 44, 0x41, TplgFault::Name(3412)),
    (3460, 44, 0x41, TplgFault::Name(3412)),
    (3528, 44, 0x41, TplgFault::Name(3412)),
    (4032, 44, 0x41, TplgFault::Name(3412)),
    (4108, 44, 0x41, TplgFault::Name(3412)),
    (4212, 44, 0x41, TplgFault::Name(3412)),
    // a control of another kind
    (384, 1, 7, TplgFault::ControlKind(320, 7)),
    (912, 1, 0, TplgFault::ControlKind(848, 0)),
    (2844, 1, 6, TplgFault::ControlKind(2780, 6)),
    // a vendor array of another type, size, and number of elements
    (3192, 1, 6, TplgFault::Tokens(3056)),
    (3188, 1, 0x15, TplgFault::Tokens(3056)),
    (3196, 1, 2, TplgFault::Tokens(3056)),
];

// The file with so many bytes from a place on changed.
fn changed(alloc: Global, at: usize, count: usize, byte: u8) -> Result<Vec<u8>, Fail> {
    let mut file = one_of_each(alloc)?;
    for i in 0..count {
        put_byte(&mut file, at.wrapping_add(i), byte)?;
    }
    Ok(file)
}

// What the only widget has: a control of which kind.
fn control_of(widgets: &[Widget]) -> &'static str {
    let [widget] = widgets else {
        return "not one widget";
    };
    match widget.controls.items() {
        [] => "none",
        [Control::Mixer { .. }] => "mixer",
        [Control::Enum { .. }] => "enum",
        [Control::Bytes { .. }] => "bytes",
        _ => "several",
    }
}

// Which records a block has; of a widget, its control.
fn records_of(block: &Block) -> &'static str {
    match &block.body {
        Body::Manifests(_) => "manifests",
        Body::Widgets(widgets) => control_of(widgets.items()),
        Body::Routes(_) => "routes",
        Body::Pcms(_) => "PCMs",
        Body::Other { .. } => "kept bytes",
    }
}

#[test]
fn a_file_with_one_of_each_is_read(rt: HostRuntime) -> Result<(), Fail> {
    let alloc = rt.alloc();
    let topology = topology_of(alloc, &one_of_each(alloc)?).ok_or("a fault")?;
    let blocks = topology.blocks.items();
    same(&rt, &"the end", &blocks.len(), &7);
    let records = [
        "manifests",
        "mixer",
        "enum",
        "bytes",
        "none",
        "routes",
        "PCMs",
    ];
    for place in 0..7usize {
        let read = blocks.get(place).map(|block| records_of(block));
        same(&rt, &place, &read, &records.get(place).copied());
    }
    Ok(())
}

#[test]
fn each_fault_of_each_record_is_told(rt: HostRuntime) -> Result<(), Fail> {
    let alloc = rt.alloc();
    let file = one_of_each(alloc)?;
    same(&rt, &"its end", &file.len(), &4324);
    same(&rt, &"no byte", &fault_of(alloc, &file), &None);
    for &(at, count, byte, fault) in &CHANGES {
        let file = changed(alloc, at, count, byte)?;
        same(&rt, &at, &fault_of(alloc, &file), &Some(fault));
    }
    Ok(())
}
