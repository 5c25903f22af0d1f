// Graphs by their sources, and the files that they compile to.
use sof_base::NoMemory;
use std::alloc::Global;
use tplg_compile::compile;
use tplg_write::write;

/// A host, a buffer of 768 bytes and a DAI, in a pipeline of 1000 µs.
pub const THIN: &[u8] = br#"[[widget]]
kind = "aif_in"
name = "PCM0P"
index = 1
sname = "P0"
[[widget]]
kind = "buffer"
name = "B0"
index = 1
size = 768
[[widget]]
kind = "dai_out"
name = "DAI0"
index = 1
format = "s32le"
[[widget]]
kind = "scheduler"
name = "PIPE1"
index = 1
sname = "DAI0"
period = 1000
[[route]]
sink = "B0"
source = "PCM0P"
[[route]]
sink = "DAI0"
source = "B0"
[[pcm]]
name = "Main"
id = 0
playback = "P0"
formats = ["s16le", "s24le", "s32le"]
rate_min = 8000
rate_max = 192000
channels_min = 1
channels_max = 8
"#;

/// A host, a buffer, a volume of two channels, a buffer and a DAI, in a pipeline of 1000 µs. The volume begins with a gain of 1.
pub const VOLUME: &[u8] = br#"[[widget]]
kind = "aif_in"
name = "PCM0P"
index = 1
sname = "P0"
[[widget]]
kind = "buffer"
name = "B0"
index = 1
size = 768
[[widget]]
kind = "pga"
name = "VOL0"
index = 1
[widget.control]
name = "Master"
channels = 2
min = 0
max = 32
tlv_min = -6400
tlv_step = 200
tlv_mute = 1
[[widget]]
kind = "buffer"
name = "B1"
index = 1
size = 768
[[widget]]
kind = "dai_out"
name = "DAI0"
index = 1
format = "s32le"
[[widget]]
kind = "scheduler"
name = "PIPE1"
index = 1
sname = "DAI0"
period = 1000
[[route]]
sink = "B0"
source = "PCM0P"
[[route]]
sink = "VOL0"
source = "B0"
[[route]]
sink = "B1"
source = "VOL0"
[[route]]
sink = "DAI0"
source = "B1"
[[pcm]]
name = "Main"
id = 0
playback = "P0"
formats = ["s16le", "s24le", "s32le"]
rate_min = 8000
rate_max = 192000
channels_min = 1
channels_max = 8
"#;

/// The topology's file of a source of at most 1 MiB, or why there is none.
pub fn graph(alloc: Global, source: &[u8]) -> Result<Vec<u8>, &'static str> {
    if source.len() > 1048576 {
        return Err("a long source");
    }
    let Ok(topology) = compile(alloc, source) else {
        return Err("no source");
    };
    let mut out = Vec::new(alloc);
    match write(&topology, &mut out) {
        Ok(()) => Ok(out),
        Err(NoMemory) => Err("no memory"),
    }
}
