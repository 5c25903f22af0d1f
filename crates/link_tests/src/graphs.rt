// Graphs whose pipelines are made on use, by their sources.

/// Two hosts, each in a pipeline of its own, into a mixer, which has its DAI in a third.
pub const MIX: &[u8] = br#"[[widget]]
kind = "aif_in"
name = "PCM0P"
index = 1
sname = "P0"
[[widget]]
kind = "buffer"
name = "BA"
index = 1
size = 1536
[[widget]]
kind = "scheduler"
name = "PIPE1"
index = 1
sname = "PCM0P"
period = 1000
[[widget]]
kind = "aif_in"
name = "PCM1P"
index = 2
sname = "P1"
[[widget]]
kind = "buffer"
name = "BB"
index = 2
size = 1536
[[widget]]
kind = "scheduler"
name = "PIPE2"
index = 2
sname = "PCM1P"
period = 4000
[[widget]]
kind = "mixer"
name = "MIX"
index = 3
[[widget]]
kind = "buffer"
name = "BC"
index = 3
size = 768
[[widget]]
kind = "dai_out"
name = "DAI0"
index = 3
format = "s32le"
[[widget]]
kind = "scheduler"
name = "PIPE3"
index = 3
sname = "DAI0"
period = 1000
[[route]]
sink = "BA"
source = "PCM0P"
[[route]]
sink = "MIX"
source = "BA"
[[route]]
sink = "BB"
source = "PCM1P"
[[route]]
sink = "MIX"
source = "BB"
[[route]]
sink = "BC"
source = "MIX"
[[route]]
sink = "DAI0"
source = "BC"
[[pcm]]
name = "Main"
id = 0
playback = "P0"
formats = ["s16le", "s24le", "s32le"]
rate_min = 8000
rate_max = 192000
channels_min = 1
channels_max = 8
[[pcm]]
name = "Main1"
id = 1
playback = "P1"
formats = ["s16le", "s24le", "s32le"]
rate_min = 8000
rate_max = 192000
channels_min = 1
channels_max = 8
"#;

/// A host and a demux in a pipeline, and a DAI and a capture, each fed by the demux, in two others.
pub const ECHO_PIPES: &[u8] = br#"[[widget]]
kind = "aif_in"
name = "PCM0P"
index = 1
sname = "P0"
[[widget]]
kind = "buffer"
name = "B0"
index = 1
size = 768
[[widget]]
kind = "effect"
name = "DM"
index = 1
process = "DEMUX"
[[widget]]
kind = "scheduler"
name = "PIPE1"
index = 1
sname = "PCM0P"
period = 1000
[[widget]]
kind = "buffer"
name = "BX"
index = 2
size = 768
[[widget]]
kind = "dai_out"
name = "DAI0"
index = 2
format = "s16le"
[[widget]]
kind = "scheduler"
name = "PIPE2"
index = 2
sname = "DAI0"
period = 1000
[[widget]]
kind = "buffer"
name = "BY"
index = 3
size = 768
[[widget]]
kind = "aif_out"
name = "PCM0C"
index = 3
sname = "C0"
[[widget]]
kind = "scheduler"
name = "PIPE3"
index = 3
sname = "PCM0C"
period = 1000
[[route]]
sink = "B0"
source = "PCM0P"
[[route]]
sink = "DM"
source = "B0"
[[route]]
sink = "BX"
source = "DM"
[[route]]
sink = "DAI0"
source = "BX"
[[route]]
sink = "BY"
source = "DM"
[[route]]
sink = "PCM0C"
source = "BY"
[[pcm]]
name = "Main"
id = 0
playback = "P0"
formats = ["s16le", "s24le", "s32le"]
rate_min = 8000
rate_max = 192000
channels_min = 1
channels_max = 8
[[pcm]]
name = "Echo"
id = 1
capture = "C0"
formats = ["s16le", "s24le", "s32le"]
rate_min = 8000
rate_max = 192000
channels_min = 1
channels_max = 8
"#;

/// A host, an equaliser and a DAI in a pipeline.
pub const EQUALISER: &[u8] = br#"[[widget]]
kind = "aif_in"
name = "PCM0P"
index = 1
sname = "P0"
[[widget]]
kind = "buffer"
name = "B0"
index = 1
size = 768
[[widget]]
kind = "effect"
name = "EQ0"
index = 1
process = "EQIIR"
control = { name = "Eq", max = 1024, blob = "" }
[[widget]]
kind = "buffer"
name = "B1"
index = 1
size = 768
[[widget]]
kind = "dai_out"
name = "DAI0"
index = 1
format = "s32le"
[[widget]]
kind = "scheduler"
name = "PIPE1"
index = 1
sname = "DAI0"
period = 1000
[[route]]
sink = "B0"
source = "PCM0P"
[[route]]
sink = "EQ0"
source = "B0"
[[route]]
sink = "B1"
source = "EQ0"
[[route]]
sink = "DAI0"
source = "B1"
[[pcm]]
name = "Main"
id = 0
playback = "P0"
formats = ["s16le", "s24le", "s32le"]
rate_min = 8000
rate_max = 192000
channels_min = 1
channels_max = 8
"#;
