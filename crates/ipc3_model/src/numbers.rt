//! The numbers of the format, written out. Definitions take them from the constants of the code, and this law says what they
//! are, after SOF's IPC3 (ABI 3).

ghost use Rattle.std.specs.Prelude.{◌≡◌};
ghost use Rattle.sof_base.specs.Samples.{frame_format};
ghost use Rattle.sof_base.specs.declared.format.Format.TheVariants.{S16, S24, S32};
ghost use Rattle.ipc3_model.specs.Commands.{command_number};
ghost use Rattle.ipc3_model.specs.ComponentTypes.{type_number};
ghost use Rattle.ipc3_model.specs.ControlWords.{type_of};
ghost use Rattle.ipc3_model.specs.StreamWords.{format_of_word};
ghost use Rattle.ipc3_model.specs.declared.command.CommandWord.TheVariants as commands;
ghost use Rattle.ipc3_model.specs.declared.command.TheConstants.{REPLY};
ghost use Rattle.ipc3_model.specs.declared.component_type.CompType.TheVariants as types;
ghost use Rattle.ipc3_model.specs.declared.component_type.TheConstants.{BUFFER};
ghost use Rattle.ipc3_model.specs.declared.control_kind.ControlKind.TheVariants as kinds;
ghost use Rattle.ipc3_model.specs.declared.control_kind.TheConstants.{CTRL_VOLUME, CTRL_ENUM, CTRL_BINARY};

/// The command words of messages and of every reply, the type words of components, buffers and controls, the commands of
/// controls, and the frame formats as they are written and as they are read. Nothing runs here.
pub fn format_numbers()
    ensures comp_new { command_number commands.CompNew ≡ 0x3001_0000 }
    ensures comp_free { command_number commands.CompFree ≡ 0x3002_0000 }
    ensures connect { command_number commands.Connect ≡ 0x3003_0000 }
    ensures pipe_new { command_number commands.PipeNew ≡ 0x3010_0000 }
    ensures pipe_free { command_number commands.PipeFree ≡ 0x3011_0000 }
    ensures pipe_complete { command_number commands.PipeComplete ≡ 0x3013_0000 }
    ensures buffer_new { command_number commands.BufferNew ≡ 0x3020_0000 }
    ensures buffer_free { command_number commands.BufferFree ≡ 0x3021_0000 }
    ensures ctx_save { command_number commands.CtxSave ≡ 0x4001_0000 }
    ensures set_value { command_number commands.SetValue ≡ 0x5001_0000 }
    ensures get_value { command_number commands.GetValue ≡ 0x5002_0000 }
    ensures set_data { command_number commands.SetData ≡ 0x5003_0000 }
    ensures get_data { command_number commands.GetData ≡ 0x5004_0000 }
    ensures pcm_params { command_number commands.PcmParams ≡ 0x6001_0000 }
    ensures pcm_free { command_number commands.PcmFree ≡ 0x6003_0000 }
    ensures trig_start { command_number commands.TrigStart ≡ 0x6004_0000 }
    ensures trig_stop { command_number commands.TrigStop ≡ 0x6005_0000 }
    ensures trig_pause { command_number commands.TrigPause ≡ 0x6006_0000 }
    ensures trig_release { command_number commands.TrigRelease ≡ 0x6007_0000 }
    ensures reply { REPLY ≡ 0x1000_0000 }
    ensures ends { (type_number types.Host ≡ 1) × (type_number types.Dai ≡ 2) }
    ensures kernels { (type_number types.Volume ≡ 5) × (type_number types.Mixer ≡ 6) × (type_number types.Mux ≡ 7) × (type_number types.EqIir ≡ 13) }
    ensures buffer { BUFFER ≡ 12 }
    ensures values { (type_of kinds.GetValue ≡ 0) × (type_of kinds.SetValue ≡ 1) }
    ensures parts { (type_of kinds.GetData ≡ 4) × (type_of kinds.SetData ≡ 5) }
    ensures controls { (CTRL_VOLUME ≡ 0) × (CTRL_ENUM ≡ 1) × (CTRL_BINARY ≡ 3) }
    ensures s16 { (frame_format S16 ≡ 0) × (format_of_word 0 ≡ S16) }
    ensures s24 { (frame_format S24 ≡ 1) × (format_of_word 1 ≡ S24) }
    ensures s32 { (frame_format S32 ≡ 2) × (format_of_word 2 ≡ S32) }
{}
