//! The numbers of the file format, written out.

ghost use Rattle.std.specs.Prelude.{◌≡◌};
ghost use Rattle.tplg_model.specs.declared.array_type.TheConstants as array_type;
ghost use Rattle.tplg_model.specs.declared.block_header.TheConstants as header;
ghost use Rattle.tplg_model.specs.declared.block_type.TheConstants as block_type;
ghost use Rattle.tplg_model.specs.declared.control_kind.TheConstants as control_kind;
ghost use Rattle.tplg_model.specs.declared.token_number.TheConstants as token;
ghost use Rattle.tplg_model.specs.declared.widget_kind.TheConstants as widget_kind;

/// The magic word 0x41536F43, the version and the bytes of a header, the types of blocks that are read as records, the operations
/// of controls, the types of vendor arrays, the kinds of widgets and the tokens, after the ALSA topology (ABI 5) and the tokens of
/// SOF. Nothing runs here: definitions name these constants, and this law says what they are.
pub fn format_numbers()
    ensures header { (header.MAGIC ≡ 1095987011) × (header.ABI ≡ 5) × (header.HEADER_BYTES ≡ 36) }
    ensures blocks { (block_type.DAPM_GRAPH ≡ 4) × (block_type.DAPM_WIDGET ≡ 5) × (block_type.PCM ≡ 7) × (block_type.MANIFEST ≡ 8) }
    ensures controls { (control_kind.MIXER ≡ 1) × (control_kind.ENUM ≡ 4) × (control_kind.BYTES ≡ 5) }
    ensures arrays { (array_type.UUID ≡ 0) × (array_type.STRING ≡ 1) × (array_type.BOOL ≡ 2) × (array_type.BYTE ≡ 3) × (array_type.WORD ≡ 4) × (array_type.SHORT ≡ 5) }
    ensures ends { (widget_kind.INPUT ≡ 0) × (widget_kind.OUTPUT ≡ 1) × (widget_kind.AIF_IN ≡ 11) × (widget_kind.AIF_OUT ≡ 12) × (widget_kind.DAI_IN ≡ 13) × (widget_kind.DAI_OUT ≡ 14) }
    ensures widgets { (widget_kind.MUX ≡ 2) × (widget_kind.MIXER ≡ 3) × (widget_kind.PGA ≡ 4) × (widget_kind.BUFFER ≡ 16) × (widget_kind.SCHEDULER ≡ 17) × (widget_kind.EFFECT ≡ 18) }
    ensures buffers { (token.BUFFER_SIZE ≡ 100) × (token.BUFFER_CAPS ≡ 101) }
    ensures dais { (token.DAI_TYPE ≡ 154) × (token.DAI_INDEX ≡ 155) × (token.DAI_DIRECTION ≡ 156) }
    ensures schedulers { (token.SCHED_PERIOD ≡ 200) × (token.SCHED_PRIORITY ≡ 201) × (token.SCHED_MIPS ≡ 202) × (token.SCHED_CORE ≡ 203) × (token.SCHED_FRAMES ≡ 204) × (token.SCHED_TIME_DOMAIN ≡ 205) }
    ensures volumes { (token.VOLUME_RAMP_TYPE ≡ 250) × (token.VOLUME_RAMP_MS ≡ 251) }
    ensures components { (token.PERIOD_SINK_COUNT ≡ 400) × (token.PERIOD_SOURCE_COUNT ≡ 401) × (token.COMP_FORMAT ≡ 402) × (token.COMP_UUID ≡ 405) × (token.PROCESS_TYPE ≡ 900) }
{}
