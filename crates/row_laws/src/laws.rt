// What each row of the firmware's table keeps, in the table's order, and what else changes a state. Nothing runs here.
ghost use Rattle.row_laws.specs.RowLaws as law;

use ipc3_model::messages_are_decoded;

/// Each row that is done keeps what every state keeps:
/// - COMP_NEW, BUFFER_NEW and PIPE_NEW: a component, buffer or pipeline more. A buffer is joined to nothing and has an empty ring. A
///   pipeline is not complete.
/// - COMP_FREE, BUFFER_FREE and PIPE_FREE: one less, with a component's stream, history and staged parts, or a buffer's joins and ring.
/// - CONNECT: a join more, the last in order. PIPE_COMPLETE: a pipeline that is complete.
/// - SET_VALUE: other gains of a volume, to which it ramps where it is Live, another choice of a mux, or other masks of a demux.
///   SET_DATA: a part that is staged, or a blob that is in force, with an epoch of its own and nothing staged.
/// - PCM_PARAMS: a stream that is Prepared with its parameters. PCM_FREE: one without parameters.
/// - TRIG_START, TRIG_STOP, TRIG_PAUSE and TRIG_RELEASE: a stream in its next phase.
/// - GET_VALUE, GET_DATA and CTX_SAVE: the state stays.
pub fn table_laws()
    ensures comp_new { law.CompNewKeeps }
    ensures buffer_new { law.BufferNewKeeps }
    ensures pipe_new { law.PipeNewKeeps }
    ensures connect { law.ConnectKeeps }
    ensures pipe_complete { law.PipeCompleteKeeps }
    ensures comp_free { law.CompFreeKeeps }
    ensures buffer_free { law.BufferFreeKeeps }
    ensures pipe_free { law.PipeFreeKeeps }
    ensures set_value { law.SetValueKeeps }
    ensures get_value { law.GetValueKeeps }
    ensures set_data { law.SetDataKeeps }
    ensures get_data { law.GetDataKeeps }
    ensures pcm_params { law.PcmParamsKeeps }
    ensures pcm_free { law.PcmFreeKeeps }
    ensures trig_start { law.TrigStartKeeps }
    ensures trig_stop { law.TrigStopKeeps }
    ensures trig_pause { law.TrigPauseKeeps }
    ensures trig_release { law.TrigReleaseKeeps }
    ensures ctx_save { law.CtxSaveKeeps }
{}

/// What every state keeps is kept by the row of any message, by the step of any bytes, whether they carry a message or not, and by a
/// tick. A boot makes a state that keeps it.
pub fn state_laws()
    ensures row { law.RowKeeps }
    ensures step { law.StepKeeps }
    ensures boot { law.BootIsKept }
    ensures tick { law.TickIsKept }
{
    messages_are_decoded();
}
