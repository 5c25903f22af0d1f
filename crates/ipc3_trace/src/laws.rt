//! What holds of all bytes and of all calls. Nothing runs here.
ghost use Rattle.std.specs.Prelude.{◌≡◌, ◌<◌, ◌+◌, ◌++◌, ℕ, List, Option, None, length, slice_index};
ghost use Rattle.std.specs.List.{AllByRecursion};
ghost use Rattle.ipc3_trace.specs.Records.{IsEntry, record_bytes, records_bytes};
ghost use Rattle.ipc3_trace.specs.RecordsAt.{IsRecordAt};
ghost use Rattle.ipc3_trace.specs.WholeTraces.{IsTraceOf};
ghost use Rattle.ipc3_trace.specs.Reading.{trace_in};
ghost use Rattle.ipc3_trace.specs.CallRecords.{HoldsRecords, FitsRecords, TracerIsDevice, RecordsLead, RepliesAreFirmware};
ghost use Rattle.ipc3_trace.specs.StepsAlike.{StepsAreAlike, TicksAreAlike};
ghost use Rattle.ipc3_trace.specs.declared.entry.Entry.{Entry as Record};
ghost use Rattle.ipc3_trace.specs.declared.fault.TraceFault.{TraceFault as Fault};

use mbox_link::Dsp;

/// Bytes have one trace: records, one after the other, up to their end or their first fault. A record that is written is read again, whatever
/// stands before and after it. Records that are written one after the other are a trace without a fault.
pub fn traces_are_read()
    ensures one { (b : List ℕ) (es fs : List Record) (x y : Option Fault) → IsTraceOf b es x → IsTraceOf b fs y → (es ≡ fs) × (x ≡ y) }
    ensures read { (b : List ℕ) → ((i : ℕ) → slice_index b i < 256) → IsTraceOf b (trace_in b).0 (trace_in b).1 }
    ensures again { (e : Record) (front rest : List ℕ) → IsEntry e → IsRecordAt (front ++ (record_bytes e ++ rest)) (length front) e (length front + length (record_bytes e)) }
    ensures written { (es : List Record) → AllByRecursion IsEntry es → IsTraceOf (records_bytes es) es None }
{}

/// The step of bytes looks at no audio: from states that are alike but for their audio it leads to states that are alike, with one reply.
/// A tick leaves all but audio as it is, whatever the endpoints hold.
pub fn alike_laws()
    ensures steps { StepsAreAlike }
    ensures ticks { TicksAreAlike }
{}

/// A tracer to which all records of its calls fit holds them in order after those that it held, and each is one that a reader takes. Where
/// there is room for them all, all fit. Its calls are calls of its device, in the device's own relations.
pub fn held_law<P: Dsp>()
    ensures held { HoldsRecords P.means }
    ensures fits { FitsRecords P.means }
    ensures device { TracerIsDevice P.means }
{}

/// Where the records of plain calls lead from a device that is off or on, the device stands, but for its audio. Each reply is the firmware's.
pub fn leading_laws<P: Dsp>()
    ensures lead { RecordsLead P.means }
    ensures replies { RepliesAreFirmware P.means }
{}
