// The top call.
ghost use Rattle.std.specs.Prelude.{◌≡◌, map, None, string_bytes};
ghost use Rattle.tplg_source.specs.Outcome.{source_for};
ghost use Rattle.run_tools.specs.CompileTodo.{MakesTopology};
ghost use Rattle.sof_run.specs.Forms.{GaveSent, todo_of};
ghost use Rattle.sof_run.specs.Run.{RunContract};

use crate::stress::do_stress;
use mbox_link::Dsp;
use run_desk::{Ended, stop};
use run_play::do_play;
use run_replay::do_replay;
use run_tools::{do_check, do_compile, do_decode, do_graph, do_source};
use run_words::{Request, read_request};
use sof_desk::Desk;
use std::alloc::Global;

// All that the words ask for.
fn do_words<D: Desk, P: Dsp>(alloc: Global, words: &[String], desk: &mut D, dsp: P) -> Ended<P>
    requires off { P.means.on dsp ≡ None }
    requires pending { P.means.pending dsp ≡ 0 }
    ensures gave { GaveSent D.means P.means (map string_bytes words.now) (λ sent. todo_of (P.means.most dsp) sent (map string_bytes words.now)) desk.old dsp result.status desk.new result.dsp }
    ensures sound { MakesTopology D.means (map string_bytes words.now) desk.old result.status }
{
    match read_request(words, dsp.room()) {
        Some(Request::Play(form)) => do_play(alloc, form, desk, dsp),
        Some(Request::Check(name)) => Ended {
            status: do_check(alloc, name, desk),
            dsp,
        },
        Some(Request::Picture(name)) => Ended {
            status: do_graph(alloc, name, desk),
            dsp,
        },
        Some(Request::Compile(names)) => Ended {
            status: do_compile(alloc, names, desk),
            dsp,
        },
        Some(Request::Source(files)) => Ended {
            status: do_source(alloc, files, desk),
            dsp,
        },
        Some(Request::Stress(seed)) => do_stress(alloc, seed, desk, dsp),
        Some(Request::Decode(name)) => Ended {
            status: do_decode(alloc, name, desk),
            dsp,
        },
        Some(Request::Replay(name)) => do_replay(alloc, name, desk, dsp),
        None => Ended {
            status: stop(desk, b"words\n", 1),
            dsp,
        },
    }
}

/// Does what the words ask for over a desk and a device, and hands the device back.
///
/// The words are `play HEAP TOPOLOGY SCRIPT`, `dynamic HEAP TOPOLOGY SCRIPT`, `check TOPOLOGY`, `graph TOPOLOGY`, `compile SOURCE OUT`,
/// `source TOPOLOGY OUT`, `stress N`, `trace HEAP TOPOLOGY SCRIPT TRACE`, `decode TRACE` or `replay TRACE`: HEAP is a decimal number of
/// bytes without a needless leading zero, at most the device's room, N is one from 1 to 1000, and each name has 1 to 255 bytes. `dynamic`
/// is `play` over a device in which a pipeline is there while a stream needs it that is not closed. A topology, a script and a source have
/// at most 1048576 bytes, a trace 16777216. The script's inputs, of any length, are opened and its outputs created in the order of its lines,
/// before the commands; `trace` creates its file after them, in slot 4294967295. Before each tick, and before each other command, the
/// inputs are read until each holds the bytes that it may take or has ended. After it the records of the device's calls are appended where
/// they are kept, then the bytes of the outputs, and then the command's lines are said. `replay` gives the records of a trace to the
/// device, one after another. The statuses: 0 all commands were carried out, the topology is right, its picture was said, the source's or
/// the topology's file was made, all records were described, or all were given and each reply is the device's; 1 the words are of no form; 2 the
/// topology file is broken, the topology breaks a rule, `source` makes no source of it, the trace has a fault, or a record of it can't be given or is
/// not what the device does; 3 the desk failed; 4 a line of the script is at fault, or binds what it may not, or the source is refused; 5 a
/// file is too long; 7 there was no memory; 8 the script has more than 60000 ticks, with those of its lags; 10 the device failed while
/// records were given to it.
pub fn run<D: Desk, P: Dsp>(alloc: Global, words: &[String], desk: &mut D, dsp: P) -> Ended<P>
    requires off { P.means.on dsp ≡ None }
    requires pending { P.means.pending dsp ≡ 0 }
    ensures { RunContract source_for D.means P.means (map string_bytes words.now) desk.old dsp result.status desk.new result.dsp }
{
    do_words(alloc, words, desk, dsp)
}
