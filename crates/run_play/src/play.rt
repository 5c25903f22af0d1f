// A script that is played: the files, and then the session.
ghost use Rattle.std.specs.Prelude.{◌≡◌, ◌≤◌, [], None, true, false, is_some, option_map};
ghost use Rattle.run_desk.specs.Todo.{Free};
ghost use Rattle.run_play.specs.HandedBack.{GaveBy};
ghost use Rattle.run_play.specs.KeptTurns.{KeptTurn, GaveKept};
ghost use Rattle.run_words.specs.FormParts.{form as form_of};
ghost use Rattle.sof_script.specs.ScriptRead.{script_read};
ghost use Rattle.run_desk.specs.Halts.{IsCarriable};
ghost use Rattle.run_play.specs.Ranges.{IsInRange};
ghost use Rattle.run_play.specs.Play.{play, ready_todo};

use crate::carry::do_commands;
use crate::keeping::{TraceBuffer, Untraced};
use crate::opening::{bind_all, open_all, open_trace};
use ipc3_trace::Tracer;
use mbox_link::Dsp;
use run_desk::{Ended, LIMIT, Ready, fail_no_memory, fetch, prepare, status_of, stop_for};
use run_words::Form;
use sof_desk::Desk;
use sof_io::{Inputs, Outputs};
use sof_session::Session;
use std::alloc::Global;

// Takes the memory of a run: the places of its bindings, and a session over the device, in the mode that the words ask for. Then come the
// files, that of the trace last, and then the commands.
fn do_session<D: Desk, K: TraceBuffer>(
    alloc: Global,
    form: Form<'_>,
    ready: Ready,
    desk: &mut D,
    dsp: K,
) -> Ended<K>
    requires off { K.means.on dsp ≡ None }
    requires pending { K.means.pending dsp ≡ 0 }
    requires fits { form.heap ≤ K.means.most dsp }
    requires carriable { IsCarriable ready.plan (script_read ready.script) }
    requires sound { IsInRange (script_read ready.script) }
    requires keeps { form.trace ≡ None → (k : K) → K.holds k ≡ [] }
    ensures { GaveBy D.means K.means (KeptTurn K.means K.holds K.empties) (Free (ready_todo form.entry.on_use form.entry.heap (option_map (λ name. name.now) form.entry.trace) ready.plan (script_read ready.script))) desk.old dsp result.status desk.new result.dsp }
{
    let Ok(mut inputs) = Inputs::new(alloc) else {
        return fail_no_memory(desk, dsp);
    };
    let Ok(mut outputs) = Outputs::new(alloc) else {
        return fail_no_memory(desk, dsp);
    };
    let bindings = ready.script.bindings.items();
    let Ok(()) = bind_all(&ready.plan, bindings, &mut inputs, &mut outputs) else {
        return fail_no_memory(desk, dsp);
    };
    let mut session = match Session::with_mode(alloc, form.on_use, ready.plan, form.heap, dsp) {
        Ok(session) => session,
        Err(refused) => return fail_no_memory(desk, refused.dsp),
    };
    if !open_all(session.plan(), ready.script.bindings.items(), desk) {
        return Ended {
            status: 3,
            dsp: session.into_dsp(),
        };
    }
    if !open_trace(form.trace, desk) {
        return Ended {
            status: 3,
            dsp: session.into_dsp(),
        };
    }
    let commands = ready.script.commands.items();
    let done = do_commands(commands, desk, &mut session, &mut inputs, &mut outputs);
    Ended {
        status: status_of(done),
        dsp: session.into_dsp(),
    }
}

// A run over the device alone.
fn do_untraced<D: Desk, P: Dsp>(
    alloc: Global,
    form: Form<'_>,
    ready: Ready,
    desk: &mut D,
    dsp: P,
) -> Ended<P>
    requires off { P.means.on dsp ≡ None }
    requires pending { P.means.pending dsp ≡ 0 }
    requires fits { form.heap ≤ P.means.most dsp }
    requires carriable { IsCarriable ready.plan (script_read ready.script) }
    requires sound { IsInRange (script_read ready.script) }
    requires none { form.trace ≡ None }
    ensures { GaveKept D.means P.means None (Free (ready_todo form.entry.on_use form.entry.heap None ready.plan (script_read ready.script))) desk.old dsp result.status desk.new result.dsp }
{
    let ended = do_session(alloc, form, ready, desk, Untraced::new(dsp));
    Ended {
        status: ended.status,
        dsp: ended.dsp.into_dsp(),
    }
}

// A run over the device, of whose calls the records are kept.
fn do_traced<D: Desk, P: Dsp>(
    alloc: Global,
    form: Form<'_>,
    ready: Ready,
    desk: &mut D,
    dsp: P,
) -> Ended<P>
    requires off { P.means.on dsp ≡ None }
    requires pending { P.means.pending dsp ≡ 0 }
    requires fits { form.heap ≤ P.means.most dsp }
    requires carriable { IsCarriable ready.plan (script_read ready.script) }
    requires sound { IsInRange (script_read ready.script) }
    requires at_load { form.on_use ≡ false }
    requires some { is_some form.trace ≡ true }
    ensures { GaveKept D.means P.means (option_map (λ name. name.now) form.entry.trace) (Free (ready_todo form.entry.on_use form.entry.heap (option_map (λ name. name.now) form.entry.trace) ready.plan (script_read ready.script))) desk.old dsp result.status desk.new result.dsp }
{
    match Tracer::new(alloc, dsp) {
        Ok(tracer) => {
            let ended = do_session(alloc, form, ready, desk, tracer);
            Ended {
                status: ended.status,
                dsp: ended.dsp.into_dsp(),
            }
        }
        Err(refused) => fail_no_memory(desk, refused.dsp),
    }
}

// A run, of which a trace is kept where the words name one: then all pipelines are made at a load.
fn do_run<D: Desk, P: Dsp>(
    alloc: Global,
    form: Form<'_>,
    ready: Ready,
    desk: &mut D,
    dsp: P,
) -> Ended<P>
    requires off { P.means.on dsp ≡ None }
    requires pending { P.means.pending dsp ≡ 0 }
    requires fits { form.heap ≤ P.means.most dsp }
    requires carriable { IsCarriable ready.plan (script_read ready.script) }
    requires sound { IsInRange (script_read ready.script) }
    requires untraced { form.on_use ≡ true → form.trace ≡ None }
    ensures { GaveKept D.means P.means (option_map (λ name. name.now) form.entry.trace) (Free (ready_todo form.entry.on_use form.entry.heap (option_map (λ name. name.now) form.entry.trace) ready.plan (script_read ready.script))) desk.old dsp result.status desk.new result.dsp }
{
    if form.trace.is_some() {
        do_traced(alloc, form, ready, desk, dsp)
    } else {
        do_untraced(alloc, form, ready, desk, dsp)
    }
}

/// All of `play`, `dynamic` and `trace`: the files, and then the run.
pub fn do_play<D: Desk, P: Dsp>(alloc: Global, form: Form<'_>, desk: &mut D, dsp: P) -> Ended<P>
    requires off { P.means.on dsp ≡ None }
    requires pending { P.means.pending dsp ≡ 0 }
    requires fits { form.heap ≤ P.means.most dsp }
    requires untraced { form.on_use ≡ true → form.trace ≡ None }
    ensures { GaveKept D.means P.means (option_map (λ name. name.now) form.entry.trace) (play (form_of form.entry.on_use form.entry.heap form.entry.topology.now form.entry.script.now (option_map (λ name. name.now) form.entry.trace))) desk.old dsp result.status desk.new result.dsp }
{
    let topology = match fetch(alloc, desk, form.topology, LIMIT, b"too long topology\n") {
        Ok(bytes) => bytes,
        Err(status) => return Ended { status, dsp },
    };
    let script = match fetch(alloc, desk, form.script, LIMIT, b"too long script\n") {
        Ok(bytes) => bytes,
        Err(status) => return Ended { status, dsp },
    };
    match prepare(alloc, &topology, &script) {
        Ok(ready) => do_run(alloc, form, ready, desk, dsp),
        Err(halt) => Ended {
            status: stop_for(desk, halt),
            dsp,
        },
    }
}
