// What the labels say.
ghost use Rattle.std.specs.Prelude.{◌≡◌, ◌++◌, ◌==◌, OnOk, find};
ghost use Rattle.std.specs.Option.{option_copied};
ghost use Rattle.host_widgets.specs.Controls as controls;
ghost use Rattle.sof_script.specs.KindWords as kinds;
ghost use Rattle.tplg_picture.specs.Labels as law;

use crate::gains::say_gains;
use crate::shown::{Shown, ShownPcm, live_name_at, shown_pcm_with};
use crate::words::{say, say_escaped, say_number, say_span};
use sof_base::NoMemory;
use sof_script::kind_words;
use stream_law::{Comp, Kind};
use tplg_model::Caps;
use tplg_plan::{ControlKind, ControlPlan, Plan, StreamPlan};

// The name of a widget; empty where there is none of this id.
fn name_of(plan: &Plan, id: u32) -> &[u8]
    ensures { result.now ≡ kinds.name_of plan.now id }
{
    match plan.names.items().get(id as usize) {
        Some(name) => name.as_bytes(),
        None => &[],
    }
}

/// The name of a widget.
pub fn say_name(line: &mut Vec<u8>, plan: &Plan, id: u32) -> Result<(), NoMemory>
    ensures { OnOk result (line.new.items ≡ line.old.items ++ law.escaped_name plan.now id) }
{
    say_escaped(line, name_of(plan, id))
}

// The PCM of a stream, where it is known.
#[tactic(auto, unfolding(crate::specs::Labels::pcm_label))]
fn say_pcm(line: &mut Vec<u8>, pcm: Option<&ShownPcm>) -> Result<(), NoMemory>
    ensures { OnOk result (line.new.items ≡ line.old.items ++ law.pcm_label (option_copied pcm.entry)) }
{
    match pcm {
        None => Ok(()),
        Some(pcm) => {
            say(line, b"\\nPCM ")?;
            say_number(line, pcm.id)?;
            say(line, b" ")?;
            say_escaped(line, pcm.name.as_bytes())
        }
    }
}

// Its rates and its channels.
#[tactic(auto, unfolding(crate::specs::Labels::rate_label))]
fn say_rates(line: &mut Vec<u8>, caps: &Caps) -> Result<(), NoMemory>
    ensures { OnOk result (line.new.items ≡ line.old.items ++ law.rate_label caps.now) }
{
    say(line, b"\\n")?;
    say_span(line, caps.rate_min, caps.rate_max)?;
    say(line, b" Hz, channels ")?;
    say_span(line, caps.channels_min, caps.channels_max)
}

fn stream_of(plan: &Plan, id: u32) -> Option<&StreamPlan>
    ensures { option_copied result ≡ find (λ s. s.host == id) plan.now.streams }
{
    plan.streams.items().iter().find(|s| s.host == id)
}

// The stream of a component, where it is a host.
#[tactic(auto, unfolding(crate::specs::Labels::stream_label))]
fn say_stream(line: &mut Vec<u8>, shown: &Shown, plan: &Plan, id: u32) -> Result<(), NoMemory>
    ensures { OnOk result (line.new.items ≡ line.old.items ++ law.stream_label shown.now (find (λ s. s.host == id) plan.now.streams)) }
{
    match stream_of(plan, id) {
        None => Ok(()),
        Some(stream) => {
            let name = stream.caps.name.as_bytes();
            say_pcm(
                line,
                shown_pcm_with(shown.pcms.items(), stream.capture, name),
            )?;
            say_rates(line, &stream.caps)
        }
    }
}

// A volume's ramp, where it has one.
#[tactic(auto, unfolding(crate::specs::Labels::ramp_label))]
fn say_ramp(line: &mut Vec<u8>, ramp: u32) -> Result<(), NoMemory>
    ensures { OnOk result (line.new.items ≡ line.old.items ++ law.ramp_label ramp) }
{
    if ramp == 0 {
        return Ok(());
    }
    say(line, b"\\nramp ")?;
    say_number(line, ramp)?;
    say(line, b" ms")
}

// The name of a control, where it has one.
#[tactic(auto, unfolding(crate::specs::Labels::title_label))]
fn say_title(line: &mut Vec<u8>, name: &[u8]) -> Result<(), NoMemory>
    ensures { OnOk result (line.new.items ≡ line.old.items ++ law.title_label name.now) }
{
    if name.is_empty() {
        return Ok(());
    }
    say(line, b"\\ncontrol ")?;
    say_escaped(line, name)
}

// What a live control takes.
fn say_range(line: &mut Vec<u8>, kind: &ControlKind) -> Result<(), NoMemory>
    ensures { OnOk result (line.new.items ≡ line.old.items ++ law.range_label kind.now) }
{
    match kind {
        ControlKind::Volume {
            min,
            max,
            channels,
            tlv_min,
            tlv_step,
            tlv_mute,
        } => {
            say(line, b"\\nvalues ")?;
            say_span(line, *min, *max)?;
            say(line, b", channels ")?;
            say_number(line, *channels as u32)?;
            say_gains(line, *min, *max, *tlv_min, *tlv_step, *tlv_mute)
        }
        ControlKind::Choice { items } => {
            say(line, b"\\nchoices ")?;
            say_number(line, *items)
        }
        ControlKind::Blob { max, .. } => {
            say(line, b"\\nblob up to ")?;
            say_number(line, *max)?;
            say(line, b" bytes")
        }
        ControlKind::Masks { min, max, channels } => {
            say(line, b"\\nmasks ")?;
            say_span(line, *min, *max)?;
            say(line, b", outputs ")?;
            say_number(line, *channels as u32)
        }
    }
}

fn control_of(plan: &Plan, id: u32) -> Option<&ControlPlan>
    ensures { option_copied result ≡ controls.control_of plan.now id }
{
    plan.controls.items().iter().find(|c| c.comp == id)
}

// The live control of a component, where it has one.
#[tactic(auto, unfolding(crate::specs::Labels::control_label))]
fn say_control(line: &mut Vec<u8>, shown: &Shown, plan: &Plan, id: u32) -> Result<(), NoMemory>
    ensures { OnOk result (line.new.items ≡ line.old.items ++ law.control_label shown.now (controls.control_of plan.now id)) }
{
    match control_of(plan, id) {
        None => Ok(()),
        Some(control) => {
            say_title(line, live_name_at(shown, control.comp))?;
            say_range(line, &control.kind)
        }
    }
}

/// What a component is.
#[tactic(auto, unfolding(crate::specs::Labels::comp_label))]
pub fn say_comp(line: &mut Vec<u8>, plan: &Plan, shown: &Shown, comp: &Comp) -> Result<(), NoMemory>
    ensures { OnOk result (line.new.items ≡ line.old.items ++ law.comp_label plan.now shown.now comp.now) }
{
    say_name(line, plan, comp.id)?;
    say(line, b"\\n")?;
    say(line, kind_words(comp.kind))?;
    say_stream(line, shown, plan, comp.id)?;
    say_ramp(line, comp.ramp)?;
    say_control(line, shown, plan, comp.id)
}

/// The colour of a kind, light enough for black text.
pub fn fill_of(kind: Kind) -> &'static [u8]
    ensures { result.now ≡ law.fill_of kind }
{
    match kind {
        Kind::HostPlay => b"#8dd3c7",
        Kind::HostCapture => b"#80b1d3",
        Kind::DaiPlay(_) => b"#fdb462",
        Kind::DaiCapture(_) => b"#fb8072",
        Kind::Volume => b"#b3de69",
        Kind::Mixer => b"#ffffb3",
        Kind::Mux => b"#fccde5",
        Kind::Eq => b"#bebada",
        Kind::Demux => b"#d9d9d9",
    }
}
