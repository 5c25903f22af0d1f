// The text of a source.
ghost use Rattle.std.specs.Prelude.{◌≡◌, ◌++◌, codes, OnOk, IfOk};
ghost use Rattle.std.specs.List.{flat_map};
ghost use Rattle.tplg_build.specs.declared.source.SourceControl.TheVariants.{Volume, Choice, Blob};
ghost use Rattle.tplg_compile.specs.KeyTables.{number_tokens, text_tokens};
ghost use Rattle.tplg_compile.specs.ProgramValues.{keyed_by};
ghost use Rattle.tplg_source.specs.SourceText as law;

use crate::key_lines::{
    filled_at_key, hex_at_key, number_at_key, optional_at_key, signed_at_key, text_at_key,
    texts_at_key,
};
use crate::text_values::say;
use sof_base::{Items, Name44, NoMemory};
use std::alloc::Global;
use tplg_build::{
    Choices, PcmLimits, SourceControl, SourcePcm, SourceRoute, SourceWidget, TopologySource,
    WidgetKind,
};
use tplg_compile::keys::{NUMBER_TOKENS, TEXT_TOKENS, TokenKey};
use tplg_model::{NumberTuple, TextTuple};
use tplg_widgets::before_zero;

fn kind_word(kind: WidgetKind) -> &'static [u8]
    ensures { result.now ≡ law.kind_word kind }
{
    match kind {
        WidgetKind::Input => b"input",
        WidgetKind::Output => b"output",
        WidgetKind::Mux => b"mux",
        WidgetKind::Mixer => b"mixer",
        WidgetKind::Pga => b"pga",
        WidgetKind::AifIn => b"aif_in",
        WidgetKind::AifOut => b"aif_out",
        WidgetKind::DaiIn => b"dai_in",
        WidgetKind::DaiOut => b"dai_out",
        WidgetKind::Buffer => b"buffer",
        WidgetKind::Scheduler => b"scheduler",
        WidgetKind::Effect => b"effect",
    }
}

// The key of a token, of these.
fn key_in(keys: &[TokenKey], token: u32) -> &'static [u8]
    ensures { result.now ≡ law.key_in (keyed_by keys.now) token }
{
    for key in keys {
        if key.token == token {
            return key.key.as_bytes();
        }
    }
    &[]
}

fn number_key(token: u32) -> &'static [u8]
    ensures { result.now ≡ law.key_in number_tokens token }
{
    key_in(&NUMBER_TOKENS, token)
}

fn text_key(token: u32) -> &'static [u8]
    ensures { result.now ≡ law.key_in text_tokens token }
{
    key_in(&TEXT_TOKENS, token)
}

#[tactic(auto, unfolding(crate::specs::SourceText::number_line))]
fn say_number_token(out: &mut Vec<u8>, number: &NumberTuple) -> Result<(), NoMemory>
    ensures { OnOk result (out.new.items ≡ out.old.items ++ law.number_line number.now) }
{
    number_at_key(out, number_key(number.token), number.value)
}

fn say_numbers(out: &mut Vec<u8>, numbers: &[NumberTuple]) -> Result<(), NoMemory>
    ensures { OnOk result (out.new.items ≡ out.old.items ++ flat_map law.number_line numbers.now) }
{
    for number in numbers {
        say_number_token(out, number)?;
    }
    Ok(())
}

#[tactic(auto, unfolding(crate::specs::SourceText::text_line))]
fn say_text_token(alloc: Global, out: &mut Vec<u8>, text: &TextTuple) -> Result<(), NoMemory>
    ensures { OnOk result (out.new.items ≡ out.old.items ++ law.text_line text.now) }
{
    text_at_key(alloc, out, text_key(text.token), before_zero(&text.bytes))
}

fn say_token_texts(alloc: Global, out: &mut Vec<u8>, texts: &[TextTuple]) -> Result<(), NoMemory>
    ensures { OnOk result (out.new.items ≡ out.old.items ++ flat_map law.text_line texts.now) }
{
    for text in texts {
        say_text_token(alloc, out, text)?;
    }
    Ok(())
}

// The scale of a volume's values, in hundredths of a decibel.
#[derive(Clone, Copy)]
struct Scale {
    min: i32,
    step: u32,
    mute: u32,
}

// The keys of a volume.
fn say_volume(
    alloc: Global,
    out: &mut Vec<u8>,
    name: &Name44,
    channels: u32,
    min: i32,
    max: i32,
    scale: Scale,
) -> Result<(), NoMemory>
    ensures { OnOk result (out.new.items ≡ out.old.items ++ law.control_keys (Volume name.now channels min max scale.min scale.step scale.mute)) }
{
    text_at_key(alloc, out, b"name", name.as_bytes())?;
    number_at_key(out, b"channels", channels)?;
    signed_at_key(out, b"min", min)?;
    signed_at_key(out, b"max", max)?;
    signed_at_key(out, b"tlv_min", scale.min)?;
    number_at_key(out, b"tlv_step", scale.step)?;
    number_at_key(out, b"tlv_mute", scale.mute)
}

// The keys of a choice.
fn say_choice(
    alloc: Global,
    out: &mut Vec<u8>,
    name: &Name44,
    items: &Choices,
) -> Result<(), NoMemory>
    ensures { OnOk result (out.new.items ≡ out.old.items ++ law.control_keys (Choice name.now items.now)) }
{
    text_at_key(alloc, out, b"name", name.as_bytes())?;
    texts_at_key(alloc, out, b"items", items.items())
}

// The keys of a blob.
fn say_blob(
    alloc: Global,
    out: &mut Vec<u8>,
    name: &Name44,
    max: u32,
    blob: &[u8],
) -> Result<(), NoMemory>
    ensures { OnOk result (out.new.items ≡ out.old.items ++ law.control_keys (Blob name.now max blob.now)) }
{
    text_at_key(alloc, out, b"name", name.as_bytes())?;
    number_at_key(out, b"max", max)?;
    hex_at_key(alloc, out, b"blob", blob)
}

// The keys of a control.
fn say_control_keys(
    alloc: Global,
    out: &mut Vec<u8>,
    control: &SourceControl,
) -> Result<(), NoMemory>
    ensures { OnOk result (out.new.items ≡ out.old.items ++ law.control_keys control.now) }
{
    match control {
        SourceControl::Volume {
            name,
            channels,
            min,
            max,
            tlv_min,
            tlv_step,
            tlv_mute,
        } => {
            let scale = Scale {
                min: *tlv_min,
                step: *tlv_step,
                mute: *tlv_mute,
            };
            say_volume(alloc, out, name, *channels, *min, *max, scale)
        }
        SourceControl::Choice { name, items } => say_choice(alloc, out, name, items),
        SourceControl::Blob { name, max, blob } => say_blob(alloc, out, name, *max, blob.items()),
    }
}

#[tactic(auto, unfolding(crate::specs::SourceText::control_text))]
fn say_control(alloc: Global, out: &mut Vec<u8>, control: &SourceControl) -> Result<(), NoMemory>
    ensures { OnOk result (out.new.items ≡ out.old.items ++ law.control_text control.now) }
{
    say(out, b"[widget.control]\n")?;
    say_control_keys(alloc, out, control)
}

fn say_controls(
    alloc: Global,
    out: &mut Vec<u8>,
    controls: &[SourceControl],
) -> Result<(), NoMemory>
    ensures { OnOk result (out.new.items ≡ out.old.items ++ flat_map law.control_text controls.now) }
{
    for control in controls {
        say_control(alloc, out, control)?;
    }
    Ok(())
}

// The keys that each widget has, and its stream's name.
#[tactic(auto, unfolding(crate::specs::SourceText::widget_head))]
fn say_widget_head(alloc: Global, out: &mut Vec<u8>, widget: &SourceWidget) -> Result<(), NoMemory>
    ensures { OnOk result (out.new.items ≡ out.old.items ++ law.widget_head widget.now) }
{
    text_at_key(alloc, out, b"kind", kind_word(widget.kind))?;
    text_at_key(alloc, out, b"name", widget.name.as_bytes())?;
    number_at_key(out, b"index", widget.index)?;
    filled_at_key(alloc, out, b"sname", widget.sname.as_bytes())
}

#[tactic(auto, unfolding(crate::specs::SourceText::widget_text))]
fn say_widget(alloc: Global, out: &mut Vec<u8>, widget: &SourceWidget) -> Result<(), NoMemory>
    ensures { OnOk result (out.new.items ≡ out.old.items ++ law.widget_text widget.now) }
{
    say(out, b"[[widget]]\n")?;
    say_widget_head(alloc, out, widget)?;
    say_numbers(out, widget.numbers.items())?;
    say_token_texts(alloc, out, widget.texts.items())?;
    say_controls(alloc, out, widget.controls.items())
}

#[tactic(auto, unfolding(crate::specs::SourceText::route_text))]
fn say_route(alloc: Global, out: &mut Vec<u8>, route: &SourceRoute) -> Result<(), NoMemory>
    ensures { OnOk result (out.new.items ≡ out.old.items ++ law.route_text route.now) }
{
    say(out, b"[[route]]\n")?;
    text_at_key(alloc, out, b"sink", route.sink.as_bytes())?;
    text_at_key(alloc, out, b"source", route.source.as_bytes())
}

// A format's word, where its bit is set.
fn put_format(
    formats: u64,
    bit: u64,
    word: &[u8],
    words: &mut Items<Name44>,
) -> Result<(), NoMemory>
    ensures { OnOk result (words.new ≡ words.old ++ law.format_word formats bit word.now) }
{
    if formats & bit == 0 {
        return Ok(());
    }
    match Name44::new(word) {
        Some(name) => words.push(name),
        None => Err(NoMemory),
    }
}

#[tactic(auto, unfolding(crate::specs::SourceText::format_list))]
fn format_list(alloc: Global, formats: u64) -> Result<Items<Name44>, NoMemory>
    ensures { IfOk result (λ ws. ws ≡ law.format_list formats) }
{
    let mut words = Items::new(alloc);
    put_format(formats, 4, b"s16le", &mut words)?;
    put_format(formats, 64, b"s24le", &mut words)?;
    put_format(formats, 1024, b"s32le", &mut words)?;
    Ok(words)
}

fn say_formats(alloc: Global, out: &mut Vec<u8>, formats: u64) -> Result<(), NoMemory>
    ensures { OnOk result (out.new.items ≡ out.old.items ++ law.key_line (codes "formats") (law.text_list (law.format_list formats))) }
{
    let words = format_list(alloc, formats)?;
    texts_at_key(alloc, out, b"formats", words.items())
}

#[tactic(auto, unfolding(crate::specs::SourceText::limits_text))]
fn say_limits(alloc: Global, out: &mut Vec<u8>, limits: &PcmLimits) -> Result<(), NoMemory>
    ensures { OnOk result (out.new.items ≡ out.old.items ++ law.limits_text limits.now) }
{
    say_formats(alloc, out, limits.formats)?;
    number_at_key(out, b"rate_min", limits.rate_min)?;
    number_at_key(out, b"rate_max", limits.rate_max)?;
    number_at_key(out, b"channels_min", limits.channels_min)?;
    number_at_key(out, b"channels_max", limits.channels_max)
}

#[tactic(auto, unfolding(crate::specs::SourceText::pcm_text))]
fn say_pcm(alloc: Global, out: &mut Vec<u8>, pcm: &SourcePcm) -> Result<(), NoMemory>
    ensures { OnOk result (out.new.items ≡ out.old.items ++ law.pcm_text pcm.now) }
{
    say(out, b"[[pcm]]\n")?;
    text_at_key(alloc, out, b"name", pcm.name.as_bytes())?;
    number_at_key(out, b"id", pcm.id)?;
    optional_at_key(alloc, out, b"playback", pcm.playback.as_ref())?;
    optional_at_key(alloc, out, b"capture", pcm.capture.as_ref())?;
    say_limits(alloc, out, &pcm.limits)
}

fn say_widgets(alloc: Global, out: &mut Vec<u8>, widgets: &[SourceWidget]) -> Result<(), NoMemory>
    ensures { OnOk result (out.new.items ≡ out.old.items ++ flat_map law.widget_text widgets.now) }
{
    for widget in widgets {
        say_widget(alloc, out, widget)?;
    }
    Ok(())
}

fn say_routes(alloc: Global, out: &mut Vec<u8>, routes: &[SourceRoute]) -> Result<(), NoMemory>
    ensures { OnOk result (out.new.items ≡ out.old.items ++ flat_map law.route_text routes.now) }
{
    for route in routes {
        say_route(alloc, out, route)?;
    }
    Ok(())
}

fn say_pcms(alloc: Global, out: &mut Vec<u8>, pcms: &[SourcePcm]) -> Result<(), NoMemory>
    ensures { OnOk result (out.new.items ≡ out.old.items ++ flat_map law.pcm_text pcms.now) }
{
    for pcm in pcms {
        say_pcm(alloc, out, pcm)?;
    }
    Ok(())
}

/// The text of a source.
pub fn source_text(alloc: Global, source: &TopologySource) -> Result<Vec<u8>, NoMemory>
    ensures { IfOk result (λ text. text.items ≡ law.source_text source.now) }
{
    let mut out = Vec::new(alloc);
    say_widgets(alloc, &mut out, source.widgets.items())?;
    say_routes(alloc, &mut out, source.routes.items())?;
    say_pcms(alloc, &mut out, source.pcms.items())?;
    Ok(out)
}
