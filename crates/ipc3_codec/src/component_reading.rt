// COMP_NEW: the words of a component.
ghost use Rattle.std.specs.Prelude.{◌≡◌};
ghost use Rattle.sof_base.specs.Slots.{word_at};
ghost use Rattle.ipc3_model.specs.Messages.{kind_places};
ghost use Rattle.ipc3_codec.specs.Reading.{read_as, config_in, words_in, comp_in};
ghost use Rattle.ipc3_model.specs.declared.component_type.CompType.TheVariants as types;
ghost use Rattle.ipc3_model.specs.declared.message.CompWords.TheVariants as words;

use crate::frame::Frame;
use ipc3_model::component_type::CompType;
use ipc3_model::{CodecFault, CompWords, Message};

/// The words of a component's config that carry something.
#[derive(Clone, Copy)]
pub struct Config {
    pub periods_sink: u32,
    pub periods_source: u32,
    pub frame_fmt: u32,
}

/// COMP_NEW, from 64 to 100 bytes.
#[tactic(auto, unfolding(crate::specs::Reading::comp_in))]
pub fn comp_new(frame: &Frame) -> Result<Message, CodecFault>
    ensures { result ≡ comp_in frame.now }
{
    let id = frame.word(8)?;
    let kind = frame.comp_type(12)?;
    let pipe = frame.word(16)?;
    // core and ext_data_length
    frame.run(4, 20, 2)?;
    let config = config_words(frame, kind)?;
    let words = comp_words(frame, kind)?;
    Ok(Message::CompNew {
        id,
        pipe,
        periods_sink: config.periods_sink,
        periods_source: config.periods_source,
        frame_fmt: config.frame_fmt,
        kind: words,
    })
}

/// The config of a component of this type, from byte 28 to 64.
#[tactic(auto, unfolding(crate::specs::Reading::config_in))]
fn config_words(frame: &Frame, kind: CompType) -> Result<Config, CodecFault>
    ensures { result ≡ config_in frame.now kind }
{
    // size and command
    frame.run(4, 28, 2)?;
    let periods_sink = frame.word(36)?;
    let periods_source = frame.word(40)?;
    let _reserved = frame.word(44)?;
    let frame_fmt = frame.frame_format(48, kind)?;
    // xrun_action and two reserved words
    frame.run(4, 52, 3)?;
    Ok(Config {
        periods_sink,
        periods_source,
        frame_fmt,
    })
}

/// The words of a component's type, from byte 64 on.
#[tactic(auto, unfolding(crate::specs::Reading::words_in))]
fn comp_words(frame: &Frame, kind: CompType) -> Result<CompWords, CodecFault>
    ensures { result ≡ words_in frame.now kind }
{
    match kind {
        CompType::Host => host_words(frame),
        CompType::Dai => dai_words(frame),
        CompType::Volume => volume_words(frame),
        CompType::Mixer => Ok(CompWords::Mixer),
        CompType::Mux => Ok(CompWords::Mux),
        CompType::EqIir => eq_words(frame),
        CompType::Demux => demux_words(frame),
    }
}

fn host_words(frame: &Frame) -> Result<CompWords, CodecFault>
    ensures { result ≡ read_as frame.now (kind_places frame.now types.Host) (words.Host (word_at frame.now 64)) }
{
    let direction = frame.direction(64)?;
    let _no_irq = frame.word(68)?;
    let _dmac_config = frame.word(72)?;
    Ok(CompWords::Host { direction })
}

fn dai_words(frame: &Frame) -> Result<CompWords, CodecFault>
    ensures { result ≡ read_as frame.now (kind_places frame.now types.Dai) (words.Dai (word_at frame.now 64) (word_at frame.now 68)) }
{
    let direction = frame.direction(64)?;
    let index = frame.word(68)?;
    let _type = frame.word(72)?;
    let _reserved = frame.word(76)?;
    Ok(CompWords::Dai { direction, index })
}

fn volume_words(frame: &Frame) -> Result<CompWords, CodecFault>
    ensures { result ≡ read_as frame.now (kind_places frame.now types.Volume) (words.Volume (word_at frame.now 64) (word_at frame.now 68) (word_at frame.now 72) (word_at frame.now 76) (word_at frame.now 80)) }
{
    let channels = frame.gains(64)?;
    let min_value = frame.word(68)?;
    let max_value = frame.word(72)?;
    let ramp = frame.word(76)?;
    let initial_ramp = frame.word(80)?;
    Ok(CompWords::Volume {
        channels,
        min_value,
        max_value,
        ramp,
        initial_ramp,
    })
}

/// An equaliser's size, type and seven reserved words.
#[tactic(auto, unfolding(crate::specs::Reading::run_in))]
fn eq_words(frame: &Frame) -> Result<CompWords, CodecFault>
    ensures { result ≡ read_as frame.now (kind_places frame.now types.EqIir) words.Eq }
{
    frame.run(4, 64, 9)?;
    Ok(CompWords::Eq)
}

/// A demux's size, type and seven reserved words.
#[tactic(auto, unfolding(crate::specs::Reading::run_in))]
fn demux_words(frame: &Frame) -> Result<CompWords, CodecFault>
    ensures { result ≡ read_as frame.now (kind_places frame.now types.Demux) words.Demux }
{
    frame.run(4, 64, 9)?;
    Ok(CompWords::Demux)
}
