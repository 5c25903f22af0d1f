// What each message does, and what is answered.
ghost use Rattle.std.specs.Prelude.{◌≡◌, ℕ, IfOk, Err};
ghost use Rattle.ipc3_model.specs.Meanings.{IsAllowed};
ghost use Rattle.mbox_link.specs.Step.{row, row_of, body, body_of};
ghost use Rattle.row_laws.specs.RowLaws.{HasBytes};
ghost use Rattle.fw_core.specs.Held.{IsPieceHeld, state_in};
ghost use Rattle.fw_core.specs.Answers.{IsRow, bare_answer};

use crate::data_rows::{get_part, set_part};
use crate::free_rows::free_row;
use crate::join_rows::{connect, pipe_complete};
use crate::new_rows::{buffer_new, comp_new, pipe_new};
use crate::stream_rows::{pcm_params, trigger_row};
use crate::value_rows::{get_value, set_value};
use fw_components::Registry;
use fw_heap::Region;
use fw_pipeline::{Item, Trigger};
use ipc3_codec::{Body, CodecFault, Message};
use sof_base::Errno;

/// Does what a message says, and gives the body of its reply, or tells why not. Bytes that were no message are not valid.
pub(crate) fn answer(
    registry: &mut Registry,
    region: &mut Region,
    message: &Result<Message, CodecFault>,
) -> Result<Body, Errno>
    requires message { IfOk message.now (λ m. IsAllowed m × HasBytes m) }
    requires held { IsPieceHeld registry.old region.old }
    ensures row { IsRow (λ f. row_of f message.now) registry.old registry.new region.old region.new result }
    ensures body { IfOk result (λ said. (clock : ℕ) → said ≡ body_of (state_in registry.old region.old clock) message.now) }
{
    match message {
        Ok(message) => handle(registry, region, message),
        Err(_fault) => Err(Errno::INVALID),
    }
}

// The same for a message. Values and parts alone are the body of a reply.
fn handle(registry: &mut Registry, region: &mut Region, message: &Message) -> Result<Body, Errno>
    requires allowed { IsAllowed message.now }
    requires bytes { HasBytes message.now }
    requires held { IsPieceHeld registry.old region.old }
    ensures row { IsRow (λ f. row f message.now) registry.old registry.new region.old region.new result }
    ensures body { IfOk result (λ said. (clock : ℕ) → said ≡ body (state_in registry.old region.old clock) message.now) }
{
    match message {
        Message::CompNew {
            id,
            pipe,
            frame_fmt,
            kind,
            ..
        } => bare(comp_new(registry, region, *id, *pipe, *kind, *frame_fmt)),
        Message::BufferNew { id, pipe, size, .. } => {
            bare(buffer_new(registry, region, *id, *pipe, *size))
        }
        Message::PipeNew {
            id,
            pipe,
            sched,
            period,
            ..
        } => bare(pipe_new(registry, region, *id, *pipe, *sched, *period)),
        Message::Connect { source, sink } => bare(connect(registry, *source, *sink)),
        Message::PipeComplete { id } => bare(pipe_complete(registry, *id)),
        Message::CompFree { id } => bare(free_row(registry, region, *id, Item::Component)),
        Message::BufferFree { id } => bare(free_row(registry, region, *id, Item::Buffer)),
        Message::PipeFree { id } => bare(free_row(registry, region, *id, Item::Pipeline)),
        Message::SetValue {
            id,
            command,
            values,
        } => bare(set_value(registry, *id, *command, values)),
        Message::GetValue { id, command } => get_value(registry, *id, *command),
        Message::SetData { id, part } => bare(set_part(registry, *id, part)),
        Message::GetData { id, index } => get_part(registry, *id, *index),
        Message::PcmParams {
            host,
            direction,
            params,
        } => bare(pcm_params(registry, *host, *direction, *params)),
        Message::PcmFree { id } => bare(trigger_row(registry, *id, Trigger::Free)),
        Message::TrigStart { id } => bare(trigger_row(registry, *id, Trigger::Start)),
        Message::TrigStop { id } => bare(trigger_row(registry, *id, Trigger::Stop)),
        Message::TrigPause { id } => bare(trigger_row(registry, *id, Trigger::Pause)),
        Message::TrigRelease { id } => bare(trigger_row(registry, *id, Trigger::Release)),
        Message::CtxSave => Ok(Body::Nothing),
    }
}

// The answer to a message that tells nothing.
fn bare(answer: Result<(), Errno>) -> Result<Body, Errno>
    ensures { result ≡ bare_answer answer }
{
    answer?;
    Ok(Body::Nothing)
}
