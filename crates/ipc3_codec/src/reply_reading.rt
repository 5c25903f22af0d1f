// Bytes as a reply.
ghost use Rattle.std.specs.Prelude.{◌≡◌, true, IfOk, IfErr, Ok, Err, Some};
ghost use Rattle.sof_base.specs.Slots.{word_at};
ghost use Rattle.ipc3_model.specs.ControlWords.{type_of, takes_count};
ghost use Rattle.ipc3_model.specs.Replies.{reply_fault, decoded_reply, is_body_type};
ghost use Rattle.ipc3_model.specs.ReplyForms.{IsReply, MeansReply};
ghost use Rattle.ipc3_codec.specs.Reading.{kind_in, payload_in, body_in, framed_reply_in};
ghost use Rattle.ipc3_model.specs.declared.reply.Reply.{Reply as ReplyValue};
ghost use Rattle.ipc3_model.specs.declared.fault.CodecFault.{CodecFault as Fault};

use crate::control_reading::{Control, control_words, part, values};
use crate::frame::Frame;
use ipc3_model::command::REPLY;
use ipc3_model::control_kind::ControlKind;
use ipc3_model::{Body, CodecFault, Reply};

/// What a reply carries after its 12 bytes.
#[tactic(auto, unfolding(crate::specs::Reading::body_in))]
fn reply_body(frame: &Frame) -> Result<Body, CodecFault>
    ensures { result ≡ body_in frame.now }
{
    if frame.size() == 12 {
        return Ok(Body::Nothing);
    }
    let kind = body_kind(frame)?;
    let control = control_words(frame, kind)?;
    payload(frame, kind, control)
}

/// The type of a reply's body: values or a part.
#[tactic(auto, unfolding(crate::specs::Reading::kind_in))]
fn body_kind(frame: &Frame) -> Result<ControlKind, CodecFault>
    ensures read { result ≡ kind_in frame.now }
    ensures sort { IfOk result (λ k. is_body_type (type_of k) ≡ true) }
{
    let _error = frame.word(8)?;
    let _component = frame.word(12)?;
    frame.body_type(16)
}

/// The values or the part of a reply.
#[tactic(auto, unfolding(crate::specs::Reading::payload_in))]
fn payload(frame: &Frame, kind: ControlKind, control: Control) -> Result<Body, CodecFault>
    requires sort { is_body_type (type_of kind) ≡ true }
    requires taken { takes_count kind control.count ≡ true }
    requires count { control.count ≡ word_at frame.now 56 }
    requires remaining { control.remaining ≡ word_at frame.now 60 }
    requires index { control.index ≡ word_at frame.now 64 }
    ensures { result ≡ payload_in frame.now kind }
{
    match kind {
        ControlKind::SetData => Ok(Body::Part(part(frame, control)?)),
        _ => Ok(Body::Values(values(frame, control.count)?)),
    }
}

fn framed_reply(bytes: &[u8]) -> Result<Reply, CodecFault>
    ensures { result ≡ framed_reply_in bytes.now }
{
    let frame = Frame::new(bytes, 12)?;
    let command = frame.command();
    if command != REPLY {
        return Err(CodecFault::Command(command));
    }
    let body = reply_body(&frame)?;
    Ok(Reply {
        error: frame.error(),
        body,
    })
}

/// The reply that the bytes carry, whatever stands after it, or their first fault.
pub fn decode_reply(bytes: &[u8]) -> Result<Reply, CodecFault>
    ensures exact { result ≡ decoded_reply bytes.now }
    // What is decoded is a reply that the bytes carry.
    ensures found { IfOk result (λ r. IsReply r × MeansReply bytes.now r) }
    // A reply that the bytes carry is decoded.
    ensures only { (r : ReplyValue) → IsReply r → MeansReply bytes.now r → result ≡ Ok r }
    // A fault is the first one.
    ensures fault { IfErr result (λ f. reply_fault bytes.now ≡ Some f) }
    // The first fault is answered.
    ensures fault_only { (f : Fault) → reply_fault bytes.now ≡ Some f → result ≡ Err f }
{
    framed_reply(bytes)
}
