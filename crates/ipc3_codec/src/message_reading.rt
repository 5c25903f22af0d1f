// Bytes as a message: one function for each, its words in the order of the profile's table.
ghost use Rattle.std.specs.Prelude.{◌≡◌, IfOk, IfErr, Ok, Err, Some};
ghost use Rattle.ipc3_model.specs.Messages.{decoded, places_of, message_of};
ghost use Rattle.ipc3_model.specs.Meanings.{IsMessage, Means, message_fault};
ghost use Rattle.ipc3_codec.specs.Reading.{read_as, set_value_in, get_value_in, set_data_in, get_data_in, command_in, framed_message_in};
ghost use Rattle.ipc3_model.specs.declared.command.CommandWord.TheVariants as commands;
ghost use Rattle.ipc3_model.specs.declared.message.Message.{Message as Value};
ghost use Rattle.ipc3_model.specs.declared.fault.CodecFault.{CodecFault as Fault};

use crate::component_reading::comp_new;
use crate::control_reading::{control_words, part, target, values};
use crate::frame::Frame;
use crate::stream_reading::pcm_params;
use ipc3_model::command::CommandWord;
use ipc3_model::control_kind::ControlKind;
use ipc3_model::{CodecFault, Message};

/// CONNECT, 16 bytes.
fn connect(frame: &Frame) -> Result<Message, CodecFault>
    ensures { result ≡ read_as frame.now (places_of frame.now commands.Connect) (message_of frame.now commands.Connect) }
{
    let source = frame.word(8)?;
    let sink = frame.word(12)?;
    Ok(Message::Connect { source, sink })
}

/// PIPE_NEW, 48 bytes.
fn pipe_new(frame: &Frame) -> Result<Message, CodecFault>
    ensures { result ≡ read_as frame.now (places_of frame.now commands.PipeNew) (message_of frame.now commands.PipeNew) }
{
    let id = frame.word(8)?;
    let pipe = frame.word(12)?;
    let sched = frame.word(16)?;
    let _core = frame.word(20)?;
    let period = frame.period(24)?;
    let priority = frame.word(28)?;
    let mips = frame.word(32)?;
    let frames = frame.word(36)?;
    let _xrun_limit = frame.word(40)?;
    let time_domain = frame.word(44)?;
    Ok(Message::PipeNew {
        id,
        pipe,
        sched,
        period,
        priority,
        mips,
        frames,
        time_domain,
    })
}

/// BUFFER_NEW, 44 bytes.
fn buffer_new(frame: &Frame) -> Result<Message, CodecFault>
    ensures { result ≡ read_as frame.now (places_of frame.now commands.BufferNew) (message_of frame.now commands.BufferNew) }
{
    let id = frame.word(8)?;
    let _type = frame.buffer_type(12)?;
    let pipe = frame.word(16)?;
    let _core = frame.word(20)?;
    let _ext_data_length = frame.word(24)?;
    let size = frame.buffer_size(28)?;
    let caps = frame.word(32)?;
    let _flags = frame.word(36)?;
    let _reserved = frame.word(40)?;
    Ok(Message::BufferNew {
        id,
        pipe,
        size,
        caps,
    })
}

/// SET_VALUE, 92 bytes and 8 for each value.
#[tactic(auto, unfolding(crate::specs::Reading::set_value_in))]
fn set_value(frame: &Frame) -> Result<Message, CodecFault>
    ensures { result ≡ set_value_in frame.now }
{
    let id = target(frame, ControlKind::SetValue)?;
    let control = control_words(frame, ControlKind::SetValue)?;
    let values = values(frame, control.count)?;
    Ok(Message::SetValue {
        id,
        command: control.command,
        values,
    })
}

/// GET_VALUE, 92 bytes.
#[tactic(auto, unfolding(crate::specs::Reading::get_value_in))]
fn get_value(frame: &Frame) -> Result<Message, CodecFault>
    ensures { result ≡ get_value_in frame.now }
{
    let id = target(frame, ControlKind::GetValue)?;
    let control = control_words(frame, ControlKind::GetValue)?;
    Ok(Message::GetValue {
        id,
        command: control.command,
    })
}

/// SET_DATA, 124 bytes and those of the part.
#[tactic(auto, unfolding(crate::specs::Reading::set_data_in))]
fn set_data(frame: &Frame) -> Result<Message, CodecFault>
    ensures { result ≡ set_data_in frame.now }
{
    let id = target(frame, ControlKind::SetData)?;
    let control = control_words(frame, ControlKind::SetData)?;
    let part = part(frame, control)?;
    Ok(Message::SetData { id, part })
}

/// GET_DATA, 92 bytes.
#[tactic(auto, unfolding(crate::specs::Reading::get_data_in))]
fn get_data(frame: &Frame) -> Result<Message, CodecFault>
    ensures { result ≡ get_data_in frame.now }
{
    let id = target(frame, ControlKind::GetData)?;
    let control = control_words(frame, ControlKind::GetData)?;
    Ok(Message::GetData {
        id,
        index: control.index,
    })
}

/// The message of a command. Where nothing is written of it, it has 12 bytes, and its id is after the header.
#[tactic(auto, unfolding(crate::specs::Reading::command_in))]
fn message(frame: &Frame, command: CommandWord) -> Result<Message, CodecFault>
    ensures { result ≡ command_in frame.now command }
{
    match command {
        CommandWord::CompNew => comp_new(frame),
        CommandWord::CompFree => Ok(Message::CompFree { id: frame.word(8)? }),
        CommandWord::Connect => connect(frame),
        CommandWord::PipeNew => pipe_new(frame),
        CommandWord::PipeFree => Ok(Message::PipeFree { id: frame.word(8)? }),
        CommandWord::PipeComplete => Ok(Message::PipeComplete { id: frame.word(8)? }),
        CommandWord::BufferNew => buffer_new(frame),
        CommandWord::BufferFree => Ok(Message::BufferFree { id: frame.word(8)? }),
        CommandWord::CtxSave => Ok(Message::CtxSave),
        CommandWord::SetValue => set_value(frame),
        CommandWord::GetValue => get_value(frame),
        CommandWord::SetData => set_data(frame),
        CommandWord::GetData => get_data(frame),
        CommandWord::PcmParams => pcm_params(frame),
        CommandWord::PcmFree => Ok(Message::PcmFree { id: frame.word(8)? }),
        CommandWord::TrigStart => Ok(Message::TrigStart { id: frame.word(8)? }),
        CommandWord::TrigStop => Ok(Message::TrigStop { id: frame.word(8)? }),
        CommandWord::TrigPause => Ok(Message::TrigPause { id: frame.word(8)? }),
        CommandWord::TrigRelease => Ok(Message::TrigRelease { id: frame.word(8)? }),
    }
}

#[tactic(auto, unfolding(crate::specs::Reading::numbered_in))]
fn framed_message(bytes: &[u8]) -> Result<Message, CodecFault>
    ensures { result ≡ framed_message_in bytes.now }
{
    let frame = Frame::new(bytes, 8)?;
    match CommandWord::from_number(frame.command()) {
        Some(command) => message(&frame, command),
        None => Err(CodecFault::Command(frame.command())),
    }
}

/// The message that the bytes carry, whatever stands after it, or their first fault.
pub fn decode(bytes: &[u8]) -> Result<Message, CodecFault>
    ensures exact { result ≡ decoded bytes.now }
    // What is decoded is a message that the bytes carry.
    ensures found { IfOk result (λ m. IsMessage m × Means bytes.now m) }
    // A message that the bytes carry is decoded.
    ensures only { (m : Value) → IsMessage m → Means bytes.now m → result ≡ Ok m }
    // A fault is the first one.
    ensures fault { IfErr result (λ f. message_fault bytes.now ≡ Some f) }
    // The first fault is answered.
    ensures fault_only { (f : Fault) → message_fault bytes.now ≡ Some f → result ≡ Err f }
{
    framed_message(bytes)
}
