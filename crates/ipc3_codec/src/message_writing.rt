// Messages as bytes: their words in the order of the profile's table.
ghost use Rattle.std.specs.Prelude.{◌≡◌, ◌≤◌, ◌+◌, ◌*◌, ◌++◌, [], ◌∷◌, length, take};
ghost use Rattle.sof_base.specs.Cells.{written};
ghost use Rattle.sof_base.specs.Slots.{Word, Size, slots_cells};
ghost use Rattle.ipc3_model.specs.Commands.{command_number};
ghost use Rattle.ipc3_model.specs.Messages.{comp_size, kind_slots, message_spelling, size_of};
ghost use Rattle.ipc3_model.specs.declared.message.Message.TheVariants as messages;

use crate::component_reading::Config;
use crate::control_reading::Control;
use crate::control_writing::{Head, put_control, put_part_control, put_value_control};
use crate::stream_writing::put_params;
use crate::written_words::put;
use ipc3_model::command::CommandWord;
use ipc3_model::component_type::BUFFER;
use ipc3_model::control_kind::{CTRL_BINARY, ControlKind};
use ipc3_model::{CompWords, Message};
use sof_base::{Bounded, Part};

/// Writes the words of a component's type after its config.
#[tactic(auto, unfolding(sof_base::specs::Slots::words_bytes, sof_base::specs::Slots::slots_cells, sof_base::specs::Slots::slot_cells))]
fn put_comp_words(out: &mut [u8; 384], at: usize, kind: CompWords) -> usize
    requires { at + 36 ≤ 384 }
    ensures end { result + 64 ≡ at + comp_size kind }
    ensures bytes { take result out.new ≡ take at out.old ++ written (slots_cells (kind_slots kind)) }
{
    match kind {
        CompWords::Host { direction } => put(out, at, &[direction, 0, 0]),
        CompWords::Dai { direction, index } => put(out, at, &[direction, index, 0, 0]),
        CompWords::Volume {
            channels,
            min_value,
            max_value,
            ramp,
            initial_ramp,
        } => put(
            out,
            at,
            &[channels, min_value, max_value, ramp, initial_ramp],
        ),
        CompWords::Mixer | CompWords::Mux => put(out, at, &[]),
        CompWords::Eq | CompWords::Demux => put(out, at, &[0; 9]),
    }
}

/// COMP_NEW, from 64 to 100 bytes.
#[tactic(auto, unfolding(sof_base::specs::Slots::words_bytes, sof_base::specs::Slots::slots_cells, sof_base::specs::Slots::slot_cells))]
fn put_comp(out: &mut [u8; 384], id: u32, pipe: u32, config: Config, kind: CompWords) -> usize
    ensures end { result ≡ comp_size kind }
    ensures bytes { take result out.new ≡ message_spelling (messages.CompNew id pipe config.periods_sink config.periods_source config.frame_fmt kind) }
{
    let at = put(out, 0, &[kind.comp_size(), CommandWord::CompNew.number()]);
    let at = put(out, at, &[id, kind.comp_type().number(), pipe, 0, 0]);
    let at = put(
        out,
        at,
        &[36, 0, config.periods_sink, config.periods_source, 0],
    );
    let at = put(out, at, &[config.frame_fmt, 0, 0, 0]);
    put_comp_words(out, at, kind)
}

/// A message that has an id alone, 12 bytes.
#[tactic(auto, unfolding(sof_base::specs::Slots::words_bytes, sof_base::specs::Slots::slots_cells, sof_base::specs::Slots::slot_cells))]
fn put_id(out: &mut [u8; 384], command: CommandWord, id: u32) -> usize
    ensures end { result ≡ 12 }
    ensures bytes { take result out.new ≡ written (slots_cells (Size 12 ∷ Word (command_number command) ∷ Word id ∷ [])) }
{
    put(out, 0, &[12, command.number(), id])
}

/// CONNECT, 16 bytes.
#[tactic(auto, unfolding(sof_base::specs::Slots::words_bytes, sof_base::specs::Slots::slots_cells, sof_base::specs::Slots::slot_cells))]
fn put_connect(out: &mut [u8; 384], source: u32, sink: u32) -> usize
    ensures end { result ≡ 16 }
    ensures bytes { take result out.new ≡ message_spelling (messages.Connect source sink) }
{
    put(out, 0, &[16, CommandWord::Connect.number(), source, sink])
}

/// SET_VALUE, 92 bytes and 8 for each value.
#[tactic(auto, unfolding(sof_base::specs::Slots::slots_cells, sof_base::specs::Slots::slot_cells))]
pub fn put_set_value(out: &mut [u8; 384], id: u32, command: u32, values: &Bounded<u32, 8>) -> usize
    ensures end { result ≡ 92 + 8 * length values.now }
    ensures bytes { take result out.new ≡ message_spelling (messages.SetValue id command values.now) }
    ensures room { length values.now ≤ 8 }
{
    put_value_control(
        out,
        CommandWord::SetValue.number(),
        0,
        id,
        command,
        values.items(),
    )
}

/// GET_VALUE, 92 bytes.
#[tactic(auto, unfolding(sof_base::specs::Slots::slots_cells, sof_base::specs::Slots::slot_cells))]
pub fn put_get_value(out: &mut [u8; 384], id: u32, command: u32) -> usize
    ensures end { result ≡ 92 }
    ensures bytes { take result out.new ≡ message_spelling (messages.GetValue id command) }
{
    let head = Head {
        size: 92,
        command: CommandWord::GetValue.number(),
        error: 0,
        id,
    };
    let control = Control {
        command,
        count: 0,
        remaining: 0,
        index: 0,
    };
    put_control(out, head, ControlKind::GetValue, control)
}

/// SET_DATA, 124 bytes and those of the part.
#[tactic(auto, unfolding(sof_base::specs::Slots::slots_cells, sof_base::specs::Slots::slot_cells))]
pub fn put_set_data(out: &mut [u8; 384], id: u32, part: &Part) -> usize
    ensures end { result ≡ 124 + length part.now.bytes }
    ensures bytes { take result out.new ≡ message_spelling (messages.SetData id part.now) }
    ensures room { length part.now.bytes ≤ 260 }
{
    put_part_control(out, CommandWord::SetData.number(), 0, id, part)
}

/// GET_DATA, 92 bytes.
#[tactic(auto, unfolding(sof_base::specs::Slots::slots_cells, sof_base::specs::Slots::slot_cells))]
pub fn put_get_data(out: &mut [u8; 384], id: u32, index: u32) -> usize
    ensures end { result ≡ 92 }
    ensures bytes { take result out.new ≡ message_spelling (messages.GetData id index) }
{
    let head = Head {
        size: 92,
        command: CommandWord::GetData.number(),
        error: 0,
        id,
    };
    let control = Control {
        command: CTRL_BINARY,
        count: 0,
        remaining: 0,
        index,
    };
    put_control(out, head, ControlKind::GetData, control)
}

/// Writes the message's bytes at the beginning of `out`, and tells how many they are: from 8 to 384.
#[tactic(auto, unfolding(sof_base::specs::Slots::words_bytes, sof_base::specs::Slots::slots_cells, sof_base::specs::Slots::slot_cells))]
pub fn encode(message: &Message, out: &mut [u8; 384]) -> usize
    ensures bytes { take result out.new ≡ message_spelling message.now }
    ensures size { result ≡ size_of message.now }
    ensures room { result ≤ 384 }
{
    match message {
        Message::CompNew {
            id,
            pipe,
            periods_sink,
            periods_source,
            frame_fmt,
            kind,
        } => {
            let config = Config {
                periods_sink: *periods_sink,
                periods_source: *periods_source,
                frame_fmt: *frame_fmt,
            };
            put_comp(out, *id, *pipe, config, *kind)
        }
        Message::CompFree { id } => put_id(out, CommandWord::CompFree, *id),
        Message::Connect { source, sink } => put_connect(out, *source, *sink),
        Message::PipeNew {
            id,
            pipe,
            sched,
            period,
            priority,
            mips,
            frames,
            time_domain,
        } => {
            let at = put(out, 0, &[48, CommandWord::PipeNew.number()]);
            let at = put(out, at, &[*id, *pipe, *sched, 0]);
            put(
                out,
                at,
                &[*period, *priority, *mips, *frames, 0, *time_domain],
            )
        }
        Message::PipeFree { id } => put_id(out, CommandWord::PipeFree, *id),
        Message::PipeComplete { id } => put_id(out, CommandWord::PipeComplete, *id),
        Message::BufferNew {
            id,
            pipe,
            size,
            caps,
        } => {
            let at = put(out, 0, &[44, CommandWord::BufferNew.number()]);
            let at = put(out, at, &[*id, BUFFER, *pipe, 0, 0]);
            put(out, at, &[*size, *caps, 0, 0])
        }
        Message::BufferFree { id } => put_id(out, CommandWord::BufferFree, *id),
        Message::CtxSave => put(out, 0, &[8, CommandWord::CtxSave.number()]),
        Message::SetValue {
            id,
            command,
            values,
        } => put_set_value(out, *id, *command, values),
        Message::GetValue { id, command } => put_get_value(out, *id, *command),
        Message::SetData { id, part } => put_set_data(out, *id, part),
        Message::GetData { id, index } => put_get_data(out, *id, *index),
        Message::PcmParams {
            host,
            direction,
            params,
        } => put_params(out, *host, *direction, *params),
        Message::PcmFree { id } => put_id(out, CommandWord::PcmFree, *id),
        Message::TrigStart { id } => put_id(out, CommandWord::TrigStart, *id),
        Message::TrigStop { id } => put_id(out, CommandWord::TrigStop, *id),
        Message::TrigPause { id } => put_id(out, CommandWord::TrigPause, *id),
        Message::TrigRelease { id } => put_id(out, CommandWord::TrigRelease, *id),
    }
}
