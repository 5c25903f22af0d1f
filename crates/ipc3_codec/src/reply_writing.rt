// Replies as bytes.
ghost use Rattle.std.specs.Prelude.{◌≡◌, ◌≤◌, take};
ghost use Rattle.std.specs.Int.{w32, cast_unsigned};
ghost use Rattle.ipc3_model.specs.Replies.{reply_size, reply_spelling};

use crate::control_writing::{put_part_control, put_value_control};
use crate::written_words::put_bytes;
use ipc3_model::command::REPLY;
use ipc3_model::{Body, Reply, bare_reply};

/// An error as its word, in two's complement.
fn error_word(error: i32) -> u32
    ensures { result ≡ cast_unsigned w32 error }
{
    error.cast_unsigned()
}

/// Writes the reply's bytes at the beginning of `out`, and tells how many they are: 12 where there is no body. The error
/// stands before a body as it stands without one.
#[tactic(auto, unfolding(sof_base::specs::Slots::words_bytes, sof_base::specs::Slots::slots_cells, sof_base::specs::Slots::slot_cells))]
pub fn encode_reply(reply: &Reply, out: &mut [u8; 384]) -> usize
    ensures bytes { take result out.new ≡ reply_spelling reply.now }
    ensures size { result ≡ reply_size reply.now.body }
    ensures room { result ≤ 384 }
{
    let error = error_word(reply.error);
    match &reply.body {
        Body::Nothing => put_bytes(out, 0, &bare_reply(reply.error)),
        Body::Values(values) => put_value_control(out, REPLY, error, 0, 0, values.items()),
        Body::Part(part) => put_part_control(out, REPLY, error, 0, part),
    }
}
