// What the firmware answers.
ghost use Rattle.std.specs.Prelude.{◌≡◌};
ghost use Rattle.ipc3_model.specs.Replies.{reply_spelling};
ghost use Rattle.ipc3_model.specs.ReplyForms.{without_body};

use crate::command::REPLY;
use sof_base::{Bounded, Part};

/// What a reply carries beside its error number.
#[derive(Debug, Drop)]
pub enum Body {
    /// No body: the reply has 12 bytes.
    Nothing,
    /// The values of a control by channel, 1 to 8 of them.
    Values(Bounded<u32, 8>),
    /// A part of an equaliser's blob.
    Part(Part),
}

/// A reply: 0 or a negative error number, and its body.
#[derive(Debug, Drop)]
pub struct Reply {
    pub error: i32,
    pub body: Body,
}

/// The bytes of a reply that has no body.
pub fn bare_reply(error: i32) -> [u8; 12]
    ensures { result ≡ reply_spelling (without_body error) }
{
    let [c0, c1, c2, c3] = REPLY.to_le_bytes();
    let [e0, e1, e2, e3] = error.cast_unsigned().to_le_bytes();
    [12, 0, 0, 0, c0, c1, c2, c3, e0, e1, e2, e3]
}
