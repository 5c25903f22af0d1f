// What a far side gave back of a message.
ghost use Rattle.std.specs.Prelude.{◌≡◌, ◌≤◌, IfOk};
ghost use Rattle.mbox_link.specs.AnswerBytes.{answered};
ghost use Rattle.ipc3_far.specs.FarDevices.{is_far_reply, is_right};

use mbox_link::LinkFault;
use sof_base::Bounded;
use std::io;

/// What came back of a message.
#[derive(Drop)]
pub enum FarAnswer {
    /// A reply.
    Reply(Bounded<u8, 384>),
    /// Another record, or bytes that are none.
    Other(Bounded<u8, 392>),
    /// Nothing: what the far side writes has ended.
    End,
    /// The message did not go out, or a record before it.
    Unsent(io::Error),
    /// Nothing could be read.
    Unread(io::Error),
}

/// The first message in which the far side failed.
#[derive(Drop)]
pub struct FarFault {
    /// Its number, from 1.
    pub message: u64,
    /// The device's own reply; none where the device failed too.
    pub own: Option<Bounded<u8, 384>>,
    pub answer: FarAnswer,
}

/// Whether what came back is this reply.
pub fn is_far_reply(answer: &FarAnswer, own: &[u8]) -> bool
    ensures { result ≡ is_far_reply answer.now own.now }
{
    match answer {
        FarAnswer::Reply(reply) => reply.items() == own,
        FarAnswer::Other(_) | FarAnswer::End | FarAnswer::Unsent(_) | FarAnswer::Unread(_) => false,
    }
}

/// Whether what came back of a message is the device's own reply, at the front of `reply`. If its link failed, it has none.
pub fn is_right(answer: &FarAnswer, own: Result<usize, LinkFault>, reply: &[u8; 384]) -> bool
    requires { IfOk own (λ long. long ≤ 384) }
    ensures { result ≡ is_right answer.now (answered own reply.now) }
{
    match own {
        Ok(long) => is_far_reply(answer, &reply[..long]),
        Err(LinkFault) => false,
    }
}
