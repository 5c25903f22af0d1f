// A device that a far side is compared with.
ghost use Rattle.std.specs.Prelude.{◌≡◌, ◌≤◌, IfOk};
ghost use Rattle.ipc3_far.specs.FarDevices.{new_far, far, LetsAllOut};

use crate::answer::{FarAnswer, FarFault, is_right};
use crate::talk::Talk;
use ipc3_trace::RecordKind;
use mbox_link::{Dsp, LinkFault};
use sof_base::Bounded;
use sof_io::{Inputs, Outputs};
use std::io;
use std::io::{Read, Write};
use std::marker::Model;

/// A device whose calls are sent to a far side too: each boot, each cut and each tick that meets it on, and each message, as a record. Of a
/// message the far side gives a reply. One that is not the device's own is a failure of the link, and so is every other answer.
#[derive(Drop)]
pub struct Far<P: Dsp, R: Read + Drop, W: Write + Drop> {
    dsp: P,
    talk: Talk<R, W>,
    messages: u64,
    broken: u64,
    first: Option<FarFault>,
}

impl<P: Dsp, R: Read + Drop, W: Write + Drop> Model for Far<P, R, W> {
    ghost use Rattle.ipc3_far.specs.FarDevices.{FarDevice};

    ghost Value = { FarDevice P };

    ghost view = { λ f. record { device = f.dsp; broken = f.broken; ends = f.talk } };
}

impl<P: Dsp, R: Read + Drop, W: Write + Drop> Far<P, R, W> {
    /// Over a device, what the far side writes, and what it reads. No message was sent.
    pub fn new(dsp: P, replies: R, requests: W) -> Far<P, R, W>
        ensures { result ≡ new_far dsp (W.contents requests) (R.remaining replies) }
    {
        Far {
            dsp,
            talk: Talk::new(replies, requests),
            messages: 0,
            broken: 0,
            first: None,
        }
    }

    /// Lets all go out that was sent, also where that is nothing. An error is that of the file of requests.
    pub fn let_out(&mut self) -> io::Result<()>
        ensures { LetsAllOut self.old self.new }
    {
        self.talk.let_out()
    }

    /// The first message in which the far side failed, if it did in one.
    pub fn into_fault(self) -> Option<FarFault> {
        self.first
    }
}

impl<P: Dsp, R: Read + Drop, W: Write + Drop> Dsp for Far<P, R, W> {
    ghost means = { far P.means };

    fn room(&self) -> u32 {
        self.dsp.room()
    }

    fn on(&self) -> bool {
        self.dsp.on()
    }

    fn boot(&mut self, heap: u32) {
        self.dsp.boot(heap);
        self.talk.send(RecordKind::Boot, &heap.to_le_bytes());
    }

    fn cut(&mut self) {
        self.talk.tell(self.dsp.on(), RecordKind::Cut);
        self.dsp.cut();
    }

    fn exchange(
        &mut self,
        request: &[u8],
        reply: &mut [u8; 384],
        io: &mut Inputs,
        out: &mut Outputs,
    ) -> Result<usize, LinkFault> {
        let own = self.dsp.exchange(request, reply, io, out);
        self.messages = self.messages.saturating_add(1);
        let answer = self.talk.ask(request);
        if is_right(&answer, own, reply) {
            return own;
        }
        keep_first(&mut self.first, self.messages, reply_of(own, reply), answer);
        self.broken = self.broken.saturating_add(1);
        Err(LinkFault)
    }

    fn tick(&mut self, io: &mut Inputs, out: &mut Outputs) {
        self.talk.tell(self.dsp.on(), RecordKind::Tick);
        self.dsp.tick(io, out);
    }
}

// The reply of the device itself, which stands at the front of `reply`; none where its link failed.
fn reply_of(own: Result<usize, LinkFault>, reply: &[u8; 384]) -> Option<Bounded<u8, 384>>
    requires { IfOk own (λ n. n ≤ 384) }
{
    match own {
        Ok(long) => Bounded::new(&reply[..long]),
        Err(LinkFault) => None,
    }
}

// Keeps what came back of a message, where no earlier one is kept.
fn keep_first(
    first: &mut Option<FarFault>,
    message: u64,
    own: Option<Bounded<u8, 384>>,
    answer: FarAnswer,
) {
    if first.is_none() {
        *first = Some(FarFault {
            message,
            own,
            answer,
        });
    }
}
