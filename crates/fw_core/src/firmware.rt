// The firmware, its making and its end.
ghost use Rattle.std.specs.Prelude.{◌≡◌, ◌&&◌, ◌||◌, IfOk, None, Some, true, is_some};
ghost use Rattle.fw_components.specs.States.{AreOf, with_tables};
ghost use Rattle.sof_base.specs.Holes.{largest as largest_of};
ghost use Rattle.stream_law.specs.State.{FwState};
ghost use Rattle.fw_core.specs.Device.{used_of, stepped, reply_to, with_state};
ghost use Rattle.fw_core.specs.Laid.{no_tables};
ghost use Rattle.ipc3_model.specs.Replies.{reply_spelling};
ghost use Rattle.fw_core.specs.Answers.{reply_with};
ghost use Rattle.fw_core.specs.Unchanged.{tells, changes_nothing, keeps_steps};

use crate::messages::answer;
use fw_components::Registry;
use fw_heap::Region;
use fw_schedule::{Schedule, Scratch};
use ipc3_codec::{Body, CodecFault, Message, Reply, decode};
use sof_base::{Errno, NoMemory};
use std::alloc::Global;
use std::marker::Model;

/// A DSP that answers each message with the firmware's step: its registry, the region that its pieces are carved from, its clock
/// in ticks, the schedule that its ticks go by, which is made anew after a message that may have changed it, and the room for bytes
/// of inputs that do not lie in one piece. Its link never fails.
pub struct Firmware {
    pub(crate) on: bool,
    pub(crate) boots: u64,
    pub(crate) clock: u32,
    pub(crate) registry: Registry,
    pub(crate) region: Region,
    pub(crate) schedule: Schedule,
    pub(crate) current: bool,
    pub(crate) scratch: Scratch,
}

impl Model for Firmware {
    ghost use Rattle.fw_core.specs.Device.{FirmwareView};
    ghost use Rattle.fw_core.specs.Laid.{firmware_view, IsDeviceLaid};

    ghost Value = { FirmwareView };

    ghost view = { firmware_view };

    ghost invariant = { IsDeviceLaid };
}

impl Firmware {
    /// A firmware that is off and was never booted, with a greatest heap of `room` bytes. All that it will ever need is
    /// reserved here.
    pub fn new(alloc: Global, room: u32) -> Result<Firmware, NoMemory>
        ensures { IfOk result (λ f. (f.state ≡ None) × (f.boots ≡ 0) × (f.most ≡ room)) }
    {
        let region = Region::new(alloc, room)?;
        match Registry::new(alloc) {
            Ok(registry) => {
                let schedule = Schedule::of(&registry);
                Ok(Firmware {
                    on: false,
                    boots: 0,
                    clock: 0,
                    registry,
                    region,
                    schedule,
                    current: true,
                    scratch: Scratch::new(),
                })
            }
            Err(refused) => {
                region.close();
                Err(refused)
            }
        }
    }

    /// How many bytes of its heap are carved; 0 where it is off.
    pub fn used(&self) -> u32
        ensures { result ≡ used_of self.now.state }
    {
        self.region.used()
    }

    /// The size of the largest hole of its heap, in bytes; 0 if no hole is left.
    pub fn largest(&self) -> u32
        ensures { (f : FwState) → self.now.state ≡ Some f → result ≡ largest_of f.heap.holes }
    {
        self.region.largest()
    }

    /// Its components, buffers and pipelines: those of its state where it is on, and none where it is off. Each piece that they hold,
    /// with the rings and the histories in it, is of its region.
    pub fn registry(&self) -> &Registry
        ensures on { (f : FwState) → self.now.state ≡ Some f → with_tables result.now f ≡ f }
        ensures off { self.now.state ≡ None → result.now ≡ no_tables }
        ensures homes { AreOf self.now.home result.now }
    {
        &self.registry
    }

    // The step of a message: its reply.
    pub(crate) fn reply(&mut self, request: &[u8]) -> Reply
        requires { is_some self.old.state ≡ true }
        ensures step { self.new ≡ with_state (stepped self.old.state request.now) self.old }
        ensures reply { reply_to self.old.state request.now ≡ Some (reply_spelling result) }
    {
        let message = decode(request);
        let answer = answer(&mut self.registry, &mut self.region, &message);
        self.current = is_still_current(self.current, &message, &answer);
        reply_of(answer)
    }
}

// Whether what was current before a message with this answer still is.
fn is_still_current(
    current: bool,
    message: &Result<Message, CodecFault>,
    answer: &Result<Body, Errno>,
) -> bool
    ensures { result ≡ (current && (changes_nothing answer.now || keeps_steps message.now)) }
{
    current && (changes_nothing(answer) || keeps_steps(message))
}

// Whether a message leaves what the steps of a schedule are made of: it changes at most what is set at a component.
fn keeps_steps(message: &Result<Message, CodecFault>) -> bool
    ensures { result ≡ keeps_steps message.now }
{
    match message {
        Ok(message) => matches!(
            message,
            Message::SetValue { .. } | Message::SetData { .. } | Message::CtxSave
        ),
        Err(_) => false,
    }
}

// Whether a message with this answer changed nothing: it was refused, or it only asked for something.
fn changes_nothing(answer: &Result<Body, Errno>) -> bool
    ensures { result ≡ changes_nothing answer.now }
{
    match answer {
        Ok(body) => tells(body),
        Err(_) => true,
    }
}

// Whether a body tells something.
fn tells(body: &Body) -> bool
    ensures { result ≡ tells body.now }
{
    match body {
        Body::Nothing => false,
        Body::Values(_) => true,
        Body::Part(_) => true,
    }
}

// The reply to a message: 0 and its body where it was done, or its error.
fn reply_of(answer: Result<Body, Errno>) -> Reply
    ensures { result ≡ reply_with answer }
{
    match answer {
        Ok(body) => Reply { error: 0, body },
        Err(error) => Reply {
            error: error.0,
            body: Body::Nothing,
        },
    }
}

impl Drop for Firmware {
    /// Gives all pieces and all memory back.
    fn drop(self) {
        let Firmware {
            on: _,
            boots: _,
            clock: _,
            registry,
            region,
            schedule: _,
            current: _,
            scratch: _,
        } = self;
        let (mut registry, mut region) = (registry, region);
        registry.remove_all(&mut region);
        registry.close();
        region.close();
    }
}
