// A device with the bytes of its endpoints.
ghost use Rattle.std.specs.Prelude.{◌≡◌, ◌+◌, ◌≤◌, true, not, is_some, length, nat_lt, take, IfOk, Some};
ghost use Rattle.sof_io.specs.Takes.{held_at};
ghost use Rattle.sof_io.specs.Puts.{bytes_at};
ghost use Rattle.fw_core.specs.Device.{reply_to, stepped, with_state};
ghost use Rattle.sof_c.specs.Machines as law;

use crate::status::{BOUND, DONE, FULL, NO_MEMORY, OFF, ON, SHORT, TOO_LARGE, UNKNOWN};
use fw_core::Firmware;
use mbox_link::Dsp;
use sof_base::{INPUT_BYTES, NoMemory};
use sof_io::{Inputs, Outputs};
use std::alloc::Global;

/// The most bytes of a reply.
pub const REPLY_BYTES: usize = 384;

/// A firmware, its inputs, the outputs of its last tick, and how many ticks it ran.
#[derive(Drop)]
pub struct Machine {
    pub firmware: Firmware,
    pub inputs: Inputs,
    pub outputs: Outputs,
    pub ticks: u64,
}

impl Machine {
    /// A machine that is off, with no endpoints.
    pub fn new(alloc: Global, room: u32) -> Result<Machine, NoMemory>
        ensures { IfOk result (law.IsNewMachine room) }
    {
        Ok(Machine {
            firmware: Firmware::new(alloc, room)?,
            inputs: Inputs::new(alloc)?,
            outputs: Outputs::new(alloc)?,
            ticks: 0,
        })
    }

    /// Boots it with a heap of so many bytes.
    pub fn boot(&mut self, heap: u32) -> u32
        ensures status { result ≡ law.boot_status heap self.old }
        ensures after { self.new ≡ law.after_boot heap self.old }
    {
        if self.firmware.on() {
            return ON;
        }
        if heap > self.firmware.room() {
            return TOO_LARGE;
        }
        self.firmware.boot(heap);
        DONE
    }

    /// Cuts its power.
    pub fn cut(&mut self) -> u32
        ensures status { result ≡ law.power_status self.old }
        ensures after { self.new ≡ law.after_cut self.old }
    {
        if !self.firmware.on() {
            return OFF;
        }
        self.firmware.cut();
        DONE
    }

    /// Delivers a message: any bytes. The reply stands at the front of `reply`, which has at least 384 bytes, and `count` is how many bytes
    /// it has, 0 where there is none.
    pub fn exchange(&mut self, request: &[u8], reply: &mut [u8], count: &mut usize) -> u32
        ensures status { result ≡ law.exchange_status (length reply.old) self.old }
        ensures after { self.new ≡ law.after_exchange (length reply.old) request.now self.old }
        ensures reply { reply.new ≡ law.with_prefix (law.reply_given (length reply.old) request.now self.old) reply.old }
        ensures count { count.new ≡ length (law.reply_given (length reply.old) request.now self.old) }
    {
        *count = 0;
        if reply.len() < REPLY_BYTES {
            return SHORT;
        }
        if !self.firmware.on() {
            return OFF;
        }
        let mut bytes = [0; REPLY_BYTES];
        let size = self.answer(request, &mut bytes);
        put_front(&bytes[..size], reply);
        *count = size;
        DONE
    }

    // The reply of a device that is on, and how many bytes it has.
    fn answer(&mut self, request: &[u8], reply: &mut [u8; 384]) -> usize
        requires on { is_some self.old.firmware.state ≡ true }
        ensures short { result ≤ 384 }
        ensures reply { reply_to self.old.firmware.state request.now ≡ Some (take result reply.new) }
        ensures after { self.new ≡ law.with_firmware (with_state (stepped self.old.firmware.state request.now) self.old.firmware) self.old }
    {
        // For the proof alone: its contract says that each output holds at most what it may.
        let _count = self.outputs.len();
        match self
            .firmware
            .exchange(request, reply, &mut self.inputs, &mut self.outputs)
        {
            Ok(count) => count,
            // Never so: its link does not fail.
            Err(_fault) => 0,
        }
    }

    /// 1 where it is on, and else 0.
    pub fn power(&self) -> u32
        ensures { result ≡ law.power self.now }
    {
        if self.firmware.on() { 1 } else { 0 }
    }

    /// Drops the outputs' bytes, and runs one tick.
    pub fn tick(&mut self) -> u32
        ensures status { result ≡ law.power_status self.old }
        ensures after { self.new ≡ law.machine_after_tick self.old }
    {
        if !self.firmware.on() {
            return OFF;
        }
        self.outputs.drain();
        self.firmware.tick(&mut self.inputs, &mut self.outputs);
        self.ticks = self.ticks.saturating_add(1);
        DONE
    }

    /// Binds an input to the endpoint of this component: a host that plays, or a DAI that captures.
    pub fn add_input(&mut self, id: u32) -> u32
        ensures { law.IsInputAdded id self.old result self.new }
    {
        if self.inputs.has(id) {
            return BOUND;
        }
        match self.inputs.add(id) {
            Ok(()) => DONE,
            Err(_refused) => NO_MEMORY,
        }
    }

    /// Binds an output to the endpoint of this component: a DAI that plays, or a host that captures.
    pub fn add_output(&mut self, id: u32) -> u32
        ensures { law.IsOutputAdded id self.old result self.new }
    {
        if self.outputs.has(id) {
            return BOUND;
        }
        match self.outputs.add(id) {
            Ok(()) => DONE,
            Err(_refused) => NO_MEMORY,
        }
    }

    /// Puts bytes after those that an input has left.
    pub fn fill(&mut self, id: u32, piece: &[u8]) -> u32
        ensures status { result ≡ law.fill_status id piece.now self.old }
        ensures after { self.new ≡ law.after_fill id piece.now self.old }
    {
        if !self.inputs.has(id) {
            return UNKNOWN;
        }
        if self.inputs.ended(id) || !has_room(self.inputs.held(id), piece.len()) {
            return FULL;
        }
        self.inputs.fill(id, piece);
        DONE
    }

    /// How many bytes an input has left, 0 for one that is not there.
    pub fn held(&self, id: u32) -> usize
        ensures { result ≡ held_at id self.now.inputs }
    {
        self.inputs.held(id)
    }

    /// The bytes that the last tick gave an output, at the front of `out`, and how many they are, 0 for one that is not there.
    pub fn read(&self, id: u32, out: &mut [u8], count: &mut usize) -> u32
        ensures status { result ≡ law.read_status id (length out.old) self.now }
        ensures out { out.new ≡ law.with_prefix (law.output_given id (length out.old) self.now) out.old }
        ensures count { count.new ≡ length (bytes_at id self.now.outputs) }
    {
        let bytes = self.outputs.bytes(id);
        *count = bytes.len();
        if !self.outputs.has(id) {
            return UNKNOWN;
        }
        if out.len() < bytes.len() {
            return SHORT;
        }
        put_front(bytes, out);
        DONE
    }
}

// Puts bytes at the front of others.
fn put_front(bytes: &[u8], out: &mut [u8])
    requires { length bytes.now ≤ length out.old }
    ensures { out.new ≡ law.with_prefix bytes.now out.old }
{
    out[..bytes.len()].copy_from_slice(bytes);
}

// Whether an input that has so many bytes left takes so many more.
fn has_room(held: usize, more: usize) -> bool
    ensures { result ≡ not (nat_lt INPUT_BYTES (held + more)) }
{
    more <= INPUT_BYTES && held <= INPUT_BYTES - more
}
