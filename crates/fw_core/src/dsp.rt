// The firmware behind its mailbox.
ghost use Rattle.std.specs.Prelude.{◌≡◌, true};
ghost use Rattle.fw_schedule.specs.Schedules.{IsScheduleOf};
ghost use Rattle.fw_core.specs.Device.{firmware};

use crate::firmware::Firmware;
use fw_components::Registry;
use fw_schedule::{Schedule, tick_by};
use ipc3_codec::encode_reply;
use mbox_link::{Dsp, LinkFault};
use sof_io::{Inputs, Outputs};

impl Dsp for Firmware {
    ghost means = { firmware };

    fn room(&self) -> u32 {
        self.region.size()
    }

    fn on(&self) -> bool {
        self.on
    }

    fn boot(&mut self, heap: u32) {
        self.region.limit(heap);
        self.clock = 0;
        self.on = true;
        self.boots = self.boots.saturating_add(1);
    }

    // Pieces come back in the order of the tables; that one hole is left does not rest on the order.
    fn cut(&mut self) {
        self.registry.remove_all(&mut self.region);
        self.on = false;
        self.current = false;
    }

    fn exchange(
        &mut self,
        request: &[u8],
        reply: &mut [u8; 384],
        _io: &mut Inputs,
        _out: &mut Outputs,
    ) -> Result<usize, LinkFault> {
        let answer = self.reply(request);
        Ok(encode_reply(&answer, reply))
    }

    fn tick(&mut self, io: &mut Inputs, out: &mut Outputs) {
        if self.on {
            self.clock = self.clock.wrapping_add(1);
            renew(&self.registry, &mut self.schedule, self.current);
            self.current = true;
            tick_by(
                &mut self.registry,
                &self.schedule,
                &mut self.scratch,
                io,
                out,
                self.clock,
            );
        }
    }
}

// A schedule that is not current is made anew.
fn renew(registry: &Registry, schedule: &mut Schedule, current: bool)
    requires { current ≡ true → IsScheduleOf registry.now schedule.old }
    ensures { IsScheduleOf registry.now schedule.new }
{
    if current {
        return;
    }
    make_anew(registry, schedule);
}

// The schedule of a registry, in the place of another. It stands apart, so that a tick does not pay for the room of a new one.
#[inline(never)]
fn make_anew(registry: &Registry, schedule: &mut Schedule)
    ensures { IsScheduleOf registry.now schedule.new }
{
    *schedule = Schedule::of(registry);
}
