// Devices for C. Each call but a free answers a number of `status.rt`, and `CLOSED` where the handle is closed.
ghost use Rattle.std.specs.Prelude.{◌≡◌, None, length};
ghost use Rattle.sof_c.specs.Handles.{status_at, after_at, handed_bytes, count_at, IsOpened};
ghost use Rattle.sof_c.specs.Machines as law;
ghost use Rattle.fw_core.specs.Device.{used_of};
ghost use Rattle.sof_io.specs.Takes.{held_at};
ghost use Rattle.sof_io.specs.Puts.{bytes_at};

use crate::handle::Handle;
use crate::machine::Machine;
use crate::status::{CLOSED, DONE, NO_MEMORY, OPEN};
use std::alloc::Global;

/// Makes a device that is off, with a greatest heap of `room` bytes, behind a handle that is closed.
#[unsafe(no_mangle)]
pub extern "C" fn sof_c_new_unchecked(device: &mut Handle, alloc: Global, room: u32) -> u32
    ensures { IsOpened room device.old.machine result device.new.machine }
{
    if device.is_open() {
        return OPEN;
    }
    let Ok(machine) = Machine::new(alloc, room) else {
        return NO_MEMORY;
    };
    match Box::new(alloc, machine) {
        Ok(machine) => {
            *device = Handle::of(machine);
            DONE
        }
        Err(_refused) => NO_MEMORY,
    }
}

/// Gives back all that a device holds, and closes its handle. Nothing happens where it is closed.
#[unsafe(no_mangle)]
pub extern "C" fn sof_c_free_unchecked(device: &mut Handle, alloc: Global)
    ensures { device.new.machine ≡ None }
{
    if device.is_open() {
        drop(device.take(alloc));
    }
}

/// Boots a device that is off, with a heap of so many bytes.
#[unsafe(no_mangle)]
pub extern "C" fn sof_c_boot_unchecked(device: &mut Handle, alloc: Global, heap: u32) -> u32
    ensures status { result ≡ status_at (law.boot_status heap) device.old.machine }
    ensures after { device.new.machine ≡ after_at (law.after_boot heap) device.old.machine }
{
    if !device.is_open() {
        return CLOSED;
    }
    let mut machine = device.take(alloc);
    let status = machine.boot(heap);
    *device = Handle::of(machine);
    status
}

/// Cuts the power of a device that is on: its components, buffers and pipelines are gone.
#[unsafe(no_mangle)]
pub extern "C" fn sof_c_cut_unchecked(device: &mut Handle, alloc: Global) -> u32
    ensures status { result ≡ status_at law.power_status device.old.machine }
    ensures after { device.new.machine ≡ after_at law.after_cut device.old.machine }
{
    if !device.is_open() {
        return CLOSED;
    }
    let mut machine = device.take(alloc);
    let status = machine.cut();
    *device = Handle::of(machine);
    status
}

/// Delivers a message, any bytes, to a device that is on. Its reply stands at the front of `reply`, a buffer of at least 384 bytes, and
/// `count` is how many bytes it has; 0, with no byte written, where there is no reply.
#[unsafe(no_mangle)]
pub extern "C" fn sof_c_exchange_unchecked(
    device: &mut Handle,
    alloc: Global,
    request: &[u8],
    reply: &mut [u8],
    count: &mut usize,
) -> u32
    ensures status { result ≡ status_at (law.exchange_status (length reply.old)) device.old.machine }
    ensures after { device.new.machine ≡ after_at (law.after_exchange (length reply.old) request.now) device.old.machine }
    ensures reply { reply.new ≡ law.with_prefix (handed_bytes (law.reply_given (length reply.old) request.now) device.old.machine) reply.old }
    ensures count { count.new ≡ length (handed_bytes (law.reply_given (length reply.old) request.now) device.old.machine) }
{
    *count = 0;
    if !device.is_open() {
        return CLOSED;
    }
    let mut machine = device.take(alloc);
    let status = machine.exchange(request, reply, count);
    *device = Handle::of(machine);
    status
}

/// Drops what the outputs hold, and runs one tick of a device that is on.
#[unsafe(no_mangle)]
pub extern "C" fn sof_c_tick_unchecked(device: &mut Handle, alloc: Global) -> u32
    ensures status { result ≡ status_at law.power_status device.old.machine }
    ensures after { device.new.machine ≡ after_at law.machine_after_tick device.old.machine }
{
    if !device.is_open() {
        return CLOSED;
    }
    let mut machine = device.take(alloc);
    let status = machine.tick();
    *device = Handle::of(machine);
    status
}

/// Whether a device is on; 0 or 1.
#[unsafe(no_mangle)]
pub extern "C" fn sof_c_is_on_unchecked(device: &mut Handle, alloc: Global) -> u32
    ensures count { result ≡ count_at law.power device.old.machine }
    ensures same { device.new.machine ≡ device.old.machine }
{
    if !device.is_open() {
        return 0;
    }
    let machine = device.take(alloc);
    let power = machine.power();
    *device = Handle::of(machine);
    power
}

/// How many ticks a device ran since it was made, while it was on.
#[unsafe(no_mangle)]
pub extern "C" fn sof_c_ticks_unchecked(device: &mut Handle, alloc: Global) -> u64
    ensures count { result ≡ count_at (λ m. m.ticks) device.old.machine }
    ensures same { device.new.machine ≡ device.old.machine }
{
    if !device.is_open() {
        return 0;
    }
    let machine = device.take(alloc);
    let ticks = machine.ticks;
    *device = Handle::of(machine);
    ticks
}

/// How many bytes of its heap are carved; 0 where it is off.
#[unsafe(no_mangle)]
pub extern "C" fn sof_c_used_unchecked(device: &mut Handle, alloc: Global) -> u32
    ensures count { result ≡ count_at (λ m. used_of m.firmware.state) device.old.machine }
    ensures same { device.new.machine ≡ device.old.machine }
{
    if !device.is_open() {
        return 0;
    }
    let machine = device.take(alloc);
    let used = machine.firmware.used();
    *device = Handle::of(machine);
    used
}
