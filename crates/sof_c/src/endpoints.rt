// The bytes of a device's endpoints for C. An endpoint is named by the id of its component.
ghost use Rattle.std.specs.Prelude.{◌≡◌, length};
ghost use Rattle.sof_c.specs.Handles.{status_at, after_at, handed_bytes, count_at, CallAt};
ghost use Rattle.sof_c.specs.Machines as law;
ghost use Rattle.sof_io.specs.Takes.{held_at};
ghost use Rattle.sof_io.specs.Puts.{bytes_at};

use crate::handle::Handle;
use crate::status::CLOSED;
use std::alloc::Global;

/// Binds an input of 1048576 bytes to a host that plays or a DAI that captures.
#[unsafe(no_mangle)]
pub extern "C" fn sof_c_add_input_unchecked(device: &mut Handle, alloc: Global, id: u32) -> u32
    ensures { CallAt (law.IsInputAdded id) device.old.machine result device.new.machine }
{
    if !device.is_open() {
        return CLOSED;
    }
    let mut machine = device.take(alloc);
    let status = machine.add_input(id);
    *device = Handle::of(machine);
    status
}

/// Binds an output to a DAI that plays or a host that captures.
#[unsafe(no_mangle)]
pub extern "C" fn sof_c_add_output_unchecked(device: &mut Handle, alloc: Global, id: u32) -> u32
    ensures { CallAt (law.IsOutputAdded id) device.old.machine result device.new.machine }
{
    if !device.is_open() {
        return CLOSED;
    }
    let mut machine = device.take(alloc);
    let status = machine.add_output(id);
    *device = Handle::of(machine);
    status
}

/// Puts bytes after those that an input has left, all or none of them.
#[unsafe(no_mangle)]
pub extern "C" fn sof_c_fill_unchecked(
    device: &mut Handle,
    alloc: Global,
    id: u32,
    piece: &[u8],
) -> u32
    ensures status { result ≡ status_at (law.fill_status id piece.now) device.old.machine }
    ensures after { device.new.machine ≡ after_at (law.after_fill id piece.now) device.old.machine }
{
    if !device.is_open() {
        return CLOSED;
    }
    let mut machine = device.take(alloc);
    let status = machine.fill(id, piece);
    *device = Handle::of(machine);
    status
}

/// How many bytes an input has left; 0 for one that is not there.
#[unsafe(no_mangle)]
pub extern "C" fn sof_c_held_unchecked(device: &mut Handle, alloc: Global, id: u32) -> usize
    ensures count { result ≡ count_at (λ m. held_at id m.inputs) device.old.machine }
    ensures same { device.new.machine ≡ device.old.machine }
{
    if !device.is_open() {
        return 0;
    }
    let machine = device.take(alloc);
    let held = machine.held(id);
    *device = Handle::of(machine);
    held
}

/// Copies what the last tick gave an output to the front of `out`, all or none of it. `count` is how many bytes it gave, also where
/// `out` is too short for them.
#[unsafe(no_mangle)]
pub extern "C" fn sof_c_read_unchecked(
    device: &mut Handle,
    alloc: Global,
    id: u32,
    out: &mut [u8],
    count: &mut usize,
) -> u32
    ensures status { result ≡ status_at (law.read_status id (length out.old)) device.old.machine }
    ensures same { device.new.machine ≡ device.old.machine }
    ensures out { out.new ≡ law.with_prefix (handed_bytes (law.output_given id (length out.old)) device.old.machine) out.old }
    ensures count { count.new ≡ length (handed_bytes (λ m. bytes_at id m.outputs) device.old.machine) }
{
    *count = 0;
    if !device.is_open() {
        return CLOSED;
    }
    let machine = device.take(alloc);
    let status = machine.read(id, out, count);
    *device = Handle::of(machine);
    status
}
