// What C holds of a device: a pointer to it, and whether there is one.
ghost use Rattle.std.specs.Prelude.{◌≡◌, Option, Some, None, true, is_some};
ghost use Rattle.sof_c.specs.declared.machine.Machine.{Machine};

mod raw;

use crate::machine::Machine;
use raw::Raw;
use std::alloc::Global;
use std::marker::Model;
use std::ptr::null_mut;

/// A handle: closed, or open with the one pointer to a machine. C declares `struct sof_c_device { void *at; bool held; }`, begins with
/// zeros, which is a closed one, and neither changes nor copies it.
#[repr(C)]
#[derive(Drop)]
pub struct Handle {
    at: *mut u8,
    held: bool,
    ghost machine: { Option Machine },
    ghost known: { held ≡ is_some machine },
}

impl Model for Handle {
    ghost use Rattle.sof_c.specs.Owned.{owned_by};

    ghost also_owns = { λ h. owned_by h.at h.machine };
}

impl Handle {
    /// A closed handle.
    pub fn closed() -> Handle
        ensures { result.machine ≡ None }
    {
        Handle {
            at: null_mut(),
            held: false,
        }
    }

    /// A handle of a machine.
    pub fn of(machine: Box<Machine>) -> Handle
        ensures { result.machine ≡ Some machine.value }
    {
        Handle::of_raw(Raw::of(machine))
    }

    fn of_raw(raw: Raw<Machine>) -> Handle
        ensures { result.machine ≡ Some raw.value }
    {
        let Raw { at } = raw;
        Handle {
            at: at as *mut u8,
            held: true,
        }
    }

    /// Whether there is a machine.
    pub fn is_open(&mut self) -> bool
        ensures { (result ≡ is_some self.old.machine) × (self.new ≡ self.old) }
    {
        self.held
    }

    /// The machine of an open handle, which is closed then.
    pub fn take(&mut self, alloc: Global) -> Box<Machine>
        requires { is_some self.old.machine ≡ true }
        ensures closed { self.new.machine ≡ None }
        ensures machine { Some result.value ≡ self.old.machine }
    {
        std::mem::replace(self, Handle::closed()).into_box(alloc)
    }

    fn into_box(self, alloc: Global) -> Box<Machine>
        requires { is_some self.machine ≡ true }
        ensures { Some result.value ≡ self.machine }
    {
        let Handle { at, held: _ } = self;
        unsafe { Box::from_raw(alloc, at as *mut Machine) }
    }
}
