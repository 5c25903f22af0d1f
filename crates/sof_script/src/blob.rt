// Bytes for an equaliser.
ghost use Rattle.std.specs.Prelude.{◌≡◌, ◌≤◌, length, IfOk};

use sof_base::{Items, NoMemory};
use std::alloc::Global;
use std::marker::Model;

/// At most 1024 bytes, in memory of their own. Contracts see the bytes.
#[derive(Debug, Drop)]
pub struct Blob {
    bytes: Items<u8>,
}

impl Model for Blob {
    ghost use Rattle.std.specs.Prelude.{List, ℕ, ◌≤◌, length};

    ghost Value = { List ℕ };

    ghost view = { λ b. b.bytes };

    ghost invariant = { λ b. length b.bytes ≤ 1024 };
}

impl Blob {
    /// A blob of these bytes.
    pub fn new(alloc: Global, bytes: &[u8]) -> Result<Blob, NoMemory>
        requires { length bytes.now ≤ 1024 }
        ensures { IfOk result (λ blob. blob ≡ bytes.now) }
    {
        let bytes = Items::from_vec(Vec::from_slice(alloc, bytes)?);
        Ok(Blob { bytes })
    }

    pub fn items(&self) -> &[u8]
        ensures value { result.now ≡ self.now }
        ensures fits { length self.now ≤ 1024 }
    {
        self.bytes.items()
    }
}
