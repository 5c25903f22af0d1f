// Bytes in a room of a fixed size.
ghost use Rattle.std.specs.Prelude.{◌≡◌, length, [], IfOk};
ghost use Rattle.sof_desk.specs.Room.{room_with_piece, takes_whole};

use sof_base::NoMemory;
use std::alloc::Global;
use std::marker::Model;

/// Bytes, and the number of bytes that memory was reserved for.
#[derive(Drop)]
pub struct Store {
    bytes: Vec<u8>,
    size: usize,
}

impl Model for Store {
    ghost use Rattle.std.specs.Prelude.{◌≤◌, vec_len, vec_capacity};
    ghost use Rattle.sof_desk.specs.Room.{Room};

    ghost Value = { Room };

    ghost view = { λ s. record { bytes = s.bytes.items; size = s.size } };

    ghost invariant = { λ s. (vec_len s.bytes ≤ s.size) × (s.size ≤ vec_capacity s.bytes) };
}

impl Store {
    /// No bytes, and room for `size` bytes.
    pub fn new(alloc: Global, size: usize) -> Result<Store, NoMemory>
        ensures { IfOk result (λ store. store ≡ record { bytes = []; size = size }) }
    {
        let bytes = Vec::with_capacity(alloc, size)?;
        Ok(Store { bytes, size })
    }

    /// These bytes, and room for no more.
    pub fn filled(alloc: Global, from: &[u8]) -> Result<Store, NoMemory>
        ensures { IfOk result (λ store. store ≡ record { bytes = from.now; size = length from.now }) }
    {
        let mut bytes = Vec::with_capacity(alloc, from.len())?;
        bytes.extend_from_slice(from)?;
        Ok(Store {
            bytes,
            size: from.len(),
        })
    }

    pub fn bytes(&self) -> &[u8]
        ensures { result.now ≡ self.now.bytes }
    {
        self.bytes.as_slice()
    }

    /// Appends the front of a piece that fits, where the call is planned to fail at most so many bytes, and tells whether
    /// the piece was taken whole by a call that is not planned to fail.
    pub fn take(&mut self, piece: &[u8], planned: Option<u32>) -> bool
        ensures whole { result ≡ takes_whole self.old planned piece.now }
        ensures after { self.new ≡ room_with_piece self.old planned piece.now }
    {
        let left = self.size - self.bytes.len();
        let fitting = piece.len().min(left);
        let count = match planned {
            Some(passes) => fitting.min(passes as usize),
            None => fitting,
        };
        self.bytes.extend_from_slice(&piece[..count]).unwrap();
        planned.is_none() && piece.len() <= left
    }

    /// Takes all bytes away; the room stays.
    pub fn clear(&mut self)
        ensures { self.new ≡ record self.old { bytes = [] } }
    {
        self.bytes.clear();
    }
}
