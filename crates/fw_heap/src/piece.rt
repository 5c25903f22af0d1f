//! A piece of a region.
ghost use Rattle.std.specs.Prelude.{◌≡◌, ◌⊎◌, ◌+◌, ◌*◌, ◌%◌, ◌^◌, ◌<◌, ◌≤◌, length};
ghost use Rattle.std.specs.Borrow.{sem};

use crate::run::{Home, Run};
use std::marker::Model;

/// The right to some words of a region. It has to go back by `Region::give`.
pub struct Piece {
    pub(crate) home: Home,
    pub(crate) place: u32,
    pub(crate) size: u32,
    pub(crate) run: Run,
}

impl Model for Piece {
    ghost use Rattle.fw_heap.specs.Pieces.{PieceState};

    ghost Value = { PieceState };

    ghost use Rattle.fw_heap.specs.PieceLaid.{piece_state, IsPiece};

    ghost view = { piece_state };

    ghost invariant = { IsPiece };
}

impl Piece {
    ghost use Rattle.fw_heap.specs.PieceLends.{lends_words};

    /// Where it begins in the region, in bytes.
    pub fn place(&self) -> u32
        ensures { result ≡ self.now.place }
    {
        self.place
    }

    /// How many bytes it has.
    pub fn size(&self) -> u32
        ensures size { result ≡ self.now.size }
        ensures words { (length self.now.words * 4 ≡ self.now.size) × (self.now.place % 16 ≡ 0) × (self.now.size % 16 ≡ 0) × (self.now.size < 2 ^ 32) }
    {
        self.size
    }

    pub fn words(&self) -> &[i32]
        ensures { result.now ≡ self.now.words }
    {
        self.run.words(
            self.home,
            (self.place / 4) as usize,
            (self.size / 4) as usize,
        )
    }

    pub fn words_mut(&mut self) -> &mut [i32]
        ensures* writes_back { sem 𝓛 (lends_words self.entry result) }
        ensures value { result.now ≡ self.old.words }
    {
        let (home, first, len) = (
            self.home,
            (self.place / 4) as usize,
            (self.size / 4) as usize,
        );
        self.run.words_mut(home, first, len)
    }

    /// Two pieces of one region share no byte. Nothing changes.
    pub fn apart(&mut self, other: &mut Piece)
        requires { self.old.home ≡ other.old.home }
        ensures same { (self.new ≡ self.old) × (other.new ≡ other.old) }
        ensures apart { (self.old.place + self.old.size ≤ other.old.place) ⊎ (other.old.place + other.old.size ≤ self.old.place) }
    {
        self.run.apart(&mut other.run);
    }
}
