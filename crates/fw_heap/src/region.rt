//! One region of memory.
ghost use Rattle.std.specs.Prelude.{◌≡◌, ◌+◌, ◌*◌, ◌/◌, ◌%◌, ◌^◌, ◌<◌, ◌≤◌, ◌↔◌, [], max, true, false, length, vec_capacity, IsTrue, IsOk, IfOk, IfErr};
ghost use Rattle.core.specs.Mem.Slots.{slots_len, SamePlaces, IsFull};
ghost use Rattle.fw_heap.specs.HoleList.{spans, Ours};
ghost use Rattle.sof_base.specs.Holes.{fresh_holes, usable_of, rounded, fits, first_fit, carved, given, largest as largest_of};
ghost use Rattle.sof_base.specs.Spacing.{total};
ghost use Rattle.fw_heap.specs.Regions.{carves, limited};

use crate::block::{Block, release, reserve};
use crate::free_run::FreeRun;
use crate::holes::{add, find, take_from};
use crate::piece::Piece;
use crate::run::{Home, Run};
use core::slots::Slots;
use sof_base::NoMemory;
use std::alloc::Global;
use std::marker::Model;
use std::mem;

/// No hole holds the rounded size.
#[derive(Debug, Clone, Copy, PartialEq, Eq)]
pub struct RegionFull;

/// The owner of the words of its holes. It has to be closed, with all pieces back.
pub struct Region {
    home: Home,
    bytes: u32,
    usable: u32,
    holes: Vec<FreeRun>,
    // The words past the usable ones.
    rest: Run,
    block: Block<Global>,
    alloc: Global,
}

impl Model for Region {
    ghost use Rattle.fw_heap.specs.Regions.{RegionState};

    ghost Value = { RegionState };

    ghost use Rattle.fw_heap.specs.RegionLaid.{region_state, IsRegion};

    ghost view = { region_state };

    ghost invariant = { IsRegion };
}

/// Joins all words, once all pieces are back.
fn gather(holes: &mut Vec<FreeRun>, rest: &mut Run)
    requires back { spans holes.old.items ≡ fresh_holes (rest.old.first * 4) }
    requires ours { Ours rest.old.start holes.old.items × (rest.old.written ≡ false) }
    ensures holes { (holes.new.items ≡ []) × (vec_capacity holes.new ≡ vec_capacity holes.old) }
    ensures rest { (rest.new.start ≡ rest.old.start) × (rest.new.first ≡ 0) × (length rest.new.items ≡ rest.old.first + length rest.old.items) × (rest.new.written ≡ false) }
{
    if let Some(hole) = holes.pop() {
        let FreeRun {
            place: _,
            size: _,
            run,
        } = hole;
        let past = mem::replace(rest, run);
        rest.append(past);
    }
}

/// Makes a hole of the first `usable` bytes.
fn open(holes: &mut Vec<FreeRun>, rest: &mut Run, usable: u32)
    requires empty { (holes.old.items ≡ []) × (0 < vec_capacity holes.old) }
    requires words { (rest.old.first ≡ 0) × (usable % 16 ≡ 0) × (usable ≤ length rest.old.items * 4) × (rest.old.written ≡ false) }
    ensures holes { (spans holes.new.items ≡ fresh_holes usable) × Ours rest.old.start holes.new.items × (vec_capacity holes.new ≡ vec_capacity holes.old) }
    ensures rest { (rest.new.start ≡ rest.old.start) × (rest.new.first * 4 ≡ usable) × (rest.new.first + length rest.new.items ≡ length rest.old.items) × (rest.new.written ≡ false) }
{
    if usable > 0 {
        let run = rest.take_front((usable / 4) as usize);
        holes.push_reserved(FreeRun {
            place: 0,
            size: usable,
            run,
        });
    }
}

fn free(holes: &Vec<FreeRun>) -> u32
    requires { total (spans holes.now.items) < 2 ^ 32 }
    ensures { result ≡ total (spans holes.now.items) }
{
    let mut free = 0;
    for hole in holes {
        free += hole.size;
    }
    free
}

// The size of the largest of these, 0 if there is none.
fn greatest(holes: &Vec<FreeRun>) -> u32
    ensures { result ≡ largest_of (spans holes.now.items) }
{
    let mut most = 0;
    for hole in holes {
        most = greater(most, hole.size);
    }
    most
}

// The greater of two numbers.
fn greater(a: u32, b: u32) -> u32
    ensures { result ≡ max a b }
{
    if a < b { b } else { a }
}

/// Writes 0 to each word of a run.
fn written(run: Run, home: Home, first: usize, len: u32) -> Run
    requires { (home.start ≡ run.start) × (first ≡ run.first) × (len ≡ length run.items) × (first + len < 2 ^ 32) × (run.written ≡ false) }
    ensures { (result.start ≡ run.start) × (result.first ≡ run.first) × (length result.items ≡ len) × (result.written ≡ true) }
{
    let mut row = run.into_row(home, first, len as usize);
    fill(&mut row, len as usize);
    let (_, run) = Run::of(row, len);
    run.rebase(home, first)
}

/// Puts 0 at each place of a row.
fn fill(row: &mut Slots<i32>, len: usize)
    requires { slots_len row.old ≡ len }
    ensures full { IsFull row.new }
    ensures places { SamePlaces row.old row.new }
{
    for i in 0..len {
        row.put(i, 0);
    }
}

impl Region {
    pub fn new(alloc: Global, bytes: u32) -> Result<Region, NoMemory>
        ensures { IfOk result (λ r. (r.size ≡ bytes) × (r.usable ≡ usable_of bytes) × (r.holes ≡ fresh_holes (usable_of bytes))) }
    {
        let Ok(holes) = Vec::with_capacity(alloc, (bytes / 32 + 3) as usize) else {
            return Err(NoMemory);
        };
        let usable = bytes / 16 * 16;
        match reserve(&alloc, bytes / 16 * 4) {
            Ok(((home, run), block)) => {
                let (mut holes, mut rest) = (holes, run);
                open(&mut holes, &mut rest, usable);
                Ok(Region {
                    home,
                    bytes,
                    usable,
                    holes,
                    rest,
                    block,
                    alloc,
                })
            }
            Err(_refused) => {
                holes.destroy_empty();
                Err(NoMemory)
            }
        }
    }

    /// Leaves only the first `bytes`, rounded down to a multiple of 16, to be carved.
    pub fn limit(&mut self, bytes: u32)
        requires back { self.old.holes ≡ fresh_holes self.old.usable }
        requires within { bytes ≤ self.old.size }
        ensures { self.new ≡ limited (usable_of bytes) self.old }
    {
        let usable = bytes / 16 * 16;
        gather(&mut self.holes, &mut self.rest);
        open(&mut self.holes, &mut self.rest, usable);
        self.usable = usable;
    }

    /// How many bytes are carved.
    pub fn used(&self) -> u32
        ensures { result + total self.now.holes ≡ self.now.usable }
    {
        self.usable - free(&self.holes)
    }

    /// The size of the largest hole, in bytes; 0 if no hole is left.
    pub fn largest(&self) -> u32
        ensures { result ≡ largest_of self.now.holes }
    {
        greatest(&self.holes)
    }

    pub fn size(&self) -> u32
        ensures { result ≡ self.now.size }
    {
        self.bytes
    }

    /// Gives the memory back.
    pub fn close(self)
        requires { self.holes ≡ fresh_holes self.usable }
    {
        let Region {
            home: _,
            bytes: _,
            usable: _,
            holes,
            rest,
            block,
            alloc,
        } = self;
        let (mut holes, mut rest) = (holes, rest);
        gather(&mut holes, &mut rest);
        holes.destroy_empty();
        release(&alloc, rest, block);
    }

    /// Gives back a piece of this region. Holes that touch are joined.
    pub fn give(&mut self, piece: Piece)
        requires { piece.home ≡ self.old.home }
        ensures holes { self.new.holes ≡ given (record { place = piece.place; size = piece.size }) self.old.holes }
        ensures same { (self.new.home ≡ self.old.home) × (self.new.size ≡ self.old.size) × (self.new.usable ≡ self.old.usable) }
    {
        let Piece {
            home: _,
            place,
            size,
            run,
        } = piece;
        let mut run = run.forget();
        self.rest.apart(&mut run);
        add(&mut self.holes, FreeRun { place, size, run });
    }

    /// Takes the front of the first hole that has `bytes`, rounded up to a multiple of 16.
    pub fn carve(&mut self, bytes: u32) -> Result<Piece, RegionFull>
        requires { 1 ≤ bytes }
        ensures succeeds { IsOk result ↔ IsTrue (fits (rounded bytes) self.old.holes) }
        ensures piece { IfOk result (λ p. (p.home ≡ self.old.home) × (p.size ≡ rounded bytes) × (p.place ≡ first_fit (rounded bytes) self.old.holes) × (p.place + p.size ≤ self.old.usable)) }
        ensures holes { IfOk result (λ _. self.new ≡ carves (rounded bytes) self.old) }
        ensures full { IfErr result (λ _. self.new ≡ self.old) }
    {
        if bytes > self.usable {
            return Err(RegionFull);
        }
        let size = (bytes + 15) / 16 * 16;
        match find(&self.holes, size) {
            Some(at) => {
                let (place, run) = take_from(&mut self.holes, at, size);
                let (first, len) = ((place / 4) as usize, size / 4);
                Ok(Piece {
                    home: self.home,
                    place,
                    size,
                    run: written(run, self.home, first, len),
                })
            }
            None => Err(RegionFull),
        }
    }
}
