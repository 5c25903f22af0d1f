// The calls that a program makes on the outside.
ghost use Rattle.std.specs.Prelude.{◌≡◌, ◌≤◌, is_ok, length, take, true, Some, None, MatchResult};
ghost use Rattle.sof_desk.specs.Desk.{DeskMeaning, Loaded, Acted, WasRead, Create, Put, Open, Slot, Spoken};

use std::alloc::Global;

/// The desk failed, and counted it.
#[derive(Clone, Copy, Debug, PartialEq, Eq)]
pub struct DeskFailed;

/// Why a file was not loaded.
#[derive(Clone, Copy, Debug, PartialEq, Eq)]
pub enum LoadFault {
    /// The desk failed, and counted it.
    Failed,
    /// The file has more bytes than the caller's limit.
    TooLong,
    /// Memory for the bytes was missing.
    OutOfMemory,
}

/// How the calls of a run use a file.
#[derive(Clone, Copy, Debug, PartialEq, Eq)]
pub enum FileUse {
    /// It is loaded, or opened to be read.
    ToRead,
    /// A slot is created for it.
    ToWrite,
    /// Lines are told to it, before a run and during it: it is standard output or error too.
    ToTell,
}

/// Where a program's files and lines are. No call changes what a name gives to be loaded or read, and the count of faults
/// never falls.
///
/// A desk keeps files apart: it creates no slot for a file that it loaded, opened or created a slot for, and it neither loads nor
/// opens one that it created a slot for. Nor does it take a file to which lines are told for any of these. Such a call fails, and leaves
/// the file as it is. Special files, as terminals and pipes, may be shared.
pub trait Desk {
    /// What the desk holds, what was written to it, its count of faults, and what each call does.
    ghost means: { DeskMeaning Self };

    /// The bytes of the file of a name, in a new `Vec` of `alloc`.
    ///
    /// Ok is all its bytes, and never more than `limit` bytes, also where the desk tells no content. `TooLong`: the file
    /// has more than `limit` bytes. `Failed`: the count of faults rose, also where the file is written by this run.
    /// `OutOfMemory`: there was no memory.
    /// In every case what was written stays, and so does what is still to be read.
    fn load(&mut self, alloc: Global, name: &str, limit: usize) -> Result<Vec<u8>, LoadFault>
        ensures { MatchResult result
            (λ bytes. Loaded means name.now limit (Ok bytes.items) self.old self.new)
            (λ fault. Loaded means name.now limit (Err fault) self.old self.new) };

    /// Creates the file of a name and ties a slot to it.
    ///
    /// Ok: the slot is created and empty, also where it was created before. Err: the count of faults rose, and every slot
    /// is as it was, also where the file is read or written by this run.
    fn create(&mut self, slot: u32, name: &str) -> Result<(), DeskFailed>
        ensures { Acted means (Create slot name.now) (is_ok result) self.old self.new };

    /// Appends a piece of any number of bytes to a slot, which must have been created.
    ///
    /// Ok: all its bytes were appended. Err: the count of faults rose, and a prefix of the piece was appended.
    fn append(&mut self, slot: u32, piece: &[u8]) -> Result<(), DeskFailed>
        requires { means.created self.old slot ≡ true }
        ensures { Acted means (Put (Slot slot) piece.now) (is_ok result) self.old self.new };

    /// Says a piece of any number of bytes.
    ///
    /// Ok: all its bytes were said. Err: the count of faults rose, and a prefix of the piece was said.
    fn say(&mut self, piece: &[u8]) -> Result<(), DeskFailed>
        ensures { Acted means (Put Spoken piece.now) (is_ok result) self.old self.new };

    /// Opens the file of a name to be read under a slot, from its first byte, also where the slot was open before.
    ///
    /// Ok: the slot is open. Err: the count of faults rose, and every slot is as it was, also where the file is written by this
    /// run.
    fn open(&mut self, slot: u32, name: &str) -> Result<(), DeskFailed>
        ensures { Acted means (Open slot name.now) (is_ok result) self.old self.new };

    /// Reads the next bytes of the file that is open under a slot into the front of `out`, which must have room for one.
    ///
    /// Ok is how many there are, and 0 is the end of the file. Err: the count of faults rose, and nothing was read.
    fn read(&mut self, slot: u32, out: &mut [u8]) -> Result<usize, DeskFailed>
        requires opened { means.opened self.old slot ≡ true }
        requires room { 1 ≤ length out.old }
        ensures { MatchResult result
            (λ count. (count ≤ length out.new) × WasRead means slot (length out.old) (Some (take count out.new)) self.old self.new)
            (λ fault. WasRead means slot (length out.old) None self.old self.new) };
}

/// How many slots a desk has room for to be read, and one over real files to be appended to.
pub const SLOTS: usize = 130;
