// The files that a desk over real files reads.
ghost use Rattle.std.specs.Prelude.{◌≡◌, ◌≤◌, length, take, nat_eq, position, Some, None, IfOk, IfErr, MatchResult, string_bytes};
ghost use Rattle.sof_files.specs.InFiles.{opens_of, in_names, left_in_file, SameLeftBeside, LeavesOf};
ghost use Rattle.sof_files.specs.Troubles.{about_file, about_slot};

use crate::trouble::{Subject, Trouble};
use std::io;
use std::io::{ErrorKind, Read};
use std::marker::Model;

/// A file that is open to be read, its slot and its name.
#[derive(Drop)]
pub struct InFile<F: Read + Drop> {
    slot: u32,
    name: String,
    file: F,
}

impl<F: Read + Drop> Model for InFile<F> {
    ghost use Rattle.std.specs.Prelude.{string_bytes};
    ghost use Rattle.sof_files.specs.InFiles.{InView};

    ghost Value = { InView };

    ghost view = { λ f. record { slot = f.slot; name = string_bytes f.name; left = F.remaining f.file } };
}

impl<F: Read + Drop> InFile<F> {
    /// Ties a slot to a file of a name.
    pub fn new(slot: u32, name: String, file: F) -> InFile<F>
        ensures { result ≡ record { slot = slot; name = string_bytes name; left = F.remaining file } }
    {
        InFile { slot, name, file }
    }

    /// Reads the next bytes into the front of `out`, which must have room for one, and tells how many there are: none only at
    /// the end.
    pub fn read(&mut self, out: &mut [u8]) -> Result<usize, Trouble>
        requires { 1 ≤ length out.old }
        ensures slot { self.new.slot ≡ self.old.slot }
        ensures name { self.new.name ≡ self.old.name }
        ensures about { IfErr result (λ trouble. about_file self.old.name trouble.subject) }
        ensures bound { IfOk result (λ count. count ≤ length out.new) }
        ensures left { MatchResult result
            (λ count. LeavesOf (Some (take count out.new)) self.old.left self.new.left)
            (λ trouble. LeavesOf None self.old.left self.new.left) }
    {
        match self.file.read(out) {
            Ok(count) => Ok(count),
            Err(reason) => Err(Trouble::with_file(
                *self.name.allocator(),
                self.name.as_str(),
                reason,
            )),
        }
    }
}

/// The place of the file that is open under a slot.
pub fn place_of<F: Read + Drop>(files: &[InFile<F>], slot: u32) -> Option<usize>
    ensures { result ≡ position (λ f. nat_eq f.slot slot) files.now }
{
    files.iter().position(|opened| opened.slot == slot)
}

/// Reads the next bytes of the file that is open under a slot into the front of `out`, which must have room for one; fails where
/// there is no such file or its read failed.
pub fn read_in<F: Read + Drop>(
    files: &mut [InFile<F>],
    slot: u32,
    out: &mut [u8],
) -> Result<usize, Trouble>
    requires { 1 ≤ length out.old }
    ensures slots { opens_of files.new ≡ opens_of files.old }
    ensures names { in_names files.new ≡ in_names files.old }
    ensures about { IfErr result (λ trouble. about_slot slot (in_names files.old) trouble.subject) }
    ensures bound { IfOk result (λ count. count ≤ length out.new) }
    ensures left { MatchResult result
        (λ count. LeavesOf (Some (take count out.new)) (left_in_file slot files.old) (left_in_file slot files.new))
        (λ trouble. LeavesOf None (left_in_file slot files.old) (left_in_file slot files.new)) }
    ensures others { SameLeftBeside slot files.old files.new }
{
    match place_of(files, slot) {
        Some(place) => files[place].read(out),
        None => Err(Trouble {
            subject: Subject::SomeFile,
            reason: io::Error::from(ErrorKind::NotFound),
        }),
    }
}
