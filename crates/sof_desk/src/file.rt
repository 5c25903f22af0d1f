// The files that a desk in memory holds.
ghost use Rattle.std.specs.Prelude.{◌≡◌, map, find, position, slice_get, is_some, IfOk, IfSome, OnOk, OnErr, MatchOption, None, if◌then◌else◌};
ghost use Rattle.std.specs.List.{position_or_len};
ghost use Rattle.sof_desk.specs.Edits.{changed_first, put_first};
ghost use Rattle.sof_desk.specs.HeldFiles.{input_file, output_file, named, tied, loaded_of, bytes_in_role, is_output, can_create, without_slot, file_with_slot, files_with_slot, file_with_piece, file_takes_whole};
ghost use Rattle.sof_desk.specs.OpenSlots.{read_of};
ghost use Rattle.sof_desk.specs.Room.{takes_whole};

use crate::store::Store;
use sof_base::NoMemory;
use std::alloc::Global;
use std::marker::Model;

/// What a file is for.
#[derive(Clone, Copy, Debug, PartialEq, Eq)]
pub enum Role {
    /// It is loaded.
    Input,
    /// A slot may be created for it.
    Output,
    /// This slot was created for it, and appends to it.
    Tied(u32),
    /// A slot was created for it, and then for another file.
    Left,
}

/// A name, its bytes, and what they are for.
#[derive(Drop)]
pub struct MemFile {
    name: String,
    store: Store,
    role: Role,
}

impl Model for MemFile {
    ghost use Rattle.std.specs.Prelude.{string_bytes};
    ghost use Rattle.sof_desk.specs.HeldFiles.{HeldFile};

    ghost Value = { HeldFile };

    ghost view = { λ f. record { name = string_bytes f.name; room = f.store; role = f.role } };
}

impl MemFile {
    /// A file of these bytes, to be loaded.
    pub fn input(alloc: Global, name: &str, bytes: &[u8]) -> Result<MemFile, NoMemory>
        ensures { IfOk result (λ file. file ≡ input_file name.now bytes.now) }
    {
        Ok(MemFile {
            name: String::from_str(alloc, name)?,
            store: Store::filled(alloc, bytes)?,
            role: Role::Input,
        })
    }

    /// An empty file with room for so many bytes, to be created.
    pub fn output(alloc: Global, name: &str, size: usize) -> Result<MemFile, NoMemory>
        ensures { IfOk result (λ file. file ≡ output_file name.now size) }
    {
        Ok(MemFile {
            name: String::from_str(alloc, name)?,
            store: Store::new(alloc, size)?,
            role: Role::Output,
        })
    }

    pub fn is_named(&self, name: &str) -> bool
        ensures { result ≡ named name.now self.now }
    {
        self.name.as_str() == name
    }

    /// Whether this slot was created for the file, and for no later one.
    pub fn is_tied(&self, slot: u32) -> bool
        ensures { result ≡ tied slot self.now }
    {
        match self.role {
            Role::Tied(other) => other == slot,
            Role::Input | Role::Output | Role::Left => false,
        }
    }

    pub fn is_output(&self) -> bool
        ensures { result ≡ is_output self.now.role }
    {
        match self.role {
            Role::Output => true,
            Role::Input | Role::Tied(_) | Role::Left => false,
        }
    }

    pub fn bytes(&self) -> &[u8]
        ensures { result.now ≡ self.now.room.bytes }
    {
        self.store.bytes()
    }

    /// The bytes that a load gives.
    pub fn loaded(&self) -> Option<&[u8]>
        ensures { MatchOption result
            (bytes_in_role self.now.role self.now.room.bytes ≡ None)
            (λ bytes. bytes_in_role self.now.role self.now.room.bytes ≡ Some bytes.now) }
    {
        match self.role {
            Role::Input => Some(self.store.bytes()),
            Role::Output | Role::Tied(_) | Role::Left => None,
        }
    }

    /// Appends what fits and passes of a piece, and tells whether that is the whole piece, with no plan to fail.
    pub fn take(&mut self, piece: &[u8], planned: Option<u32>) -> bool
        ensures whole { result ≡ takes_whole self.old.room planned piece.now }
        ensures after { self.new ≡ file_with_piece planned piece.now self.old }
    {
        self.store.take(piece, planned)
    }

    /// Ties a slot to the file, which is empty then.
    pub fn tie(&mut self, slot: u32)
        ensures { self.new ≡ file_with_slot slot self.old }
    {
        self.store.clear();
        self.role = Role::Tied(slot);
    }

    /// Leaves a slot to another file.
    pub fn leave(&mut self, slot: u32)
        ensures { self.new ≡ without_slot slot self.old }
    {
        if self.is_tied(slot) {
            self.role = Role::Left;
        }
    }
}

fn place_of(files: &[MemFile], name: &str) -> Option<usize>
    ensures { result ≡ position (named name.now) files.now }
{
    files.iter().position(|file| file.is_named(name))
}

/// The file of a name.
pub fn file_of<'a>(files: &'a [MemFile], name: &str) -> Option<&'a MemFile>
    ensures { MatchOption result
        (find (named name.now) files.now ≡ None)
        (λ file. find (named name.now) files.now ≡ Some file.now) }
{
    match place_of(files, name) {
        Some(place) => Some(&files[place]),
        None => None,
    }
}

/// The place of the file of a name, where it is one that is loaded.
pub fn input_of(files: &[MemFile], name: &str) -> Option<usize>
    ensures some { is_some result ≡ is_some (loaded_of (find (named name.now) files.now)) }
    ensures place { IfSome result (λ place. place ≡ position_or_len (named name.now) files.now) }
{
    let place = place_of(files, name)?;
    files[place].loaded()?;
    Some(place)
}

/// The bytes that are read of the file at a place.
pub fn read_of(files: &[MemFile], place: usize) -> &[u8]
    ensures { result.now ≡ read_of (slice_get files.now place) }
{
    match files.get(place) {
        Some(file) => file.loaded().unwrap_or(&[]),
        None => &[],
    }
}

/// The bytes that a load of a name gives.
pub fn loaded_of<'a>(files: &'a [MemFile], name: &str) -> Option<&'a [u8]>
    ensures { MatchOption result
        (loaded_of (find (named name.now) files.now) ≡ None)
        (λ bytes. loaded_of (find (named name.now) files.now) ≡ Some bytes.now) }
{
    match file_of(files, name) {
        Some(file) => file.loaded(),
        None => None,
    }
}

/// Puts a file in the place of the one of this name, or at the end.
pub fn put_in(files: &mut Vec<MemFile>, name: &str, file: MemFile) -> Result<(), NoMemory>
    ensures ok { OnOk result (files.new.items ≡ put_first (named name.now) file files.old.items) }
    ensures err { OnErr result (files.new.items ≡ files.old.items) }
{
    match place_of(files, name) {
        Some(place) => files[place] = file,
        None => files.push(file)?,
    }
    Ok(())
}

/// Ties a slot to the file of a name, and takes it from any other, where this file is an output that no slot was created
/// for; tells whether it is one.
pub fn create_in(files: &mut [MemFile], slot: u32, name: &str) -> bool
    ensures done { result ≡ can_create (find (named name.now) files.old) }
    ensures after { files.new ≡ (if result then files_with_slot slot name.now files.old else files.old) }
{
    let Some(place) = place_of(files, name) else {
        return false;
    };
    if !files[place].is_output() {
        return false;
    }
    leave_all(files, slot);
    files[place].tie(slot);
    true
}

/// Takes a slot from each file that it was created for.
fn leave_all(files: &mut [MemFile], slot: u32)
    ensures { files.new ≡ map (without_slot slot) files.old }
{
    for file in files {
        file.leave(slot);
    }
}

fn place_of_slot(files: &[MemFile], slot: u32) -> Option<usize>
    ensures { result ≡ position (tied slot) files.now }
{
    files.iter().position(|file| file.is_tied(slot))
}

/// Appends what fits and passes of a piece to the file of a slot, and tells whether that is the whole piece, with no plan
/// to fail.
pub fn append_in(files: &mut [MemFile], slot: u32, piece: &[u8], planned: Option<u32>) -> bool
    ensures whole { result ≡ file_takes_whole planned piece.now (find (tied slot) files.old) }
    ensures after { files.new ≡ changed_first (tied slot) (file_with_piece planned piece.now) files.old }
{
    match place_of_slot(files, slot) {
        Some(place) => files[place].take(piece, planned),
        None => false,
    }
}
