// A desk over real files and standard output: the edge to the outside, which tells no content.
ghost use Rattle.std.specs.Prelude.{◌≡◌, ◌≤◌, length, is_ok, is_some, nat_lt, true, None, IfOk, IfErr, OnErr, if◌then◌else◌};
ghost use Rattle.std.specs.Option.{option_copied};
ghost use Rattle.sof_desk.specs.declared.calls.FileUse.TheVariants.{ToRead, ToWrite};
ghost use Rattle.sof_desk.specs.Desk.{Create, Open};
ghost use Rattle.sof_files.specs.UsedFiles.{TakesFile, TakesWhere, TakesForCall};
ghost use Rattle.sof_files.specs.OutFiles.{slots_of, out_names, SameBeside, SameGiven, NoneKept, Untouched, UntouchedWhere};
ghost use Rattle.sof_files.specs.declared.out_file.Kept.TheVariants.{Bytes, All};
ghost use Rattle.sof_files.specs.Asides.{Waits};
ghost use Rattle.sof_files.specs.InFiles.{opens_of, in_names, KeepsLeft};
ghost use Rattle.sof_files.specs.RealDesk.{real, slots_with, out_names_after, in_names_after, IsNew, HandsOut};

use crate::aside::{Aside, keep_aside, put_in_place, remove};
use crate::file_use::{UsedFile, tell_to};
use crate::in_file;
use crate::in_file::InFile;
use crate::opening::{Way, open_to_read, open_to_write, target_of};
use crate::out_file::{Kept, OutFile, append_in, place_of, write_kept_of};
use crate::sink::Sink;
use crate::standard::{Standard, Stream};
use crate::transfer::{ReadFault, read_all, write_all};
use crate::trouble::{SayFault, Subject, Trouble};
use crate::troubles::Troubles;
use sof_base::NoMemory;
use sof_desk::{Desk, DeskFailed, LoadFault, SLOTS};
use std::alloc::Global;
use std::io;
use std::marker::Model;
use std::rt::Files;

/// A desk over the files and the standard output of a runtime. It has room for 130 slots to append to and 130 to read. It keeps up
/// to 256 KiB of what is appended to each, and writes them before a line is said. A file that it created a slot for is emptied when
/// its first bytes go out or the next line was said, and one that it hands out before its first bytes. A file that is written aside takes
/// its place before the next line if it has bytes, and else after it; where no line comes, it is removed as the desk is dropped. The desk
/// tells no content; what it gives and takes is what the runtime does. By device and number it tells whether two names are one file, but
/// for special files. So it does of the files that standard output and standard error go to.
pub struct OsDesk<R: Files> {
    rt: R,
    alloc: Global,
    files: Vec<OutFile<R::File>>,
    inputs: Vec<InFile<R::File>>,
    uses: Vec<UsedFile>,
    alone: Option<u32>,
    replaced: Option<u32>,
    aside: Option<Aside>,
    troubles: Troubles,
}

impl<R: Files + Drop> Drop for OsDesk<R> {
    // No line said what a file that is still aside holds.
    fn drop(self) {
        if let Some(aside) = &self.aside {
            remove(&self.rt, aside);
        }
        let OsDesk {
            rt: _rt,
            alloc: _,
            files: _files,
            inputs: _inputs,
            uses: _uses,
            alone: _,
            replaced: _,
            aside: _aside,
            troubles: _troubles,
        } = self;
    }
}

impl<R: Files> Model for OsDesk<R> {
    ghost use Rattle.std.specs.Prelude.{◌≤◌, vec_len, vec_capacity};
    ghost use Rattle.sof_desk.specs.declared.calls.TheConstants.{SLOTS};
    ghost use Rattle.sof_files.specs.RealDesk.{RealDesk};

    ghost Value = { RealDesk };

    ghost view = { λ d. record {
      files = d.files.items;
      inputs = d.inputs.items;
      uses = d.uses.items;
      faults = d.troubles.count;
      first = d.troubles.first;
    } };

    ghost invariant = { λ d. record {
      created : (vec_len d.files ≤ SLOTS) × (SLOTS ≤ vec_capacity d.files);
      to_read : (vec_len d.inputs ≤ SLOTS) × (SLOTS ≤ vec_capacity d.inputs);
    } };
}

impl<R: Files + Standard + Print + Drop> OsDesk<R> {
    /// A desk on which no slot was created or opened and no call failed. The files that its runtime's standard output and standard error
    /// go to are told to: it takes none of them.
    pub fn new(rt: R, alloc: Global) -> Result<OsDesk<R>, NoMemory>
        ensures { IfOk result (IsNew (R.goes_to rt)) }
    {
        let mut uses = Vec::new(alloc);
        tell_to(&mut uses, rt.file_of(Stream::Output))?;
        tell_to(&mut uses, rt.file_of(Stream::Error))?;
        Ok(OsDesk {
            rt,
            alloc,
            files: Vec::with_capacity(alloc, SLOTS)?,
            inputs: Vec::with_capacity(alloc, SLOTS)?,
            uses,
            alone: None,
            replaced: None,
            aside: None,
            troubles: Troubles::none(),
        })
    }

    /// From now on the file of this slot is kept apart from standard output and standard error where it is a pipe too: no line
    /// belongs among its bytes.
    pub fn set_alone(&mut self, slot: u32)
        ensures { self.new ≡ self.old }
    {
        self.alone = Some(slot);
    }

    /// From now on the file of this slot is written aside, in its folder, and takes its place at once, with its mode, at the next line.
    /// It is written as it stands where it is no regular file of one name, owner and group, or where no file can stand aside.
    pub fn set_aside(&mut self, slot: u32)
        ensures { self.new ≡ self.old }
    {
        self.replaced = Some(slot);
    }

    /// Why the first call failed that did: what it was about, and the system's reason.
    pub fn trouble(&self) -> Option<&Trouble>
        ensures first { option_copied result ≡ self.now.first }
        ensures counted { is_some result ≡ nat_lt 0 self.now.faults }
    {
        self.troubles.first()
    }

    /// Opens a file to be written and hands it out, made where there is none. It stands as it was until bytes go out. Fails, which is
    /// counted, where the file was not opened, or where this run reads it or writes it already.
    pub fn file_to_write(&mut self, name: &str) -> Result<Sink<R::File>, DeskFailed>
        ensures { HandsOut ToWrite name.now (is_ok result) self.old self.new }
    {
        match sink_of(&self.rt, name, &mut self.uses) {
            Ok(sink) => Ok(sink),
            Err(reason) => {
                self.troubles.note_file(self.alloc, name, reason);
                Err(DeskFailed)
            }
        }
    }

    /// Opens a file to be read and hands it out. Fails, which is counted, where the file was not opened, or where this run writes it.
    pub fn file_to_read(&mut self, name: &str) -> Result<R::File, DeskFailed>
        ensures { HandsOut ToRead name.now (is_ok result) self.old self.new }
    {
        match source_of(&self.rt, name, &mut self.uses) {
            Ok(file) => Ok(file),
            Err(reason) => {
                self.troubles.note_file(self.alloc, name, reason);
                Err(DeskFailed)
            }
        }
    }

    /// Opens a file to be written, made where there is none or aside, and keeps it under a slot. It stands as it was until bytes go out. Fails
    /// where there was no room for the slot, its name and its bytes, where the file was not opened, or where this run reads it or
    /// writes it already.
    fn open_for_writing(&mut self, slot: u32, name: &str) -> io::Result<()>
        ensures faults { self.new.faults ≡ self.old.faults }
        ensures first { self.new.first ≡ self.old.first }
        ensures slots { slots_of self.new.files ≡ (if is_ok result then slots_with slot (slots_of self.old.files) else slots_of self.old.files) }
        ensures others { SameBeside slot self.old.files self.new.files }
        ensures names { out_names self.new.files ≡ out_names_after (Create slot name.now) (is_ok result) (out_names self.old.files) }
        ensures room { length self.new.files ≤ SLOTS }
        ensures inputs { self.new.inputs ≡ self.old.inputs }
        ensures takes { TakesForCall (Create slot name.now) (is_ok result) self.old.uses self.new.uses }
    {
        let place = place_of(&self.files, slot);
        if place.is_none() && self.files.len() >= SLOTS {
            return Err(io::Error::other("too many outputs"));
        }
        let way = Way {
            alone: self.alone == Some(slot),
            aside: self.replaced == Some(slot),
        };
        let (opened, aside) = output_of(&self.rt, self.alloc, slot, name, way, &mut self.uses)?;
        keep_aside(&self.rt, &mut self.aside, slot, aside);
        match place {
            Some(place) => self.files[place] = opened,
            None => self.files.push(opened).unwrap(),
        }
        Ok(())
    }

    /// Opens a file and keeps it open under a slot; fails where there was no room for the slot or its name, the file was not
    /// opened, or this run writes it.
    fn open_for_reading(&mut self, slot: u32, name: &str) -> io::Result<()>
        ensures faults { self.new.faults ≡ self.old.faults }
        ensures first { self.new.first ≡ self.old.first }
        ensures files { self.new.files ≡ self.old.files }
        ensures slots { opens_of self.new.inputs ≡ (if is_ok result then slots_with slot (opens_of self.old.inputs) else opens_of self.old.inputs) }
        ensures names { in_names self.new.inputs ≡ in_names_after (Open slot name.now) (is_ok result) (in_names self.old.inputs) }
        ensures keeps { KeepsLeft (Open slot name.now) (is_ok result) self.old.inputs self.new.inputs }
        ensures room { length self.new.inputs ≤ SLOTS }
        ensures takes { TakesForCall (Open slot name.now) (is_ok result) self.old.uses self.new.uses }
    {
        let place = in_file::place_of(&self.inputs, slot);
        if place.is_none() && self.inputs.len() >= SLOTS {
            return Err(io::Error::other("too many inputs"));
        }
        let opened = input_of(&self.rt, self.alloc, slot, name, &mut self.uses)?;
        match place {
            Some(place) => self.inputs[place] = opened,
            None => self.inputs.push(opened).unwrap(),
        }
        Ok(())
    }
}

/// The file of a name under a slot, to be written, and its names where it is one aside. All memory for it comes before it is opened; that
/// for its names comes after it, and where there is none, it is not written aside.
fn output_of<R: Files>(
    rt: &R,
    alloc: Global,
    slot: u32,
    name: &str,
    way: Way,
    uses: &mut Vec<UsedFile>,
) -> io::Result<(OutFile<R::File>, Option<Aside>)>
    ensures slot { IfOk result (λ f. f.0.slot ≡ slot) }
    ensures name { IfOk result (λ f. f.0.name ≡ name.now) }
    ensures takes { TakesForCall (Create slot name.now) (is_ok result) uses.old.items uses.new.items }
{
    uses.reserve(1)?;
    let mut output = OutFile::new(alloc, slot, name)?;
    let target = target_of(rt, alloc, slot, name, way, uses)?;
    output.hold(target.file, target.stale);
    Ok((output, target.aside))
}

/// The file of a name under a slot, to be read. All memory for it comes before it is opened.
fn input_of<R: Files>(
    rt: &R,
    alloc: Global,
    slot: u32,
    name: &str,
    uses: &mut Vec<UsedFile>,
) -> io::Result<InFile<R::File>>
    ensures slot { IfOk result (λ f. f.slot ≡ slot) }
    ensures name { IfOk result (λ f. f.name ≡ name.now) }
    ensures takes { TakesForCall (Open slot name.now) (is_ok result) uses.old.items uses.new.items }
{
    uses.reserve(1)?;
    let kept = String::from_str(alloc, name)?;
    let opened = open_to_read(rt, name, uses)?;
    Ok(InFile::new(slot, kept, opened.file))
}

/// The file of a name, to be written, which stands as it was until bytes go out.
fn sink_of<R: Files>(rt: &R, name: &str, uses: &mut Vec<UsedFile>) -> io::Result<Sink<R::File>>
    ensures { TakesWhere ToWrite (is_ok result) uses.old.items uses.new.items }
{
    uses.reserve(1)?;
    let opened = open_to_write(rt, name, true, uses)?;
    let mut sink = Sink::new();
    sink.hold(opened.file, opened.regular);
    Ok(sink)
}

/// The file of a name, to be read.
fn source_of<R: Files>(rt: &R, name: &str, uses: &mut Vec<UsedFile>) -> io::Result<R::File>
    ensures { TakesWhere ToRead (is_ok result) uses.old.items uses.new.items }
{
    uses.reserve(1)?;
    let opened = open_to_read(rt, name, uses)?;
    Ok(opened.file)
}

/// The bytes of a file, at most `limit`.
fn load_file<R: Files>(
    rt: &R,
    alloc: Global,
    name: &str,
    limit: usize,
    uses: &mut Vec<UsedFile>,
) -> Result<Vec<u8>, ReadFault>
    ensures limit { IfOk result (λ bytes. length bytes.items ≤ limit) }
    ensures takes { TakesFile ToRead uses.old.items uses.new.items }
{
    if uses.reserve(1).is_err() {
        return Err(ReadFault::OutOfMemory);
    }
    match open_to_read(rt, name, uses) {
        Ok(mut opened) => read_all(&mut opened.file, alloc, limit),
        Err(reason) => Err(ReadFault::Failed(reason)),
    }
}

/// Writes what is kept for each file, in order, and puts the file aside in its place, up to a failure.
fn let_out<R: Files>(
    rt: &R,
    files: &mut [OutFile<R::File>],
    aside: &mut Option<Aside>,
    what: Kept,
) -> Result<(), Trouble>
    ensures slots { slots_of files.new ≡ slots_of files.old }
    ensures names { out_names files.new ≡ out_names files.old }
    ensures given { SameGiven files.old files.new }
    ensures none { is_ok result ≡ true → NoneKept files.new }
    ensures untouched { what ≡ Bytes → Untouched files.old files.new }
    ensures placed { what ≡ All → is_ok result ≡ true → aside.new ≡ None }
    ensures waits { what ≡ Bytes → Waits files.new aside.old aside.new }
    ensures stays { OnErr result (aside.new ≡ aside.old) }
{
    write_kept_of(files, what)?;
    put_in_place(rt, files, aside, what)
}

/// Says a piece, up to a failure: the bytes that are kept go out before it, and the file aside takes its place. After it files are emptied
/// that got no byte, and one aside that got none takes its place.
fn say_among<R: Files + Print>(
    rt: &R,
    files: &mut [OutFile<R::File>],
    aside: &mut Option<Aside>,
    piece: &[u8],
) -> Result<(), SayFault>
    ensures slots { slots_of files.new ≡ slots_of files.old }
    ensures names { out_names files.new ≡ out_names files.old }
    ensures given { SameGiven files.old files.new }
    ensures none { is_ok result ≡ true → NoneKept files.new }
    ensures untouched { IfErr result (λ fault. UntouchedWhere fault files.old files.new) }
    ensures placed { is_ok result ≡ true → aside.new ≡ None }
{
    if let Err(trouble) = let_out(rt, files, aside, Kept::Bytes) {
        return Err(SayFault::Unsaid(trouble));
    }
    if let Err(reason) = write_all(&mut io::writer(rt), piece) {
        let subject = Subject::Output;
        return Err(SayFault::Unsaid(Trouble { subject, reason }));
    }
    match let_out(rt, files, aside, Kept::All) {
        Ok(()) => Ok(()),
        Err(trouble) => Err(SayFault::Unemptied(trouble)),
    }
}

impl<R: Files + Standard + Print + Drop> Desk for OsDesk<R> {
    ghost means = { real };

    fn load(&mut self, alloc: Global, name: &str, limit: usize) -> Result<Vec<u8>, LoadFault> {
        match load_file(&self.rt, alloc, name, limit, &mut self.uses) {
            Ok(bytes) => Ok(bytes),
            Err(ReadFault::TooLong) => Err(LoadFault::TooLong),
            Err(ReadFault::OutOfMemory) => Err(LoadFault::OutOfMemory),
            Err(ReadFault::Failed(reason)) => {
                self.troubles.note_file(self.alloc, name, reason);
                Err(LoadFault::Failed)
            }
        }
    }

    fn create(&mut self, slot: u32, name: &str) -> Result<(), DeskFailed> {
        match self.open_for_writing(slot, name) {
            Ok(()) => Ok(()),
            Err(reason) => {
                self.troubles.note_file(self.alloc, name, reason);
                Err(DeskFailed)
            }
        }
    }

    fn append(&mut self, slot: u32, piece: &[u8]) -> Result<(), DeskFailed> {
        append_in(&mut self.files, slot, piece, &mut self.troubles)
    }

    fn open(&mut self, slot: u32, name: &str) -> Result<(), DeskFailed> {
        match self.open_for_reading(slot, name) {
            Ok(()) => Ok(()),
            Err(reason) => {
                self.troubles.note_file(self.alloc, name, reason);
                Err(DeskFailed)
            }
        }
    }

    fn read(&mut self, slot: u32, out: &mut [u8]) -> Result<usize, DeskFailed> {
        match in_file::read_in(&mut self.inputs, slot, out) {
            Ok(count) => Ok(count),
            Err(trouble) => {
                self.troubles.note(trouble);
                Err(DeskFailed)
            }
        }
    }

    // No line stands on standard output before the bytes that belong to it, and no file is emptied for a line that does not come.
    fn say(&mut self, piece: &[u8]) -> Result<(), DeskFailed> {
        let done = say_among(&self.rt, &mut self.files, &mut self.aside, piece).map_err(
            SayFault::into_trouble,
        );
        self.troubles.answer(done)
    }
}
