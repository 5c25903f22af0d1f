// The files that a desk over real files appends to, and the bytes that it keeps for them.
ghost use Rattle.std.specs.Prelude.{◌≡◌, nat_eq, position, true, [], is_ok, IfOk};
ghost use Rattle.std.specs.Io.KnownBytes.{Keeps};
ghost use Rattle.sof_files.specs.OutFiles.{slots_of, out_names, given_at, SameBeside, SameGiven, NoneKept, Untouched};
ghost use Rattle.sof_files.specs.Asides.{has_bytes};
ghost use Rattle.sof_files.specs.declared.out_file.Kept.TheVariants.{Bytes};
ghost use Rattle.sof_files.specs.Transfers.{Writes};
ghost use Rattle.sof_files.specs.Troubles.{about_file, about_slot, Notes};

use crate::sink::Sink;
use crate::transfer::{keep, write_filling};
use crate::trouble::{Subject, Trouble};
use crate::troubles::Troubles;
use sof_desk::DeskFailed;
use std::alloc::Global;
use std::fs::OpenFile;
use std::io;
use std::io::{BufWriter, ErrorKind, Write};
use std::marker::Model;

/// The most bytes that are kept for a file.
const KEPT: usize = 262144;

/// What is written of what is kept.
#[derive(Clone, Copy, Debug, PartialEq, Eq)]
pub enum Kept {
    /// Bytes.
    Bytes,
    /// Bytes, and where there are none that a file is to be emptied.
    All,
}

/// A file that is open for writing, its slot and its name. Appended bytes are kept until there is no room for more or they are to be
/// written.
#[derive(Drop)]
pub struct OutFile<F: Write + OpenFile + Drop> {
    slot: u32,
    name: String,
    file: BufWriter<Sink<F>>,
}

impl<F: Write + OpenFile + Drop> Model for OutFile<F> {
    ghost use Rattle.std.specs.Prelude.{string_bytes};
    ghost use Rattle.std.specs.Io.Buffered.{writer_buffer, writer_contents, writer_inner};
    ghost use Rattle.sof_files.specs.OutFiles.{OutView, contents_in};

    ghost Value = { OutView };

    ghost view = { λ f. record {
      slot = f.slot;
      name = string_bytes f.name;
      given = writer_contents (λ s. contents_in F.contents s.file) f.file;
      kept = writer_buffer f.file;
      stale = (writer_inner f.file).stale;
    } };
}

impl<F: Write + OpenFile + Drop> OutFile<F> {
    /// All memory for a file of a name under a slot, before the file is touched; fails only where there was no memory.
    pub fn new(alloc: Global, slot: u32, name: &str) -> io::Result<OutFile<F>>
        ensures slot { IfOk result (λ f. f.slot ≡ slot) }
        ensures name { IfOk result (λ f. f.name ≡ name.now) }
        ensures kept { IfOk result (λ f. f.kept ≡ []) }
    {
        Ok(OutFile {
            slot,
            name: String::from_str(alloc, name)?,
            file: BufWriter::with_capacity(alloc, KEPT, Sink::new())?,
        })
    }

    /// Ties the slot to its file, which is emptied before bytes go out where it is stale.
    pub fn hold(&mut self, file: F, stale: bool)
        ensures slot { self.new.slot ≡ self.old.slot }
        ensures name { self.new.name ≡ self.old.name }
        ensures given { self.old.kept ≡ [] → Keeps (F.contents file) self.new.given }
        ensures kept { self.new.kept ≡ self.old.kept }
    {
        self.file.get_mut().hold(file, stale);
    }

    /// Takes a piece whole, or a prefix of it up to a failure, which is noted.
    pub fn append(&mut self, piece: &[u8], troubles: &mut Troubles) -> Result<(), DeskFailed>
        ensures slot { self.new.slot ≡ self.old.slot }
        ensures name { self.new.name ≡ self.old.name }
        ensures given { Writes piece.now (is_ok result) self.old.given self.new.given }
        ensures notes { Notes (about_file self.old.name) (is_ok result) troubles.old troubles.new }
    {
        // Most pieces fit, and pass without a word of why they may not.
        let kept = keep(&mut self.file, piece);
        if kept == piece.len() {
            return Ok(());
        }
        self.append_rest(&piece[kept..], troubles)
    }

    // The same for what does not fit.
    #[inline(never)]
    fn append_rest(&mut self, piece: &[u8], troubles: &mut Troubles) -> Result<(), DeskFailed>
        ensures slot { self.new.slot ≡ self.old.slot }
        ensures name { self.new.name ≡ self.old.name }
        ensures given { Writes piece.now (is_ok result) self.old.given self.new.given }
        ensures notes { Notes (about_file self.old.name) (is_ok result) troubles.old troubles.new }
    {
        match write_filling(&mut self.file, piece) {
            Ok(()) => Ok(()),
            Err(reason) => {
                troubles.note(self.trouble(reason));
                Err(DeskFailed)
            }
        }
    }

    /// Writes what is kept, or up to a failure; what was not written stays kept. Where nothing is kept, a stale file is emptied or not.
    pub fn write_kept(&mut self, what: Kept) -> Result<(), Trouble>
        ensures slot { self.new.slot ≡ self.old.slot }
        ensures name { self.new.name ≡ self.old.name }
        ensures given { Keeps self.old.given self.new.given }
        ensures none { is_ok result ≡ true → self.new.kept ≡ [] }
        ensures untouched { what ≡ Bytes → self.old.kept ≡ [] → self.new ≡ self.old }
    {
        if what == Kept::Bytes && self.file.buffer().is_empty() {
            return Ok(());
        }
        match self.file.flush() {
            Ok(()) => Ok(()),
            Err(reason) => Err(self.trouble(reason)),
        }
    }

    fn trouble(&self, reason: io::Error) -> Trouble
        ensures { about_file self.now.name result.subject }
    {
        Trouble::with_file(*self.name.allocator(), self.name.as_str(), reason)
    }
}

/// Whether bytes of the file that is open under a slot are written, or it is emptied, where it is a regular one.
pub fn has_bytes<F: Write + OpenFile + Drop>(files: &[OutFile<F>], slot: u32) -> bool
    ensures { result ≡ has_bytes slot files.now }
{
    files.iter().any(|opened| opened.slot == slot && !opened.file.get_ref().is_stale())
}

/// The place of the file that is open under a slot.
pub fn place_of<F: Write + OpenFile + Drop>(files: &[OutFile<F>], slot: u32) -> Option<usize>
    ensures { result ≡ position (λ f. nat_eq f.slot slot) files.now }
{
    files.iter().position(|opened| opened.slot == slot)
}

/// Gives a piece to the file that is open under a slot; fails where there is none or it did not take all of the piece, and notes
/// that.
pub fn append_in<F: Write + OpenFile + Drop>(
    files: &mut [OutFile<F>],
    slot: u32,
    piece: &[u8],
    troubles: &mut Troubles,
) -> Result<(), DeskFailed>
    ensures slots { slots_of files.new ≡ slots_of files.old }
    ensures given { Writes piece.now (is_ok result) (given_at slot files.old) (given_at slot files.new) }
    ensures others { SameBeside slot files.old files.new }
    ensures names { out_names files.new ≡ out_names files.old }
    ensures notes { Notes (about_slot slot (out_names files.old)) (is_ok result) troubles.old troubles.new }
{
    match place_of(files, slot) {
        Some(place) => files[place].append(piece, troubles),
        None => {
            troubles.note(Trouble {
                subject: Subject::SomeFile,
                reason: io::Error::from(ErrorKind::NotFound),
            });
            Err(DeskFailed)
        }
    }
}

/// Writes what is kept for each file, in order, up to a failure.
pub fn write_kept_of<F: Write + OpenFile + Drop>(
    files: &mut [OutFile<F>],
    what: Kept,
) -> Result<(), Trouble>
    ensures slots { slots_of files.new ≡ slots_of files.old }
    ensures names { out_names files.new ≡ out_names files.old }
    ensures given { SameGiven files.old files.new }
    ensures none { is_ok result ≡ true → NoneKept files.new }
    ensures untouched { what ≡ Bytes → Untouched files.old files.new }
{
    let mut done = 0;
    while done < files.len() {
        files[done].write_kept(what)?;
        done += 1;
    }
    Ok(())
}
