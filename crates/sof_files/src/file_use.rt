// How a run uses the files of a desk over real files.
ghost use Rattle.std.specs.Prelude.{◌≡◌, ◌↔◌, ◌<◌, ◌++◌, vec_len, vec_capacity, is_ok, is_some, true, IsOk, IsTrue, OnOk, OnErr};
ghost use Rattle.std.specs.Fs.{file_type, IsFile};
ghost use Rattle.sof_desk.specs.FileUses.{may_use};
ghost use Rattle.sof_files.specs.UsedFiles.{is_same_file, use_in, told_to, MayTake, IsTaken};

use sof_base::NoMemory;
use sof_desk::FileUse;
use std::fs::{Metadata, OpenFile};
use std::io;
use std::os::unix::fs::{FileTypeExt, MetadataExt};

/// Which file of the system: its device, and its number there.
#[derive(Clone, Copy, Debug, PartialEq, Eq)]
pub struct FileId {
    pub device: u64,
    pub number: u64,
}

/// A file, and how a run uses it.
#[derive(Clone, Copy, Debug)]
pub struct UsedFile {
    pub file: FileId,
    pub usage: FileUse,
}

impl UsedFile {
    fn is_same(&self, file: FileId) -> bool
        ensures { result ≡ is_same_file file self.now }
    {
        self.file.device == file.device && self.file.number == file.number
    }
}

// The device and the number in metadata.
fn id_at(about: &Metadata) -> FileId {
    FileId {
        device: about.dev(),
        number: about.ino(),
    }
}

/// Which file has this metadata; none for a special file, as a terminal or a pipe, which several calls may share.
pub fn id_in(about: &Metadata) -> Option<FileId>
    ensures { IsTrue (is_some result) ↔ IsFile (file_type about.now) }
{
    if !about.is_file() {
        return None;
    }
    Some(id_at(about))
}

/// Which file or pipe has this metadata; none for any other special file.
pub fn id_with_pipes(about: &Metadata) -> Option<FileId>
    ensures { IsFile (file_type about.now) → IsTrue (is_some result) }
{
    if about.file_type().is_fifo() {
        return Some(id_at(about));
    }
    id_in(about)
}

/// A file that was opened, which file it is, and whether it can be emptied: special files cannot.
#[derive(Drop)]
pub struct Opened<F: OpenFile + Drop> {
    pub file: F,
    pub id: Option<FileId>,
    pub regular: bool,
}

/// Which file an open file is, by its metadata; a pipe is one where these count too.
pub fn identified<F: OpenFile + Drop>(file: F, with_pipes: bool) -> io::Result<Opened<F>> {
    let about = file.metadata()?;
    let id = if with_pipes {
        id_with_pipes(&about)
    } else {
        id_in(&about)
    };
    Ok(Opened {
        file,
        id,
        regular: about.is_file(),
    })
}

/// How a file is used.
pub fn use_in(files: &[UsedFile], file: FileId) -> Option<FileUse>
    ensures { result ≡ use_in files.now file }
{
    let used = files.iter().find(|used| used.is_same(file))?;
    Some(used.usage)
}

/// Whether a file may be taken for a use, by the use that it has.
fn may_use(usage: FileUse, had: Option<FileUse>) -> bool
    ensures { result ≡ may_use usage had }
{
    match (usage, had) {
        (_, None) | (FileUse::ToRead, Some(FileUse::ToRead)) => true,
        (FileUse::ToRead, Some(FileUse::ToWrite | FileUse::ToTell)) => false,
        (FileUse::ToWrite | FileUse::ToTell, Some(_)) => false,
    }
}

// Why a file that has a use is not taken for another.
fn refusal(had: Option<FileUse>) -> io::Error {
    match had {
        Some(FileUse::ToWrite) => io::Error::other("is written by this run too"),
        Some(FileUse::ToTell) => io::Error::other("is standard output or error too"),
        Some(FileUse::ToRead) | None => io::Error::other("is read by this run too"),
    }
}

/// Notes a file to which lines are told, where it is one that can be taken.
pub fn tell_to(files: &mut Vec<UsedFile>, file: Option<FileId>) -> Result<(), NoMemory>
    ensures { OnOk result (files.new.items ≡ files.old.items ++ told_to file) }
{
    if let Some(file) = file {
        files.push(UsedFile {
            file,
            usage: FileUse::ToTell,
        })?;
    }
    Ok(())
}

/// Takes a file for a use, where its use allows that; fails otherwise, and where there was no memory.
pub fn take(files: &mut Vec<UsedFile>, file: Option<FileId>, usage: FileUse) -> io::Result<()>
    ensures ok { OnOk result (IsTaken usage file files.old.items files.new.items) }
    ensures succeeds { MayTake usage file files.old.items → vec_len files.old < vec_capacity files.old → IsOk result }
    ensures err { OnErr result (files.new.items ≡ files.old.items) }
{
    let Some(file) = file else {
        return Ok(());
    };
    let had = use_in(files, file);
    if !may_use(usage, had) {
        return Err(refusal(had));
    }
    if had.is_none() {
        files.push(UsedFile { file, usage })?;
    }
    Ok(())
}
