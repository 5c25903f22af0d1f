// Opens files as they stand or aside, and takes each for its use.
ghost use Rattle.std.specs.Prelude.{◌≡◌, is_ok, IfOk, OnOk, OnErr};
ghost use Rattle.sof_desk.specs.declared.calls.FileUse.TheVariants.{ToRead, ToWrite};
ghost use Rattle.sof_files.specs.UsedFiles.{TakesFile, TakesWhere, IsTaken};

use crate::aside::{Aside, Made, aside_for_new, aside_for_open, remove};
use crate::file_use::{Opened, UsedFile, id_in, identified, take};
use sof_desk::FileUse;
use std::alloc::Global;
use std::fs::{OpenFile, OpenOptions};
use std::rt::Files;
use std::{fs, io};

/// How the file of a slot is written.
#[derive(Clone, Copy, Debug)]
pub struct Way {
    /// A pipe is kept apart from standard output and standard error.
    pub alone: bool,
    /// A regular file is written aside.
    pub aside: bool,
}

/// A file to be written, whether it is to be emptied before its first byte, and its names where it is one aside.
#[derive(Drop)]
pub struct Target<F: OpenFile + Drop> {
    pub file: F,
    pub stale: bool,
    pub aside: Option<Aside>,
}

// A file that was made aside.
fn target_aside<F: OpenFile + Drop>(made: Made<F>) -> Target<F> {
    Target {
        file: made.file,
        stale: true,
        aside: Some(made.aside),
    }
}

/// Opens a file to be written as it stands, made where there is none, and takes it, where it has no use yet. So it does with a pipe that is
/// to be alone.
pub fn open_to_write<R: Files>(
    rt: &R,
    name: &str,
    alone: bool,
    uses: &mut Vec<UsedFile>,
) -> io::Result<Opened<R::File>>
    ensures ok { IfOk result (λ opened. IsTaken ToWrite opened.id uses.old.items uses.new.items) }
    ensures err { OnErr result (uses.new.items ≡ uses.old.items) }
{
    let file = OpenOptions::new().write(true).create(true).open(rt, name)?;
    let opened = identified(file, alone)?;
    let id = opened.id;
    take(uses, id, FileUse::ToWrite)?;
    Ok(opened)
}

/// Opens a file to be read and takes it, unless this run writes it.
pub fn open_to_read<R: Files>(
    rt: &R,
    name: &str,
    uses: &mut Vec<UsedFile>,
) -> io::Result<Opened<R::File>>
    ensures ok { IfOk result (λ opened. IsTaken ToRead opened.id uses.old.items uses.new.items) }
    ensures err { OnErr result (uses.new.items ≡ uses.old.items) }
{
    let file = fs::open(rt, name)?;
    let opened = identified(file, false)?;
    let id = opened.id;
    take(uses, id, FileUse::ToRead)?;
    Ok(opened)
}

// Takes a file that was made aside for a name under which nothing stood: it is the file of this name once it is in its place.
fn take_made<F: OpenFile>(file: &F, uses: &mut Vec<UsedFile>) -> io::Result<()>
    ensures ok { OnOk result (TakesFile ToWrite uses.old.items uses.new.items) }
    ensures err { OnErr result (uses.new.items ≡ uses.old.items) }
{
    let id = id_in(&file.metadata()?);
    take(uses, id, FileUse::ToWrite)
}

// Takes a new file aside, or removes it where it cannot be taken.
fn new_target<R: Files>(
    rt: &R,
    made: Made<R::File>,
    uses: &mut Vec<UsedFile>,
) -> io::Result<Target<R::File>>
    ensures { TakesWhere ToWrite (is_ok result) uses.old.items uses.new.items }
{
    match take_made(&made.file, uses) {
        Ok(()) => Ok(target_aside(made)),
        Err(reason) => {
            remove(rt, &made.aside);
            Err(reason)
        }
    }
}

// Opens a file to be written as it stands, and writes it aside where that is the way and another one can take its place.
fn open_target<R: Files>(
    rt: &R,
    alloc: Global,
    slot: u32,
    name: &str,
    way: Way,
    uses: &mut Vec<UsedFile>,
) -> io::Result<Target<R::File>>
    ensures { TakesWhere ToWrite (is_ok result) uses.old.items uses.new.items }
{
    let opened = open_to_write(rt, name, way.alone, uses)?;
    if way.aside
        && let Some(made) = aside_for_open(rt, alloc, slot, name, &opened.file)
    {
        return Ok(target_aside(made));
    }
    Ok(Target {
        file: opened.file,
        stale: opened.regular,
        aside: None,
    })
}

/// The file of a name under a slot, to be written. One aside is made where nothing stands under the name, or a regular file of this one
/// name, owner and group, and its folder takes it. The file that stands there is the one that is taken then, and else the new one.
pub fn target_of<R: Files>(
    rt: &R,
    alloc: Global,
    slot: u32,
    name: &str,
    way: Way,
    uses: &mut Vec<UsedFile>,
) -> io::Result<Target<R::File>>
    ensures { TakesWhere ToWrite (is_ok result) uses.old.items uses.new.items }
{
    if way.aside
        && let Some(made) = aside_for_new(rt, alloc, slot, name)
    {
        return new_target(rt, made, uses);
    }
    open_target(rt, alloc, slot, name, way, uses)
}
