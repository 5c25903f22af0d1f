// A file that is written aside, in the folder of the file whose place it takes at once.
ghost use Rattle.std.specs.Prelude.{◌≡◌, true, None, is_ok, OnErr};
ghost use Rattle.sof_files.specs.Asides.{Waits};
ghost use Rattle.sof_files.specs.declared.out_file.Kept.TheVariants.{Bytes, All};

use crate::out_file::{Kept, OutFile, has_bytes};
use crate::trouble::Trouble;
use std::alloc::Global;
use std::fs::{Metadata, OpenFile, OpenOptions, Permissions};
use std::io::ErrorKind;
use std::os::unix::fs::{MetadataExt, OpenOptionsExt, PermissionsExt};
use std::rt::Files;
use std::{fs, io};

/// How many names are tried.
const NAMES: u32 = 100;

/// The bits of a mode that say who may do what.
const PERMISSIONS: u32 = 0o7777;

/// The mode that a file is made with where there was none, of which the system takes its mask.
const NEW_MODE: u32 = 0o666;

/// A file that was made aside: its slot, its name till it is put in its place, and the name that it then has. A run that is killed,
/// or a loss of power, may leave it; no later run takes it for its own.
#[derive(Drop)]
pub struct Aside {
    slot: u32,
    name: String,
    place: String,
}

/// A file that is open for writing, and its names.
#[derive(Drop)]
pub struct Made<F: OpenFile + Drop> {
    pub file: F,
    pub aside: Aside,
}

// Makes a file of a name that its folder does not have yet; none where there was no memory or the folder takes no such file.
fn make_aside<R: Files>(
    rt: &R,
    alloc: Global,
    slot: u32,
    name: &str,
    mode: u32,
) -> Option<Made<R::File>> {
    let place = String::from_str(alloc, name).ok()?;
    for number in 0..NAMES {
        let name = format!(in alloc; "{place}.part{number}").ok()?;
        let mut how = OpenOptions::new();
        how.write(true).create_new(true).mode(mode);
        match how.open(rt, name.as_str()) {
            Ok(file) => {
                let aside = Aside { slot, name, place };
                return Some(Made { file, aside });
            }
            Err(reason) if reason.kind() == ErrorKind::AlreadyExists => {}
            Err(_) => return None,
        }
    }
    None
}

/// Makes a file aside for a name under which nothing stands; none where something does or no file can stand aside.
pub fn aside_for_new<R: Files>(
    rt: &R,
    alloc: Global,
    slot: u32,
    name: &str,
) -> Option<Made<R::File>> {
    match fs::symlink_metadata(rt, name) {
        Err(reason) if reason.kind() == ErrorKind::NotFound => {}
        _ => return None,
    }
    if name.is_empty() {
        return None;
    }
    make_aside(rt, alloc, slot, name, NEW_MODE)
}

// Whether an open file is a regular one that has this name alone, which is that of no link.
fn has_one_name(about: &Metadata, named: &Metadata) -> bool {
    about.is_file()
        && about.nlink() == 1
        && named.is_file()
        && named.dev() == about.dev()
        && named.ino() == about.ino()
}

// Gives a file aside the mode of the one whose place it takes, and tells whether it can take it: its owner, its group and its device are
// the same.
fn takes_after<F: OpenFile>(file: &F, about: &Metadata) -> io::Result<bool> {
    file.set_permissions(Permissions::from_mode(about.mode() & PERMISSIONS))?;
    let own = file.metadata()?;
    Ok(
        own.mode() == about.mode()
            && own.uid() == about.uid()
            && own.gid() == about.gid()
            && own.dev() == about.dev(),
    )
}

/// Makes a file aside for a name under which this file was opened; none where another one could not take its place, or no file can stand
/// aside.
pub fn aside_for_open<R: Files>(
    rt: &R,
    alloc: Global,
    slot: u32,
    name: &str,
    file: &R::File,
) -> Option<Made<R::File>> {
    let about = file.metadata().ok()?;
    let named = fs::symlink_metadata(rt, name).ok()?;
    if !has_one_name(&about, &named) {
        return None;
    }
    let made = make_aside(rt, alloc, slot, name, about.mode() & PERMISSIONS)?;
    match takes_after(&made.file, &about) {
        Ok(true) => Some(made),
        _ => {
            remove(rt, &made.aside);
            None
        }
    }
}

/// Removes a file aside; where that fails it stays, since nothing can be done about it.
pub fn remove<R: Files>(rt: &R, aside: &Aside) {
    let _ = fs::remove_file(rt, aside.name.as_str());
}

/// Keeps a new file aside, or that a slot has none any more. One that was kept before is removed.
pub fn keep_aside<R: Files>(rt: &R, kept: &mut Option<Aside>, slot: u32, new: Option<Aside>) {
    if let Some(old) = kept
        && (old.slot == slot || new.is_some())
    {
        remove(rt, old);
        *kept = None;
    }
    if new.is_some() {
        *kept = new;
    }
}

/// Puts the file aside in its place. Where only bytes are to be written, one that got none stays aside. It stays so too where its place
/// was not taken.
pub fn put_in_place<R: Files>(
    rt: &R,
    files: &[OutFile<R::File>],
    aside: &mut Option<Aside>,
    what: Kept,
) -> Result<(), Trouble>
    ensures placed { what ≡ All → is_ok result ≡ true → aside.new ≡ None }
    ensures waits { what ≡ Bytes → Waits files.now aside.old aside.new }
    ensures stays { OnErr result (aside.new ≡ aside.old) }
{
    let Some(file) = aside else {
        return Ok(());
    };
    if what == Kept::Bytes && !has_bytes(files, file.slot) {
        return Ok(());
    }
    match fs::rename(rt, file.name.as_str(), file.place.as_str()) {
        Ok(()) => {
            *aside = None;
            Ok(())
        }
        Err(reason) => Err(Trouble::with_file(
            *file.place.allocator(),
            file.place.as_str(),
            reason,
        )),
    }
}
