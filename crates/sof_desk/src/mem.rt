// A desk in memory, which tells all and fails by plan.
ghost use Rattle.std.specs.Prelude.{◌≡◌, ◌≤◌, ◌&&◌, min, length, take, is_some, Some, None, option_map, IfOk, OnOk, OnErr, MatchOption, if◌then◌else◌};
ghost use Rattle.std.specs.List.{position_or_len};
ghost use Rattle.std.specs.Option.{option_copied};
ghost use Rattle.sof_desk.specs.Counts.{one_more};
ghost use Rattle.sof_desk.specs.HeldFiles.{input_file, named, output_file};
ghost use Rattle.sof_desk.specs.OpenSlots.{can_open, with_opened, with_read};
ghost use Rattle.sof_desk.specs.Shelf.{empty_shelf, with_file, with_planned, with_most, file_bytes};
ghost use Rattle.sof_desk.specs.ShelfCalls.{shelf, planned_passes, shelf_holds, shelf_unread};

use crate::calls::{Desk, DeskFailed, LoadFault, SLOTS};
use crate::faults::Faults;
use crate::file::MemFile;
use crate::open_slot::OpenSlot;
use crate::plan::Planned;
use crate::store::Store;
use crate::{file, open_slot, plan};
use sof_base::NoMemory;
use std::alloc::Global;
use std::marker::Model;

/// A desk in memory. It holds files by name, keeps what is said, and fails the calls that it was made to fail. The calls
/// of the trait `Desk` are numbered from 1, in the order that they come.
#[derive(Drop)]
pub struct MemDesk {
    alloc: Global,
    files: Vec<MemFile>,
    opens: Vec<OpenSlot>,
    most: usize,
    said: Store,
    plans: Vec<Planned>,
    calls: u64,
    faults: Faults,
}

impl Model for MemDesk {
    ghost use Rattle.std.specs.Prelude.{◌≤◌, vec_len, vec_capacity};
    ghost use Rattle.sof_desk.specs.declared.calls.TheConstants.{SLOTS};
    ghost use Rattle.sof_desk.specs.Shelf.{Shelf};

    ghost Value = { Shelf };

    ghost view = { λ s. record {
      files = s.files.items;
      opens = s.opens.items;
      most = s.most;
      said = s.said;
      plans = s.plans.items;
      calls = s.calls;
      faults = s.faults;
    } };

    ghost invariant = { λ s. record {
      to_read : (vec_len s.opens ≤ SLOTS) × (SLOTS ≤ vec_capacity s.opens);
      reads : 1 ≤ s.most;
    } };
}

impl MemDesk {
    /// A desk with no file, room for `room` bytes to be said, and room for 130 open slots.
    pub fn new(alloc: Global, room: usize) -> Result<MemDesk, NoMemory>
        ensures { IfOk result (λ desk. desk ≡ empty_shelf room) }
    {
        Ok(MemDesk {
            alloc,
            files: Vec::new(alloc),
            opens: Vec::with_capacity(alloc, SLOTS)?,
            most: usize::MAX,
            said: Store::new(alloc, room)?,
            plans: Vec::new(alloc),
            calls: 0,
            faults: Faults::none(),
        })
    }

    /// Holds an empty file that a slot may be created for, with room for `room` bytes. It takes the place of what the
    /// desk held under this name; a slot that was created for it is no longer created.
    pub fn put_out(&mut self, name: &str, room: usize) -> Result<(), NoMemory>
        ensures ok { OnOk result (self.new ≡ with_file self.old (output_file name.now room)) }
        ensures err { OnErr result (self.new ≡ self.old) }
    {
        let file = MemFile::output(self.alloc, name, room)?;
        file::put_in(&mut self.files, name, file)
    }

    /// Holds a file of these bytes, to be loaded. It takes the place of what the desk held under this name.
    pub fn put_file(&mut self, name: &str, bytes: &[u8]) -> Result<(), NoMemory>
        ensures ok { OnOk result (self.new ≡ with_file self.old (input_file name.now bytes.now)) }
        ensures err { OnErr result (self.new ≡ self.old) }
    {
        let file = MemFile::input(self.alloc, name, bytes)?;
        file::put_in(&mut self.files, name, file)
    }

    /// Plans that the call of a number from 1 fails; an append or a say first takes the longest prefix of at most `passes`
    /// bytes that fits. It takes the place of an earlier plan for this number.
    pub fn fail_call(&mut self, number: u32, passes: u32) -> Result<(), NoMemory>
        ensures ok { OnOk result (self.new ≡ with_planned self.old number passes) }
        ensures err { OnErr result (self.new ≡ self.old) }
    {
        plan::put_in(&mut self.plans, Planned { number, passes })
    }

    /// From here on a read gives at most `n` bytes; before the first such call it gives as many as it has room for.
    pub fn read_at_most(&mut self, n: u32)
        requires { 1 ≤ n }
        ensures { self.new ≡ with_most self.old n }
    {
        self.most = n as usize;
    }

    /// The bytes that the desk holds under a name: those of a file that was put, or those that were appended to an output.
    /// None exactly where the desk holds no such name.
    pub fn file(&self, name: &str) -> Option<&[u8]>
        ensures { option_copied result ≡ file_bytes self.now name.now }
    {
        match file::file_of(&self.files, name) {
            Some(file) => Some(file.bytes()),
            None => None,
        }
    }

    /// The bytes that were said.
    pub fn said(&self) -> &[u8]
        ensures { result.now ≡ self.now.said.bytes }
    {
        self.said.bytes()
    }

    /// Counts a call, and tells how many bytes it passes where it is planned to fail.
    fn count_call(&mut self) -> Option<u32>
        ensures planned { result ≡ planned_passes self.old }
        ensures after { self.new ≡ record self.old { calls = one_more self.old.calls } }
    {
        self.calls = self.calls.saturating_add(1);
        plan::planned_at(&self.plans, self.calls)
    }

    /// Opens a slot at the file of a name, where it is one that is loaded and there is room for the slot, and tells whether it
    /// did.
    fn open_input(&mut self, slot: u32, name: &str) -> bool
        ensures done { result ≡ (is_some (shelf_holds self.old name.now) && can_open slot self.old.opens) }
        ensures after { self.new ≡ record self.old { opens = if result then with_opened slot (position_or_len (named name.now) self.old.files) self.old.opens else self.old.opens } }
    {
        match file::input_of(&self.files, name) {
            Some(place) => open_slot::open_in(&mut self.opens, slot, place),
            None => false,
        }
    }

    /// Gives the next bytes of an open slot, and tells how many.
    fn read_next(&mut self, slot: u32, out: &mut [u8]) -> Option<usize>
        ensures { MatchOption result
            ((shelf_unread self.old slot ≡ None) × (self.new ≡ self.old))
            (λ count. record {
              bound : count ≤ length out.new;
              gets : option_map (take (min (length out.old) self.old.most)) (shelf_unread self.old slot) ≡ Some (take count out.new);
              after : self.new ≡ record self.old { opens = with_read slot count self.old.opens };
            }) }
    {
        let at = open_slot::place_of(&self.opens, slot)?;
        let open = self.opens[at];
        let bytes = file::read_of(&self.files, open.place);
        let left = &bytes[open.position.min(bytes.len())..];
        let count = open_slot::copy_front(left, out, self.most);
        self.opens[at].position += count;
        Some(count)
    }
}

impl Desk for MemDesk {
    ghost means = { shelf };

    fn load(&mut self, alloc: Global, name: &str, limit: usize) -> Result<Vec<u8>, LoadFault> {
        let planned = self.count_call();
        let loaded = match planned {
            Some(_) => None,
            None => file::loaded_of(&self.files, name),
        };
        let Some(bytes) = loaded else {
            self.faults.count_one();
            return Err(LoadFault::Failed);
        };
        if bytes.len() > limit {
            return Err(LoadFault::TooLong);
        }
        match bytes.to_vec(alloc) {
            Ok(copy) => Ok(copy),
            Err(_) => Err(LoadFault::OutOfMemory),
        }
    }

    fn create(&mut self, slot: u32, name: &str) -> Result<(), DeskFailed> {
        let planned = self.count_call();
        let done = planned.is_none() && file::create_in(&mut self.files, slot, name);
        self.faults.answer(done)
    }

    fn append(&mut self, slot: u32, piece: &[u8]) -> Result<(), DeskFailed> {
        let planned = self.count_call();
        let done = file::append_in(&mut self.files, slot, piece, planned);
        self.faults.answer(done)
    }

    fn open(&mut self, slot: u32, name: &str) -> Result<(), DeskFailed> {
        let planned = self.count_call();
        let done = planned.is_none() && self.open_input(slot, name);
        self.faults.answer(done)
    }

    fn read(&mut self, slot: u32, out: &mut [u8]) -> Result<usize, DeskFailed> {
        let planned = self.count_call();
        let count = match planned {
            Some(_) => None,
            None => self.read_next(slot, out),
        };
        match count {
            Some(count) => Ok(count),
            None => {
                self.faults.count_one();
                Err(DeskFailed)
            }
        }
    }

    fn say(&mut self, piece: &[u8]) -> Result<(), DeskFailed> {
        let planned = self.count_call();
        let done = self.said.take(piece, planned);
        self.faults.answer(done)
    }
}
