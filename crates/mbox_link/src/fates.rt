// What becomes of messages, by their numbers.
ghost use Rattle.std.specs.Prelude.{◌≡◌, ◌≤◌, [], length, is_ok, OnOk, OnErr};
ghost use Rattle.mbox_link.specs.Meetings.{
  planned,
  without_entry,
  with_meeting,
  with_fate,
  with_lag,
  has_room,
  has_lag_room,
  lags,
};
ghost use Rattle.mbox_link.specs.Fates.{IsMeant, AreHeld};

use arrayvec::ArrayVec;
use std::marker::Model;

/// What becomes of a message: it passes; it is not delivered and answered with this negative error; it is not delivered and
/// the link fails; or it is delivered, and the link fails before its reply.
#[derive(Clone, Copy, Debug, PartialEq, Eq)]
pub enum Fate {
    Pass,
    Refuse(i32),
    Drop,
    Lose,
}

/// What one message meets, by its number from 1 over the whole run: the ticks that come before it, and its fate.
/// The field's term: a scheduled fault.
#[derive(Clone, Copy, Debug, PartialEq, Eq)]
pub struct Entry {
    pub number: u64,
    pub fate: Fate,
    pub lag: u32,
}

impl Default for Entry {
    fn default() -> Entry {
        Entry {
            number: 0,
            fate: Fate::Pass,
            lag: 0,
        }
    }
}

/// 64 entries are held already, and this message has none among them; or the lags would be more than 16 ticks.
#[derive(Clone, Copy, Debug, PartialEq, Eq)]
pub struct PlanFull;

/// The planned fates and lags of messages that have not come: at most 64 entries, one for each message, and at most 16 ticks.
/// A planned refusal has a negative error.
#[derive(Drop)]
pub struct Fates {
    entries: ArrayVec<Entry, 64>,
}

impl Model for Fates {
    ghost use Rattle.std.specs.Prelude.{List};
    ghost use Rattle.mbox_link.specs.declared.fates.Entry.{Entry};

    ghost Value = { List Entry };

    ghost use Rattle.mbox_link.specs.Fates.{AreHeld};

    ghost view = { λ p. p.entries.items };

    ghost invariant = { λ p. AreHeld p.entries.items };
}

impl Fates {
    /// Every message passes at once.
    pub fn new() -> Fates
        ensures { result ≡ [] }
    {
        Fates {
            entries: ArrayVec::new(),
        }
    }

    /// How many entries are held.
    pub fn len(&self) -> u32
        ensures { result ≡ length self.now }
    {
        self.entries.len() as u32
    }

    /// Gives the message of this number a fate, in place of one that it had, and leaves its lag; `PlanFull` where 64 entries
    /// of others are held, and then nothing changes.
    pub fn put(&mut self, number: u64, fate: Fate) -> Result<(), PlanFull>
        requires meant { IsMeant fate }
        ensures room { is_ok result ≡ has_room number self.old }
        ensures ok { OnOk result (self.new ≡ with_fate number fate self.old) }
        ensures full { OnErr result (self.new ≡ self.old) }
    {
        let lag = entry_of(self.entries.as_slice(), number).lag;
        self.replace(Entry { number, fate, lag })
    }

    /// Lets so many ticks come before the message of this number, in place of those that it had, and leaves its fate;
    /// `PlanFull` where 64 entries of others are held, or the lags of others and this one are more than 16 ticks, and then
    /// nothing changes.
    pub fn put_lag(&mut self, number: u64, ticks: u32) -> Result<(), PlanFull>
        requires few { ticks ≤ 16 }
        ensures room { is_ok result ≡ has_lag_room number ticks self.old }
        ensures ok { OnOk result (self.new ≡ with_lag number ticks self.old) }
        ensures full { OnErr result (self.new ≡ self.old) }
    {
        let fate = entry_of(self.entries.as_slice(), number).fate;
        self.replace(Entry {
            number,
            fate,
            lag: ticks,
        })
    }

    /// What was planned for the message of this number, which is not held any more.
    pub fn take(&mut self, number: u64) -> Entry
        ensures fate { result.fate ≡ (planned self.old number).fate }
        ensures lag { result.lag ≡ (planned self.old number).lag }
        ensures meant { IsMeant result.fate }
        ensures left { self.new ≡ without_entry number self.old }
        ensures held { AreHeld self.old }
    {
        let entry = entry_of(self.entries.as_slice(), number);
        self.entries = others(self.entries.as_slice(), number);
        entry
    }

    // This entry in place of one of its message.
    fn replace(&mut self, entry: Entry) -> Result<(), PlanFull>
        requires meant { IsMeant entry.fate }
        requires few { entry.lag ≤ 16 }
        ensures room { is_ok result ≡ has_lag_room entry.number entry.lag self.old }
        ensures ok { OnOk result (self.new ≡ with_meeting entry.number (record { lag = entry.lag; fate = entry.fate }) self.old) }
        ensures full { OnErr result (self.new ≡ self.old) }
    {
        let mut entries = others(self.entries.as_slice(), entry.number);
        if entries.is_full() {
            return Err(PlanFull);
        }
        let ticks = sum_of_lags(entries.as_slice());
        if ticks + entry.lag > 16 {
            return Err(PlanFull);
        }
        entries.push(entry);
        self.entries = entries;
        Ok(())
    }
}

// What is planned for a message.
fn entry_of(entries: &[Entry], number: u64) -> Entry
    requires { AreHeld entries.now }
    ensures fate { result.fate ≡ (planned entries.now number).fate }
    ensures lag { result.lag ≡ (planned entries.now number).lag }
    ensures meant { IsMeant result.fate }
{
    for entry in entries {
        if entry.number == number {
            return *entry;
        }
    }
    Entry {
        number,
        fate: Fate::Pass,
        lag: 0,
    }
}

// The entries of other messages.
fn others(entries: &[Entry], number: u64) -> ArrayVec<Entry, 64>
    requires few { length entries.now ≤ 64 }
    requires held { AreHeld entries.now }
    ensures left { result.items ≡ without_entry number entries.now }
    ensures left_held { AreHeld result.items }
{
    let mut left = ArrayVec::new();
    for entry in entries {
        if entry.number != number {
            left.push(*entry);
        }
    }
    left
}

// The ticks of all lags.
fn sum_of_lags(entries: &[Entry]) -> u32
    requires { lags entries.now ≤ 16 }
    ensures is { result ≡ lags entries.now }
    ensures few { result ≤ 16 }
{
    let mut ticks = 0;
    for entry in entries {
        ticks += entry.lag;
    }
    ticks
}
