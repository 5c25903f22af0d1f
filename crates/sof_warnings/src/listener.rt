// A desk that keeps how the commands of a script were answered.
ghost use Rattle.std.specs.Prelude.{◌≡◌};

use sof_desk::{Desk, DeskFailed, LoadFault};
use std::alloc::Global;
use std::marker::Model;

/// How a command was answered: it was carried out, it was refused for want of memory, or otherwise.
#[derive(Clone, Copy, Debug, PartialEq, Eq)]
pub enum Answered {
    Done,
    NoRoom,
    Otherwise,
}

// How a line answers a command, where it begins with the number of a line.
fn answer_of(line: &[u8]) -> Option<Answered> {
    let digits = line.iter().take_while(|byte| byte.is_ascii_digit()).count();
    let (number, answer) = line.split_at_checked(digits)?;
    if number.is_empty() {
        return None;
    }
    if answer == b" ok\n".as_slice() {
        Some(Answered::Done)
    } else if answer == b" refused -12\n".as_slice() {
        Some(Answered::NoRoom)
    } else {
        Some(Answered::Otherwise)
    }
}

/// A desk over another one, whose every call it is, that keeps how the commands of a script were answered where it is asked to. From where
/// there was no memory for an answer it keeps none.
#[derive(Drop)]
pub struct Listener<D: Desk + Drop> {
    desk: D,
    answers: Vec<Answered>,
    listens: bool,
}

impl<D: Desk + Drop> Model for Listener<D> {
    ghost Value = { D };

    ghost view = { λ l. l.desk };
}

impl<D: Desk + Drop> Listener<D> {
    pub fn new(alloc: Global, desk: D, listens: bool) -> Listener<D>
        ensures { result ≡ desk }
    {
        Listener {
            desk,
            answers: Vec::new(alloc),
            listens,
        }
    }

    /// The desk that it is over.
    pub fn desk(&self) -> &D
        ensures { result.now ≡ self.now }
    {
        &self.desk
    }

    /// The answers that it kept, in their order.
    pub fn answers(&self) -> &[Answered] {
        self.answers.as_slice()
    }

    // Keeps the answer of a line.
    fn keep(&mut self, line: &[u8])
        ensures { self.new ≡ self.old }
    {
        if !self.listens {
            return;
        }
        if let Some(answer) = answer_of(line) {
            self.listens = self.answers.push(answer).is_ok();
        }
    }
}

impl<D: Desk + Drop> Desk for Listener<D> {
    ghost means = { D.means };

    fn load(&mut self, alloc: Global, name: &str, limit: usize) -> Result<Vec<u8>, LoadFault> {
        self.desk.load(alloc, name, limit)
    }

    fn create(&mut self, slot: u32, name: &str) -> Result<(), DeskFailed> {
        self.desk.create(slot, name)
    }

    fn append(&mut self, slot: u32, piece: &[u8]) -> Result<(), DeskFailed> {
        self.desk.append(slot, piece)
    }

    fn say(&mut self, piece: &[u8]) -> Result<(), DeskFailed> {
        self.keep(piece);
        self.desk.say(piece)
    }

    fn open(&mut self, slot: u32, name: &str) -> Result<(), DeskFailed> {
        self.desk.open(slot, name)
    }

    fn read(&mut self, slot: u32, out: &mut [u8]) -> Result<usize, DeskFailed> {
        self.desk.read(slot, out)
    }
}
