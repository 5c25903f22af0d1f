// Why a call on real files or standard output failed.
ghost use Rattle.sof_files.specs.Troubles.{about_file};

use std::alloc::Global;
use std::{fmt, io};

/// What a call was about.
#[derive(Drop)]
pub enum Subject {
    /// The file of this name.
    File(String),
    /// A file without a name: memory for the name was missing, or the slot has no file.
    SomeFile,
    /// Standard output.
    Output,
}

/// What a call that failed was about, and the system's reason.
#[derive(Drop)]
pub struct Trouble {
    pub subject: Subject,
    pub reason: io::Error,
}

impl Trouble {
    /// A trouble with the file of a name.
    pub fn with_file(alloc: Global, name: &str, reason: io::Error) -> Trouble
        ensures { about_file name.now result.subject }
    {
        let subject = match String::from_str(alloc, name) {
            Ok(copy) => Subject::File(copy),
            Err(_) => Subject::SomeFile,
        };
        Trouble { subject, reason }
    }
}

/// Why a line was not said, or not all was done that comes after it.
#[derive(Drop)]
pub enum SayFault {
    /// The line did not come, or only a part of it.
    Unsaid(Trouble),
    /// It came, and then a file was not emptied.
    Unemptied(Trouble),
}

impl SayFault {
    pub fn into_trouble(self) -> Trouble {
        match self {
            SayFault::Unsaid(trouble) | SayFault::Unemptied(trouble) => trouble,
        }
    }
}

impl fmt::Display for Trouble {
    fn fmt<W: fmt::Write>(&self, f: &mut fmt::Formatter<W>) -> fmt::Result {
        let reason = &self.reason;
        match &self.subject {
            Subject::File(name) => write!(f, "{name}: {reason}"),
            Subject::SomeFile => write!(f, "a file: {reason}"),
            Subject::Output => write!(f, "standard output: {reason}"),
        }
    }
}
