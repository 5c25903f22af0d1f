// Which files standard output and standard error are.
ghost use Rattle.std.specs.Prelude.{Option};
ghost use Rattle.sof_files.specs.declared.file_use.FileId.{FileId};
ghost use Rattle.sof_files.specs.declared.standard.Stream.{Stream};

use crate::file_use::{FileId, id_with_pipes};
use std::fs;
use std::rt::Files;

/// Where a program's lines go.
#[derive(Clone, Copy, Debug, PartialEq, Eq)]
pub enum Stream {
    Output,
    Error,
}

/// A system that tells which files a program's lines go to.
pub trait Standard {
    /// What it tells of a stream.
    ghost goes_to: { Self → Stream → Option FileId → Type 0 };

    /// The file or the pipe that a stream goes to; none for any other special file, and where the system does not tell.
    fn file_of(&self, stream: Stream) -> Option<FileId>
        ensures { goes_to self.now stream result };
}

/// Whether a name is that of the file that a stream goes to, and of no special file, as far as the system tells.
pub fn goes_to<R: Files + Standard>(rt: &R, stream: Stream, name: &str) -> bool {
    match fs::metadata(rt, name) {
        Ok(about) => about.is_file() && id_with_pipes(&about) == rt.file_of(stream),
        Err(_) => false,
    }
}

impl Standard for HostRuntime {
    ghost use Rattle.sof_files.specs.Streams.{untold};

    ghost goes_to = { λ _. untold };

    fn file_of(&self, stream: Stream) -> Option<FileId> {
        let name = match stream {
            Stream::Output => "/proc/self/fd/1",
            Stream::Error => "/proc/self/fd/2",
        };
        match fs::metadata(self, name) {
            Ok(about) => id_with_pipes(&about),
            Err(_) => None,
        }
    }
}

impl<R: Standard> Standard for &R {
    ghost goes_to = { λ r. R.goes_to r.now };

    fn file_of(&self, stream: Stream) -> Option<FileId> {
        (**self).file_of(stream)
    }
}
