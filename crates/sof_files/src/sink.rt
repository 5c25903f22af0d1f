// A file to append to, which stands as it was until bytes are to go out.
ghost use Rattle.std.specs.Prelude.{◌≡◌, None};
ghost use Rattle.std.specs.Io.KnownBytes.{Keeps};
ghost use Rattle.sof_files.specs.OutFiles.{contents_in};

use std::fs::OpenFile;
use std::io;
use std::io::{ErrorKind, Write};

/// A file, once it is there, and whether it is still to be emptied, which comes before its first byte.
#[derive(Drop)]
pub struct Sink<F: Write + Drop> {
    file: Option<F>,
    stale: bool,
}

impl<F: Write + OpenFile + Drop> Sink<F> {
    /// No file yet.
    pub fn new() -> Sink<F>
        ensures { contents_in F.contents result.file ≡ None }
    {
        Sink {
            file: None,
            stale: false,
        }
    }

    /// Holds a file, which is emptied before its first byte where it is stale.
    pub fn hold(&mut self, file: F, stale: bool)
        ensures { contents_in F.contents self.new.file ≡ F.contents file }
    {
        self.file = Some(file);
        self.stale = stale;
    }

    /// Whether the file is still to be emptied.
    pub fn is_stale(&self) -> bool
        ensures { result ≡ self.now.stale }
    {
        self.stale
    }
}

impl<F: Write + OpenFile + Drop> Write for Sink<F> {
    ghost contents = { λ s. contents_in F.contents s.file };

    fn write(&mut self, bytes: &[u8]) -> io::Result<usize> {
        self.flush()?;
        match &mut self.file {
            Some(file) => file.write(bytes),
            None => Err(io::Error::from(ErrorKind::NotFound)),
        }
    }

    // Empties the file where that is still to be done; after it the file stands as this run writes it.
    fn flush(&mut self) -> io::Result<()> {
        if let Some(file) = &self.file
            && self.stale
        {
            file.set_len(0)?;
            self.stale = false;
        }
        Ok(())
    }
}
