// Whole transfers by readers and writers that may move fewer bytes than they are asked to.
ghost use Rattle.std.specs.Prelude.{◌≤◌, take, length, MatchResult, is_ok};
ghost use Rattle.std.specs.Io.Buffered.{writer_contents};
ghost use Rattle.std.specs.Io.KnownBytes.{Appends};
ghost use Rattle.sof_desk.specs.Desk.{Answers};
ghost use Rattle.sof_files.specs.Transfers.{Writes, load_fault};

use std::alloc::Global;
use std::io;
use std::io::{BufWriter, ErrorKind, Read, Write};

/// Why a reader's bytes were not all read.
#[derive(Drop)]
pub enum ReadFault {
    /// A read failed.
    Failed(io::Error),
    /// The reader gave more bytes than the limit.
    TooLong,
    /// Memory for the bytes was missing.
    OutOfMemory,
}

/// The most bytes that one read asks for.
const CHUNK: usize = 65536;

/// The bytes that a reader gives until its end, where they are at most `limit`.
///
/// Never is more than one byte beyond the limit asked of it.
pub fn read_all<R: Read>(from: &mut R, alloc: Global, limit: usize) -> Result<Vec<u8>, ReadFault>
    ensures { MatchResult result
        (λ bytes. Answers (R.remaining from.old) limit (Ok bytes.items) (Unit {0}))
        (λ fault. Answers (R.remaining from.old) limit (Err (load_fault fault)) (Unit {0})) }
{
    let mut bytes = Vec::new(alloc);
    let mut chunk = [0u8; CHUNK];
    loop {
        let left = limit - bytes.len();
        let part = &mut chunk[..left.saturating_add(1).min(CHUNK)];
        let count = match from.read(part) {
            Ok(count) => count,
            Err(reason) => return Err(ReadFault::Failed(reason)),
        };
        if count == 0 {
            return Ok(bytes);
        }
        if count > left {
            return Err(ReadFault::TooLong);
        }
        if bytes.extend_from_slice(&part[..count]).is_err() {
            return Err(ReadFault::OutOfMemory);
        }
    }
}

/// Writes a piece whole, or a prefix of it up to a failure. A write that takes nothing is one.
pub fn write_all<W: Write>(to: &mut W, piece: &[u8]) -> io::Result<()>
    ensures { Writes piece.now (is_ok result) (W.contents to.old) (W.contents to.new) }
{
    let mut rest = piece;
    while !rest.is_empty() {
        match to.write(rest) {
            Ok(0) => return Err(io::Error::from(ErrorKind::WriteZero)),
            Ok(count) => rest = &rest[count..],
            Err(reason) => return Err(reason),
        }
    }
    Ok(())
}

/// Gives a piece to a buffer that has room for more than it, and tells how many of its bytes were taken.
pub fn keep<W: Write + Drop>(to: &mut BufWriter<W>, piece: &[u8]) -> usize
    ensures bound { result ≤ length piece.now }
    ensures given { Appends (writer_contents W.contents to.old) (writer_contents W.contents to.new) (take result piece.now) }
{
    if piece.len() >= to.capacity().saturating_sub(to.buffer().len()) {
        return 0;
    }
    match to.write(piece) {
        Ok(taken) => taken,
        // All is as it was, and the next write tells why.
        Err(_) => 0,
    }
}

/// Writes a piece whole, or a prefix of it up to a failure. A piece that does not fit fills the buffer before its rest is written.
///
/// `BufWriter` alone writes its buffer before it is full, and the system takes whole blocks at less cost.
pub fn write_filling<W: Write + Drop>(to: &mut BufWriter<W>, piece: &[u8]) -> io::Result<()>
    ensures { Writes piece.now (is_ok result)
        (writer_contents W.contents to.old) (writer_contents W.contents to.new) }
{
    let mut rest = piece;
    let room = to.capacity().saturating_sub(to.buffer().len());
    if rest.len() > room {
        let (near, far) = rest.split_at(room);
        write_all(to, near)?;
        rest = far;
    }
    write_all(to, rest)
}
