// A line of the transcript.
ghost use Rattle.std.specs.Prelude.{◌≡◌, ◌+◌, ◌*◌, ◌≤◌, ◌++◌, [], length, decimal};
ghost use Rattle.std.specs.Fmt.{signed_decimal};
ghost use Rattle.hex.specs.Hex.{encode_lower};

use arrayvec::ArrayVec;
use itoa::Buffer;
use std::marker::Model;

/// The bytes of a line, at most 2304.
#[derive(Drop)]
pub struct Line {
    bytes: ArrayVec<u8, 2304>,
}

impl Model for Line {
    ghost use Rattle.std.specs.Prelude.{List, ℕ};

    ghost Value = { List ℕ };

    ghost view = { λ l. l.bytes.items };
}

impl Line {
    /// The empty line.
    pub fn new() -> Line
        ensures { result ≡ [] }
    {
        Line {
            bytes: ArrayVec::new(),
        }
    }

    /// The bytes that were said.
    pub fn bytes(&self) -> &[u8]
        ensures { result.now ≡ self.now }
    {
        self.bytes.as_slice()
    }

    /// Drops the bytes.
    pub fn clear(&mut self)
        ensures cleared { self.new ≡ [] }
        ensures none { length self.new ≡ 0 }
    {
        self.bytes.clear();
    }

    /// Bytes after those of the line.
    pub fn say(&mut self, piece: &[u8])
        requires { length self.old + length piece.now ≤ 2304 }
        ensures said { self.new ≡ self.old ++ piece.now }
        ensures longer { length self.new ≡ length self.old + length piece.now }
    {
        extend(&mut self.bytes, piece);
    }

    /// A number in decimal digits after the bytes of the line.
    pub fn say_number(&mut self, number: u32)
        requires { length self.old + 10 ≤ 2304 }
        ensures said { self.new ≡ self.old ++ decimal number }
        ensures longer { length self.new ≤ length self.old + 10 }
    {
        let mut digits = Buffer::new();
        self.say(digits.format(number).as_bytes());
    }

    /// A signed number in decimal digits after the bytes of the line.
    pub fn say_signed(&mut self, number: i32)
        requires { length self.old + 11 ≤ 2304 }
        ensures said { self.new ≡ self.old ++ signed_decimal number }
        ensures longer { length self.new ≤ length self.old + 11 }
    {
        let mut digits = Buffer::new();
        self.say(digits.format(number).as_bytes());
    }

    /// At most 1024 bytes in hex, in lower case, after the bytes of the line.
    pub fn say_hex(&mut self, bytes: &[u8])
        requires few { length bytes.now ≤ 1024 }
        requires room { length self.old + 2 * length bytes.now ≤ 2304 }
        ensures said { self.new ≡ self.old ++ encode_lower bytes.now }
        ensures longer { length self.new ≡ length self.old + 2 * length bytes.now }
    {
        let mut digits = [0; 2048];
        let room = &mut digits[..2 * bytes.len()];
        match hex::encode_to_slice(bytes, room) {
            Ok(()) => self.say(room),
            Err(_) => unreachable!(),
        }
    }
}

// Bytes after those that are there.
fn extend(to: &mut ArrayVec<u8, 2304>, piece: &[u8])
    requires { length to.old.items + length piece.now ≤ 2304 }
    ensures { to.new.items ≡ to.old.items ++ piece.now }
{
    for byte in piece {
        to.push(*byte);
    }
}
