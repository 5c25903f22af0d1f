// Names and bytes as a terminal may show them.
use std::fmt;
use std::fmt::Display;

/// The most bytes of a token that are shown.
const MOST: usize = 80;

// A byte as it is where it is printable, else as `\xNN`.
fn show_byte<W: fmt::Write>(byte: u8, f: &mut fmt::Formatter<W>) -> fmt::Result {
    if b' ' <= byte && byte <= b'~' && byte != b'\\' {
        write!(f, "{}", byte as char)
    } else {
        write!(f, "\\x{byte:02x}")
    }
}

/// Bytes of a name or a token, at most 80 of them.
#[derive(Clone, Copy, Debug)]
pub struct Shown<'a>(pub &'a [u8]);

impl Display for Shown<'_> {
    fn fmt<W: fmt::Write>(&self, f: &mut fmt::Formatter<W>) -> fmt::Result {
        for byte in self.0.iter().take(MOST) {
            show_byte(*byte, f)?;
        }
        if self.0.len() > MOST {
            write!(f, "..")?;
        }
        Ok(())
    }
}

/// The same between single quotes.
#[derive(Clone, Copy, Debug)]
pub struct Quoted<'a>(pub &'a [u8]);

impl Display for Quoted<'_> {
    fn fmt<W: fmt::Write>(&self, f: &mut fmt::Formatter<W>) -> fmt::Result {
        write!(f, "'{}'", Shown(self.0))
    }
}

/// The name of a file: control characters as `\u{..}`.
#[derive(Clone, Copy, Debug)]
pub struct ShownName<'a>(pub &'a str);

impl Display for ShownName<'_> {
    fn fmt<W: fmt::Write>(&self, f: &mut fmt::Formatter<W>) -> fmt::Result {
        for c in self.0.chars() {
            if c.is_control() {
                write!(f, "\\u{{{:x}}}", c as u32)?;
            } else {
                write!(f, "{c}")?;
            }
        }
        Ok(())
    }
}
