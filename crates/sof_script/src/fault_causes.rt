// What can be wrong with a line. Where several causes hold, the one with the least number is reported.
ghost use Rattle.std.specs.Prelude.{◌≡◌, ◌≤◌, length};
ghost use Rattle.sof_script.specs.Causes.{cause_number, cause_words};

/// What is wrong with a line, and its number.
#[derive(Clone, Copy, Debug, PartialEq, Eq)]
pub enum Cause {
    /// A byte outside 0x20 to 0x7E and tab.
    Byte = 1,
    /// A quote that is not closed, or another byte than a separator after it.
    Quote = 2,
    /// The first token is no word.
    Word = 3,
    /// Too few or too many tokens for the word.
    Count = 4,
    /// A token is no number, is outside its range, or is no format.
    Number = 5,
    /// A token is no hex of at most 1024 bytes.
    Hex = 6,
    /// A name of 0 or more than 43 bytes, or a file of 0 or more than 255.
    Name = 7,
}

impl Cause {
    /// Its number, as a script's fault tells it.
    pub fn number(self) -> u8
        ensures { result ≡ cause_number self }
    {
        self as u8
    }
}

/// The word of a cause, as it stands after the number of its line.
pub fn cause_word(cause: u8) -> &'static str
    ensures word { result.now ≡ cause_words cause }
    ensures short { length result.now ≤ 6 }
{
    match cause {
        1 => "byte",
        2 => "quote",
        3 => "word",
        4 => "count",
        5 => "number",
        6 => "hex",
        _ => "name",
    }
}
