// The words that lines begin with.
ghost use Rattle.std.specs.Prelude.{◌≡◌};
ghost use Rattle.sof_script.specs.Words.{word_named, word_listed, listed_words};

/// The first token of a line that is not skipped.
#[derive(Clone, Copy, Debug, PartialEq, Eq)]
pub enum Word {
    In,
    Out,
    Load,
    Unload,
    Suspend,
    Resume,
    Show,
    Open,
    Start,
    Stop,
    Pause,
    Release,
    Close,
    Get,
    Read,
    Params,
    Set,
    Bytes,
    Tick,
    Refuse,
    Drop,
    Lose,
    Lag,
}

// The words, each by its text.
const WORDS: [(&str, Word); 23] = [
    ("in", Word::In),
    ("out", Word::Out),
    ("load", Word::Load),
    ("unload", Word::Unload),
    ("suspend", Word::Suspend),
    ("resume", Word::Resume),
    ("show", Word::Show),
    ("open", Word::Open),
    ("start", Word::Start),
    ("stop", Word::Stop),
    ("pause", Word::Pause),
    ("release", Word::Release),
    ("close", Word::Close),
    ("get", Word::Get),
    ("read", Word::Read),
    ("params", Word::Params),
    ("set", Word::Set),
    ("bytes", Word::Bytes),
    ("tick", Word::Tick),
    ("refuse", Word::Refuse),
    ("drop", Word::Drop),
    ("lose", Word::Lose),
    ("lag", Word::Lag),
];

// The word that a token is, of these.
fn word_in(words: &[(&str, Word)], token: &[u8]) -> Option<Word>
    ensures { result ≡ word_listed token.now (listed_words words.now) }
{
    for (text, word) in words {
        if token == text.as_bytes() {
            return Some(*word);
        }
    }
    None
}

impl Word {
    /// The word that a token is; none where it is none of them.
    pub fn of(token: &[u8]) -> Option<Word>
        ensures { result ≡ word_named token.now }
    {
        word_in(&WORDS, token)
    }
}
