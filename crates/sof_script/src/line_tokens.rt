// The tokens of a line, side by side.
ghost use Rattle.std.specs.Prelude.{◌≡◌, ◌∷◌, ◌++◌, List, ℕ, [], take, MatchOption, None, Some};
ghost use Rattle.sof_script.specs.Splitting.{tokens_of};
ghost use Rattle.sof_script.specs.TokenStarts.{texts};

use crate::scanning::{next_token, skip_blanks};
use std::marker::Model;

/// The tokens of a line, or the first eleven of them: no line has more than ten. Contracts see their bytes.
#[derive(Drop)]
pub struct Tokens<'a> {
    found: [&'a [u8]; 11],
    count: usize,
}

impl<'a> Model for Tokens<'a> {
    ghost use Rattle.std.specs.Prelude.{List, ℕ, ◌≤◌, take};
    ghost use Rattle.sof_script.specs.TokenStarts.{texts};

    ghost Value = { List (List ℕ) };

    ghost view = { λ t. texts (take t.count t.found) };

    ghost invariant = { λ t. t.count ≤ 11 };
}

impl<'a> Tokens<'a> {
    // No tokens.
    fn none() -> Tokens<'a>
        ensures { result ≡ [] }
    {
        Tokens {
            found: [b""; 11],
            count: 0,
        }
    }

    // One more, where there is room.
    fn keep(&mut self, token: &'a [u8])
        ensures { self.new ≡ take 11 (self.old ++ token.now ∷ []) }
    {
        if self.count < 11 {
            self.found[self.count] = token;
            self.count += 1;
        }
    }

    /// The tokens of a line; none where a quote is not closed, or no separator follows it.
    pub fn of(line: &'a [u8]) -> Option<Tokens<'a>>
        ensures { MatchOption result
            (tokens_of line.now ≡ None)
            (λ tokens. (all : List (List ℕ)) × (tokens_of line.now ≡ Some all) × (tokens ≡ take 11 all)) }
    {
        let mut tokens = Tokens::none();
        let mut rest = skip_blanks(line);
        while !rest.is_empty() {
            let Some((token, behind)) = next_token(rest) else {
                return None;
            };
            tokens.keep(token);
            rest = skip_blanks(behind);
        }
        Some(tokens)
    }

    pub fn all(&self) -> &[&'a [u8]]
        ensures { texts result.now ≡ self.now }
    {
        &self.found[..self.count]
    }
}
