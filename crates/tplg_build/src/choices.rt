// The texts of an enum control.
ghost use Rattle.std.specs.Prelude.{◌≡◌, ◌≤◌, length};

use sof_base::{Items, Name44};
use std::marker::Model;

/// 1 to 16 texts between which an enum control chooses.
#[derive(Debug, Drop)]
pub struct Choices {
    texts: Items<Name44>,
}

impl Model for Choices {
    ghost use Rattle.std.specs.Prelude.{List, ℕ, length, ◌≤◌};

    ghost Value = { List (List ℕ) };

    ghost view = { λ a. a.texts };

    ghost invariant = { λ a. (1 ≤ length a.texts) × (length a.texts ≤ 16) };
}

impl Choices {
    /// These texts, 1 to 16.
    pub fn of(texts: Items<Name44>) -> Choices
        requires some { 1 ≤ length texts }
        requires most { length texts ≤ 16 }
        ensures { result ≡ texts }
    {
        Choices { texts }
    }

    pub fn items(&self) -> &[Name44]
        ensures value { result.now ≡ self.now }
        ensures few { (1 ≤ length self.now) × (length self.now ≤ 16) }
    {
        self.texts.items()
    }
}
