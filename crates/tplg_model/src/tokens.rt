// The vendor arrays of a widget's private data.
ghost use Rattle.std.specs.Prelude.{◌≡◌, ◌≤◌, ◌<◌, ◌+◌, ◌*◌, ◌^◌, length};
ghost use Rattle.tplg_model.specs.Numbers.{AreNumbers};

use sof_base::Items;
use std::marker::Model;

/// A token with 16 bytes.
#[derive(Clone, Copy, Debug, PartialEq, Eq)]
pub struct UuidTuple {
    pub token: u32,
    pub bytes: [u8; 16],
}

/// A token with a text: the bytes before its first 0, or all 44.
#[derive(Clone, Copy, Debug, PartialEq, Eq)]
pub struct TextTuple {
    pub token: u32,
    pub bytes: [u8; 44],
}

/// A token with a number.
#[derive(Clone, Copy, Debug, PartialEq, Eq)]
pub struct NumberTuple {
    pub token: u32,
    pub value: u32,
}

/// A vendor array of UUIDs, type 0. Its bytes, 12 and 20 for each element, are fewer than 2^32.
#[derive(Debug, Drop)]
pub struct UuidArray {
    list: Items<UuidTuple>,
}

impl Model for UuidArray {
    ghost use Rattle.std.specs.Prelude.{List, length, ◌+◌, ◌*◌, ◌<◌, ◌^◌};
    ghost use Rattle.tplg_model.specs.declared.tokens.UuidTuple.{UuidTuple};

    ghost Value = { List UuidTuple };

    ghost view = { λ a. a.list };

    ghost invariant = { λ a. 12 + length a.list * 20 < 2 ^ 32 };
}

impl UuidArray {
    /// The array of these elements, whose bytes are fewer than 2^32.
    pub fn of(list: Items<UuidTuple>) -> UuidArray
        requires { 12 + length list * 20 < 2 ^ 32 }
        ensures { result ≡ list }
    {
        UuidArray { list }
    }

    pub fn items(&self) -> &[UuidTuple]
        ensures value { result.now ≡ self.now }
        ensures size { 12 + length self.now * 20 < 2 ^ 32 }
    {
        self.list.items()
    }
}

/// A vendor array of texts, type 1. Its bytes, 12 and 48 for each element, are fewer than 2^32.
#[derive(Debug, Drop)]
pub struct TextArray {
    list: Items<TextTuple>,
}

impl Model for TextArray {
    ghost use Rattle.std.specs.Prelude.{List, length, ◌+◌, ◌*◌, ◌<◌, ◌^◌};
    ghost use Rattle.tplg_model.specs.declared.tokens.TextTuple.{TextTuple};

    ghost Value = { List TextTuple };

    ghost view = { λ a. a.list };

    ghost invariant = { λ a. 12 + length a.list * 48 < 2 ^ 32 };
}

impl TextArray {
    /// The array of these elements, whose bytes are fewer than 2^32.
    pub fn of(list: Items<TextTuple>) -> TextArray
        requires { 12 + length list * 48 < 2 ^ 32 }
        ensures { result ≡ list }
    {
        TextArray { list }
    }

    pub fn items(&self) -> &[TextTuple]
        ensures value { result.now ≡ self.now }
        ensures size { 12 + length self.now * 48 < 2 ^ 32 }
    {
        self.list.items()
    }
}

/// A vendor array of numbers of one type: 2 (bool), 3 (byte), 4 (word) or 5 (short). Its bytes, 12 and 8 for each element,
/// are fewer than 2^32.
#[derive(Debug, Drop)]
pub struct NumberArray {
    number_type: u32,
    list: Items<NumberTuple>,
}

impl Model for NumberArray {
    ghost use Rattle.tplg_model.specs.Numbers.{Numbers, AreNumbers};

    ghost Value = { Numbers };

    ghost view = { λ a. record { kind = a.number_type; items = a.list } };

    ghost invariant = { λ a. AreNumbers (record { kind = a.number_type; items = a.list }) };
}

impl NumberArray {
    /// The array of a type from 2 to 5 with these elements, whose bytes are fewer than 2^32.
    pub fn of(kind: u32, list: Items<NumberTuple>) -> NumberArray
        requires from { 2 ≤ kind }
        requires to { kind ≤ 5 }
        requires size { 12 + length list * 8 < 2 ^ 32 }
        ensures { result ≡ record { kind = kind; items = list } }
    {
        NumberArray {
            number_type: kind,
            list,
        }
    }

    /// Its type, from 2 to 5.
    pub fn kind(&self) -> u32
        ensures value { result ≡ self.now.kind }
        ensures sound { AreNumbers self.now }
    {
        self.number_type
    }

    pub fn items(&self) -> &[NumberTuple]
        ensures value { result.now ≡ self.now.items }
        ensures sound { AreNumbers self.now }
    {
        self.list.items()
    }
}

/// A vendor array by its type.
#[derive(Debug, Drop)]
pub enum TokenArray {
    Uuid(UuidArray),
    Text(TextArray),
    Number(NumberArray),
}
