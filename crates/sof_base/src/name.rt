ghost use Rattle.std.specs.Prelude.{◌≡◌, length, Some, None, if◌then◌else◌};
ghost use Rattle.sof_base.specs.Slots.{IsName, has_zero, until_zero, is_name};

use arrayvec::ArrayVec;
use std::marker::Model;

/// A name: at most 43 bytes, none of them 0.
#[derive(Debug, Drop)]
pub struct Name44 {
    bytes: ArrayVec<u8, 43>,
}

impl Model for Name44 {
    ghost use Rattle.std.specs.Prelude.{List, ℕ};
    ghost use Rattle.sof_base.specs.Slots.{IsName};

    ghost Value = { List ℕ };

    ghost view = { λ a. a.bytes.items };

    ghost invariant = { λ a. IsName a.bytes.items };
}

impl Name44 {
    /// The name of these bytes; none where there are more than 43 of them or one is 0.
    pub fn new(bytes: &[u8]) -> Option<Name44>
        ensures { result ≡ (if is_name bytes.now then Some bytes.now else None) }
    {
        let mut name = ArrayVec::new();
        for b in bytes {
            if *b == 0 {
                return None;
            }
            if name.is_full() {
                return None;
            }
            name.push(*b);
        }
        Some(Name44 { bytes: name })
    }

    /// The bytes before the first 0 of a field of 44 bytes; none where the field has no 0.
    pub fn before_zero(field: &[u8]) -> Option<Name44>
        requires { length field.now ≡ 44 }
        ensures { result ≡ (if has_zero field.now then Some (until_zero field.now) else None) }
    {
        let mut bytes = ArrayVec::new();
        for b in field {
            if *b == 0 {
                return Some(Name44 { bytes });
            }
            if bytes.is_full() {
                return None;
            }
            bytes.push(*b);
        }
        None
    }

    pub fn as_bytes(&self) -> &[u8]
        ensures value { result.now ≡ self.now }
        ensures is_name { IsName self.now }
    {
        self.bytes.as_slice()
    }

    /// The same name again.
    pub fn copied(&self) -> Name44
        ensures { result ≡ self.now }
    {
        let mut bytes = ArrayVec::new();
        for b in self.bytes.as_slice() {
            bytes.push(*b);
        }
        Name44 { bytes }
    }
}
