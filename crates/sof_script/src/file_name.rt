// The name of a file.
ghost use Rattle.std.specs.Prelude.{◌≡◌, IfOk, string_bytes};
ghost use Rattle.sof_script.specs.ValueForms.{file_value};

use crate::fault_causes::Cause;
use crate::scanning::all_may_stand;
use sof_base::NoMemory;
use std::alloc::Global;
use std::marker::Model;

/// The name of a file, where it stands on its line: 1 to 255 bytes that may stand there. Contracts see its bytes.
#[derive(Debug, Drop)]
pub struct FileName<'a> {
    bytes: &'a [u8],
}

impl<'a> Model for FileName<'a> {
    ghost use Rattle.std.specs.Prelude.{List, ℕ, ◌≡◌, true};
    ghost use Rattle.sof_script.specs.Splitting.{all_plain};

    ghost Value = { List ℕ };

    ghost view = { λ f. f.bytes.now };

    ghost invariant = { λ f. all_plain f.bytes.now ≡ true };
}

impl<'a> FileName<'a> {
    /// The name that a token is; else the cause of a name.
    pub fn of(token: &'a [u8]) -> Result<FileName<'a>, Cause>
        ensures { result ≡ file_value token.now }
    {
        if token.is_empty() {
            return Err(Cause::Name);
        }
        if token.len() > 255 {
            return Err(Cause::Name);
        }
        if !all_may_stand(token) {
            return Err(Cause::Name);
        }
        Ok(FileName { bytes: token })
    }

    /// The name as text, in memory of its own.
    pub fn to_text(&self, alloc: Global) -> Result<String, NoMemory>
        ensures { IfOk result (λ text. string_bytes text ≡ self.now) }
    {
        match str::from_utf8(self.bytes) {
            Ok(text) => Ok(String::from_str(alloc, text)?),
            Err(_) => unreachable!(),
        }
    }
}
