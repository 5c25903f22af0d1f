// What stands at the keys of a table.
ghost use Rattle.std.specs.Prelude.{◌≡◌, ◌++◌, option_map};
ghost use Rattle.toml.specs.Data.{get_member};
ghost use Rattle.toml.specs.View.{view, table_view};
ghost use Rattle.tplg_compile.specs.EntryOutcomes.{Finds};
ghost use Rattle.tplg_compile.specs.ValueForm as reading;
ghost use Rattle.tplg_compile.specs.ProgramValues as program_values;
ghost use Rattle.tplg_compile.specs.KeyTables.{keys_of};
ghost use Rattle.tplg_compile.specs.ProgramValues.{keyed_by};

use crate::entry_fault::EntryFault;
use crate::keys::TokenKey;
use crate::values::{filled, name, number, signed};
use sof_base::Name44;
use toml::{Table, Value};

/// The value at a key, where there is one.
pub fn value_at<'a>(entry: &'a Table, key: &str) -> Option<&'a Value>
    ensures { option_map (λ v. view v.now) result ≡ get_member key.now (table_view entry.now) }
{
    entry.get(key)
}

/// The value at a key that has to stand there.
pub fn needed<'a>(entry: &'a Table, key: &str) -> Result<&'a Value, EntryFault>
    ensures { Finds (λ v. view v.now) result (get_member key.now (table_view entry.now)) }
{
    match value_at(entry, key) {
        Some(value) => Ok(value),
        None => Err(EntryFault::Misfit),
    }
}

/// The number at a key.
#[tactic(auto, unfolding(crate::specs::ValueForm::required_at))]
pub fn number_at(entry: &Table, key: &str) -> Result<u32, EntryFault>
    ensures { Finds (λ x. x) result (reading.required_at reading.number_of key.now (table_view entry.now)) }
{
    number(needed(entry, key)?)
}

/// The signed number at a key.
#[tactic(auto, unfolding(crate::specs::ValueForm::required_at))]
pub fn signed_at(entry: &Table, key: &str) -> Result<i32, EntryFault>
    ensures { Finds (λ x. x) result (reading.required_at reading.signed_of key.now (table_view entry.now)) }
{
    signed(needed(entry, key)?)
}

/// The text at a key, which is not empty.
#[tactic(auto, unfolding(crate::specs::ValueForm::required_at))]
pub fn filled_at(entry: &Table, key: &str) -> Result<Name44, EntryFault>
    ensures { Finds (λ x. x) result (reading.required_at reading.filled_of key.now (table_view entry.now)) }
{
    filled(needed(entry, key)?)
}

/// The text at a key that may be absent.
#[tactic(auto, unfolding(crate::specs::ValueForm::optional_at))]
pub fn optional_name_at(entry: &Table, key: &str) -> Result<Option<Name44>, EntryFault>
    ensures { Finds (λ x. x) result (reading.optional_at reading.name_of key.now (table_view entry.now)) }
{
    match value_at(entry, key) {
        Some(value) => Ok(Some(name(value)?)),
        None => Ok(None),
    }
}

// Whether a key is one of these.
fn is_among(key: &str, keys: &[&str]) -> bool
    ensures { result ≡ reading.is_one_of key.now (program_values.slice_texts keys.now) }
{
    for one in keys {
        if key == *one {
            return true;
        }
    }
    false
}

// Whether a key stands for one of these tokens.
fn is_token(key: &str, tokens: &[TokenKey]) -> bool
    ensures { result ≡ reading.is_one_of key.now (keys_of (keyed_by tokens.now)) }
{
    for one in tokens {
        if key == one.key {
            return true;
        }
    }
    false
}

// Whether a key is one of these, or stands for one of these tokens.
fn is_known(key: &str, keys: &[&str], numbers: &[TokenKey], texts: &[TokenKey]) -> bool
    ensures { result ≡ reading.is_one_of key.now (program_values.slice_texts keys.now ++ (keys_of (keyed_by numbers.now) ++ keys_of (keyed_by texts.now))) }
{
    if is_among(key, keys) {
        return true;
    }
    if is_token(key, numbers) {
        return true;
    }
    is_token(key, texts)
}

// Whether each key of an entry is.
fn has_only(entry: &Table, keys: &[&str], numbers: &[TokenKey], texts: &[TokenKey]) -> bool
    ensures { result ≡ reading.has_only (program_values.slice_texts keys.now ++ (keys_of (keyed_by numbers.now) ++ keys_of (keyed_by texts.now))) (table_view entry.now) }
{
    for (key, _value) in entry.iter() {
        if !is_known(key.as_str(), keys, numbers, texts) {
            return false;
        }
    }
    true
}

/// A misfit where an entry has a key that is none of these and stands for none of these tokens.
#[tactic(auto, unfolding(crate::specs::ValueForm::only))]
pub fn only_with(
    entry: &Table,
    keys: &[&str],
    numbers: &[TokenKey],
    texts: &[TokenKey],
) -> Result<(), EntryFault>
    ensures { Finds (λ _. tt) result (reading.only (program_values.slice_texts keys.now ++ (keys_of (keyed_by numbers.now) ++ keys_of (keyed_by texts.now))) (table_view entry.now)) }
{
    if has_only(entry, keys, numbers, texts) {
        Ok(())
    } else {
        Err(EntryFault::Misfit)
    }
}

/// A misfit where an entry has a key that is none of these.
pub fn only(entry: &Table, keys: &[&str]) -> Result<(), EntryFault>
    ensures { Finds (λ _. tt) result (reading.only (program_values.slice_texts keys.now) (table_view entry.now)) }
{
    only_with(entry, keys, &[], &[])
}
