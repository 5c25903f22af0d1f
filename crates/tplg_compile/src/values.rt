// How a value is read: as a number, a text, or bytes in hex.
ghost use Rattle.tplg_compile.specs.EntryOutcomes.{Finds};
ghost use Rattle.tplg_compile.specs.ValueForm as reading;
ghost use Rattle.toml.specs.View.{view};

use crate::entry_fault::EntryFault;
use hex::FromHexError;
use sof_base::{Items, Name44};
use std::alloc::Global;
use toml::Value;

/// A number from 0 to 4294967295.
#[tactic(auto, unfolding(crate::specs::ValueForm::number_of))]
pub fn number(value: &Value) -> Result<u32, EntryFault>
    ensures { Finds (λ x. x) result (reading.number_of (view value.now)) }
{
    let Some(number) = value.as_integer() else {
        return Err(EntryFault::Misfit);
    };
    if number < 0 || number > 0xffff_ffff {
        return Err(EntryFault::Misfit);
    }
    Ok(number as u32)
}

/// A number from 0 to 65535.
#[tactic(auto, unfolding(crate::specs::ValueForm::index_of))]
pub fn index(value: &Value) -> Result<u32, EntryFault>
    ensures { Finds (λ x. x) result (reading.index_of (view value.now)) }
{
    let number = number(value)?;
    if number > 65535 {
        return Err(EntryFault::Misfit);
    }
    Ok(number)
}

/// A number from -2147483648 to 2147483647.
#[tactic(auto, unfolding(crate::specs::ValueForm::signed_of))]
pub fn signed(value: &Value) -> Result<i32, EntryFault>
    ensures { Finds (λ x. x) result (reading.signed_of (view value.now)) }
{
    let Some(number) = value.as_integer() else {
        return Err(EntryFault::Misfit);
    };
    if number < -2_147_483_648 || number > 2_147_483_647 {
        return Err(EntryFault::Misfit);
    }
    Ok(number as i32)
}

/// A text of at most 43 bytes, none of them 0.
#[tactic(auto, unfolding(crate::specs::ValueForm::name_of))]
pub fn name(value: &Value) -> Result<Name44, EntryFault>
    ensures { Finds (λ x. x) result (reading.name_of (view value.now)) }
{
    let Some(text) = value.as_str() else {
        return Err(EntryFault::Misfit);
    };
    match Name44::new(text.as_bytes()) {
        Some(name) => Ok(name),
        None => Err(EntryFault::Misfit),
    }
}

/// Such a text that is not empty.
#[tactic(auto, unfolding(crate::specs::ValueForm::filled_of))]
pub fn filled(value: &Value) -> Result<Name44, EntryFault>
    ensures { Finds (λ x. x) result (reading.filled_of (view value.now)) }
{
    let name = name(value)?;
    if name.as_bytes().is_empty() {
        return Err(EntryFault::Misfit);
    }
    Ok(name)
}

/// The bytes of an even number of hex digits.
#[tactic(auto, unfolding(crate::specs::ValueForm::blob_of))]
pub fn blob(alloc: Global, value: &Value) -> Result<Items<u8>, EntryFault>
    ensures { Finds (λ x. x) result (reading.blob_of (view value.now)) }
{
    let Some(text) = value.as_str() else {
        return Err(EntryFault::Misfit);
    };
    match hex::decode(alloc, text) {
        Ok(bytes) => Ok(Items::from_vec(bytes)),
        Err(FromHexError::OutOfMemory) => Err(EntryFault::OutOfMemory),
        Err(_) => Err(EntryFault::Misfit),
    }
}
