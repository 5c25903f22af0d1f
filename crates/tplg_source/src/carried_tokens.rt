// The tokens that have keys in a source.
ghost use Rattle.std.specs.Prelude.{◌≡◌, IfOk};
ghost use Rattle.std.specs.List.{filter_map};
ghost use Rattle.tplg_compile.specs.KeyTables.{number_tokens, text_tokens};
ghost use Rattle.tplg_compile.specs.ProgramValues.{keyed_by};
ghost use Rattle.tplg_source.specs.Carried as law;

use crate::names::is_text;
use sof_base::{Items, Name44, NoMemory};
use std::alloc::Global;
use tplg_build::text_tuple;
use tplg_compile::keys::{NUMBER_TOKENS, TEXT_TOKENS, TokenKey};
use tplg_compile::push_some;
use tplg_model::{NumberTuple, TextTuple, TokenArray};
use tplg_widgets::{number_of, text_of};

fn carried_number(arrays: &[TokenArray], key: &TokenKey) -> Option<NumberTuple>
    ensures { result ≡ law.carried_number arrays.now (key.now.key.now, key.now.token) }
{
    let token = key.token;
    let value = number_of(arrays, token)?;
    Some(NumberTuple { token, value })
}

// The numbers of the tokens of these keys, in the order of the keys.
fn numbers_at(
    alloc: Global,
    arrays: &[TokenArray],
    keys: &[TokenKey],
) -> Result<Items<NumberTuple>, NoMemory>
    ensures { IfOk result (λ xs. xs ≡ filter_map (law.carried_number arrays.now) (keyed_by keys.now)) }
{
    let mut numbers = Items::new(alloc);
    for key in keys {
        let number = carried_number(arrays, key);
        push_some(&mut numbers, number)?;
    }
    Ok(numbers)
}

/// The numbers of the tokens that have keys, by ascending token.
pub fn carried_numbers(alloc: Global, arrays: &[TokenArray]) -> Result<Items<NumberTuple>, NoMemory>
    ensures { IfOk result (λ xs. xs ≡ filter_map (law.carried_number arrays.now) number_tokens) }
{
    numbers_at(alloc, arrays, &NUMBER_TOKENS)
}

fn text_kept(token: u32, text: &[u8]) -> Option<TextTuple>
    ensures { result ≡ law.text_kept token text.now }
{
    let name = Name44::new(text)?;
    if !is_text(text) {
        return None;
    }
    Some(text_tuple(token, &name))
}

fn carried_text(arrays: &[TokenArray], key: &TokenKey) -> Option<TextTuple>
    ensures { result ≡ law.carried_text arrays.now (key.now.key.now, key.now.token) }
{
    let token = key.token;
    let text = text_of(arrays, token)?;
    text_kept(token, text)
}

// The texts of the tokens of these keys, in the order of the keys.
fn texts_at(
    alloc: Global,
    arrays: &[TokenArray],
    keys: &[TokenKey],
) -> Result<Items<TextTuple>, NoMemory>
    ensures { IfOk result (λ xs. xs ≡ filter_map (law.carried_text arrays.now) (keyed_by keys.now)) }
{
    let mut texts = Items::new(alloc);
    for key in keys {
        let text = carried_text(arrays, key);
        push_some(&mut texts, text)?;
    }
    Ok(texts)
}

/// The texts of the tokens that have keys, by ascending token.
pub fn carried_texts(alloc: Global, arrays: &[TokenArray]) -> Result<Items<TextTuple>, NoMemory>
    ensures { IfOk result (λ xs. xs ≡ filter_map (law.carried_text arrays.now) text_tokens) }
{
    texts_at(alloc, arrays, &TEXT_TOKENS)
}
