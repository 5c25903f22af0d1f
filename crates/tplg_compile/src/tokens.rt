// The tokens of a widget.
ghost use Rattle.std.specs.Prelude.{ℕ, Option};
ghost use Rattle.toml.specs.Data.{Data, get_member};
ghost use Rattle.toml.specs.View.{view, table_view};
ghost use Rattle.tplg_compile.specs.EntryOutcomes.{Finds};
ghost use Rattle.tplg_compile.specs.KeyTables.{number_tokens, text_tokens};
ghost use Rattle.tplg_compile.specs.ProgramValues.{keyed_by, perhaps};
ghost use Rattle.tplg_compile.specs.Entries as entries;

use crate::entry::value_at;
use crate::entry_fault::EntryFault;
use crate::keys::{NUMBER_TOKENS, TEXT_TOKENS, TokenKey};
use crate::optional::push_some;
use crate::values::{name, number};
use sof_base::Items;
use std::alloc::Global;
use toml::{Table, Value};
use tplg_build::text_tuple;
use tplg_model::{NumberTuple, TextTuple};

/// An element of a vendor array.
trait Tuple: Sized {
    ghost read: { ℕ → Data → Option Self };

    /// The element of a token with a value.
    fn of(token: u32, value: &Value) -> Result<Self, EntryFault>
        ensures { Finds (λ x. x) result (Self.read token (view value.now)) };
}

impl Tuple for NumberTuple {
    ghost read = { entries.stated_number };

    #[tactic(auto, unfolding(crate::specs::Entries::stated_number))]
    fn of(token: u32, value: &Value) -> Result<Self, EntryFault> {
        let value = number(value)?;
        Ok(NumberTuple { token, value })
    }
}

impl Tuple for TextTuple {
    ghost read = { entries.stated_text };

    #[tactic(auto, unfolding(crate::specs::Entries::stated_text))]
    fn of(token: u32, value: &Value) -> Result<Self, EntryFault> {
        let text = name(value)?;
        Ok(text_tuple(token, &text))
    }
}

// The element of a key, where it stands in an entry.
fn tuple_at<T: Tuple>(entry: &Table, key: &TokenKey) -> Result<Option<T>, EntryFault>
    ensures { Finds (λ x. x) result (perhaps (T.read key.now.token) (get_member key.now.key.now (table_view entry.now))) }
{
    match value_at(entry, key.key) {
        Some(value) => Ok(Some(T::of(key.token, value)?)),
        None => Ok(None),
    }
}

// The elements of the keys that stand in an entry.
fn tuples<T: Tuple + Drop>(
    alloc: Global,
    entry: &Table,
    keys: &[TokenKey],
) -> Result<Items<T>, EntryFault>
    ensures { Finds (λ x. x) result (entries.tuples_at T.read (keyed_by keys.now) (table_view entry.now)) }
{
    let mut tuples = Items::new(alloc);
    for key in keys {
        let tuple = tuple_at::<T>(entry, key)?;
        push_some(&mut tuples, tuple)?;
    }
    Ok(tuples)
}

/// The tokens of an entry with numbers.
pub fn numbers(alloc: Global, entry: &Table) -> Result<Items<NumberTuple>, EntryFault>
    ensures { Finds (λ x. x) result (entries.tuples_at entries.stated_number number_tokens (table_view entry.now)) }
{
    tuples(alloc, entry, &NUMBER_TOKENS)
}

/// Those with texts.
pub fn texts(alloc: Global, entry: &Table) -> Result<Items<TextTuple>, EntryFault>
    ensures { Finds (λ x. x) result (entries.tuples_at entries.stated_text text_tokens (table_view entry.now)) }
{
    tuples(alloc, entry, &TEXT_TOKENS)
}
