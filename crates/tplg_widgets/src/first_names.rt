// Widgets by their names.
ghost use Rattle.std.specs.Prelude.{◌≡◌, ℕ, List, position, IfOk, OnOk};
ghost use Rattle.std.specs.Str.{bytes_eq};
ghost use Rattle.std.specs.HashMap as hash;
ghost use Rattle.tplg_widgets.specs.Names.{is_interpreted_named, has_name};
ghost use Rattle.tplg_widgets.specs.KeptNumbers.{kept_first};

use crate::entry::{Entry, is_interpreted};
use std::alloc::{AllocError, Global};
use std::collections::HashMap;

/// Puts a number under a name that has none yet.
fn keep_first<'t>(
    numbers: &mut HashMap<&'t [u8], usize>,
    name: &'t [u8],
    number: usize,
) -> Result<(), AllocError>
    ensures { OnOk result ((q : List ℕ) → hash.get_by (λ k. bytes_eq q k.now) numbers.new
        ≡ kept_first (hash.get_by (λ k. bytes_eq q k.now) numbers.old) (bytes_eq q name.now) number) }
{
    if numbers.contains_key(&name) {
        return Ok(());
    }
    numbers.insert(name, number)?;
    Ok(())
}

/// The first interpreted widget of each name.
pub fn interpreted_by_name<'t>(
    alloc: Global,
    entries: &[Entry<'t>],
) -> Result<HashMap<&'t [u8], usize>, AllocError>
    ensures { IfOk result (λ m. (q : List ℕ) → hash.get_by (λ k. bytes_eq q k.now) m ≡ position (is_interpreted_named q) entries.now) }
{
    let mut numbers = HashMap::new(alloc);
    for k in 0..entries.len() {
        let entry = &entries[k];
        if is_interpreted(entry) {
            keep_first(&mut numbers, entry.name().as_bytes(), k)?;
        }
    }
    Ok(numbers)
}

/// The first widget of each name.
pub fn all_by_name<'t>(
    alloc: Global,
    entries: &[Entry<'t>],
) -> Result<HashMap<&'t [u8], usize>, AllocError>
    ensures { IfOk result (λ m. (q : List ℕ) → hash.get_by (λ k. bytes_eq q k.now) m ≡ position (has_name q) entries.now) }
{
    let mut numbers = HashMap::new(alloc);
    for k in 0..entries.len() {
        keep_first(&mut numbers, entries[k].name().as_bytes(), k)?;
    }
    Ok(numbers)
}
