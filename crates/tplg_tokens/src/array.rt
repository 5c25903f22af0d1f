// One vendor array: three words, and its elements.
ghost use Rattle.std.specs.Prelude.{◌≡◌, ◌≤◌, ◌<◌, ◌+◌, ◌*◌, ◌^◌, ◌++◌, ℕ, length, take, Some, None, IfOk, IfErr, IsOk, OnOk};
ghost use Rattle.sof_base.specs.Slots.{word_at};
ghost use Rattle.std.specs.Int.{w32, to_le_bytes};
ghost use Rattle.tplg_model.specs.Arrays.{element_size, array_type, count_of, elements_spelling, array_fault, array_size, array_spelling, HasElements, IsArray};
ghost use Rattle.tplg_model.specs.Storable.{HasSize};
ghost use Rattle.tplg_model.specs.ArrayReading.{array_at};
ghost use Rattle.tplg_tokens.specs.Answers.{NamesFault};

use crate::element::{Element, read_elements, word_bytes, write_elements};
use crate::fault::TokenFault;
use sof_base::{NoMemory, word};
use std::alloc::{AllocError, Global};
use tplg_model::array_type::{SHORT, STRING, UUID};
use tplg_model::{
    NumberArray, NumberTuple, TextArray, TextTuple, TokenArray, UuidArray, UuidTuple,
};

/// The bytes of an element by its array's type.
fn element_bytes(kind: u32) -> usize
    ensures { result ≡ element_size kind }
{
    match kind {
        UUID => UuidTuple::SIZE,
        STRING => TextTuple::SIZE,
        _ => NumberTuple::SIZE,
    }
}

/// The bytes of the array at the front of bytes, which begin at a place, or what is wrong with it. Its number of elements is
/// trusted only where it agrees with its size, and its size only where so many bytes are there.
pub fn whole_size(bytes: &[u8], at: usize) -> Result<usize, TokenFault>
    ensures whole { IfOk result (λ size. (array_fault at bytes.now ≡ None) × (size ≡ word_at bytes.now 0)) }
    ensures small { IfOk result (λ size. size < 2 ^ 32) }
    ensures only { array_fault at bytes.now ≡ None → IsOk result }
    ensures fault { IfErr result (NamesFault (λ f. array_fault at bytes.now ≡ Some f)) }
{
    if bytes.len() < 12 {
        return Err(TokenFault::Short(at));
    }
    let kind = word(bytes, 4);
    if kind > SHORT {
        return Err(TokenFault::Kind(at, kind));
    }
    let size = word(bytes, 0) as usize;
    let count = word(bytes, 8) as usize;
    if size != 12 + count * element_bytes(kind) {
        return Err(TokenFault::Size(at));
    }
    if bytes.len() < size {
        return Err(TokenFault::Short(at));
    }
    Ok(size)
}

/// The array at the front of bytes where it is whole.
#[tactic(auto, unfolding(tplg_model::specs::ArrayReading::array_at))]
pub fn read_array(alloc: Global, bytes: &[u8]) -> Result<TokenArray, NoMemory>
    requires words { 12 ≤ length bytes.now }
    requires known { word_at bytes.now 4 ≤ 5 }
    requires elements { 12 + word_at bytes.now 8 * element_size (word_at bytes.now 4) ≤ length bytes.now }
    requires size { 12 + word_at bytes.now 8 * element_size (word_at bytes.now 4) < 2 ^ 32 }
    ensures { IfOk result (λ array. array ≡ array_at bytes.now) }
{
    let kind = word(bytes, 4);
    let count = word(bytes, 8);
    match kind {
        UUID => {
            let elements = read_elements(alloc, count, bytes, 12)?;
            Ok(TokenArray::Uuid(UuidArray::of(elements)))
        }
        STRING => {
            let elements = read_elements(alloc, count, bytes, 12)?;
            Ok(TokenArray::Text(TextArray::of(elements)))
        }
        _ => {
            let elements = read_elements(alloc, count, bytes, 12)?;
            Ok(TokenArray::Number(NumberArray::of(kind, elements)))
        }
    }
}

/// An array's three words: its size, its type, and its number of elements.
fn array_words(array: &TokenArray) -> (u32, u32, u32)
    ensures words { result ≡ (array_size array.now, array_type array.now, count_of array.now) }
    ensures size { HasSize array.now }
{
    match array {
        TokenArray::Uuid(uuids) => {
            let count = uuids.items().len() as u32;
            (12 + count * 20, UUID, count)
        }
        TokenArray::Text(texts) => {
            let count = texts.items().len() as u32;
            (12 + count * 48, STRING, count)
        }
        TokenArray::Number(numbers) => {
            let count = numbers.items().len() as u32;
            (12 + count * 8, numbers.kind(), count)
        }
    }
}

/// Appends an array's three words. Where there is no memory, some of them may have been written.
fn write_words(size: u32, kind: u32, count: u32, out: &mut Vec<u8>) -> Result<(), AllocError>
    ensures ok { OnOk result (out.new.items ≡ out.old.items ++ (to_le_bytes w32 size ++ (to_le_bytes w32 kind ++ to_le_bytes w32 count))) }
    ensures kept { take (length out.old.items) out.new.items ≡ out.old.items }
{
    out.extend_from_slice(&word_bytes(size))?;
    out.extend_from_slice(&word_bytes(kind))?;
    out.extend_from_slice(&word_bytes(count))
}

fn write_elements_of(array: &TokenArray, out: &mut Vec<u8>) -> Result<(), AllocError>
    ensures ok { OnOk result (out.new.items ≡ out.old.items ++ elements_spelling array.now) }
    ensures are { OnOk result (HasElements array.now) }
    ensures kept { take (length out.old.items) out.new.items ≡ out.old.items }
{
    match array {
        TokenArray::Uuid(uuids) => write_elements(uuids.items(), out),
        TokenArray::Text(texts) => write_elements(texts.items(), out),
        TokenArray::Number(numbers) => write_elements(numbers.items(), out),
    }
}

/// Appends an array's bytes. Where there is no memory, some of them may have been written.
pub fn write_array(array: &TokenArray, out: &mut Vec<u8>) -> Result<(), AllocError>
    ensures ok { OnOk result (out.new.items ≡ out.old.items ++ array_spelling array.now) }
    ensures is { OnOk result (IsArray array.now) }
    ensures kept { take (length out.old.items) out.new.items ≡ out.old.items }
{
    let (size, kind, count) = array_words(array);
    write_words(size, kind, count, out)?;
    write_elements_of(array, out)
}
