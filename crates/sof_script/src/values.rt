// What a token is worth.
ghost use Rattle.std.specs.Prelude.{◌≡◌, ◌<◌, ◌≤◌, ◌^◌, ℕ, List, MatchOption, IfOk, Some, decimal};
ghost use Rattle.sof_script.specs.ValueForms.{is_digit, digits_behind, begins_well, decimal_value, number_value, error_value, format_value, hex_value, name_value};

use crate::fault_causes::Cause;
use sof_base::{Bounded, Format, Name44};

// `0` to `9`.
fn is_decimal(byte: u8) -> bool
    ensures { result ≡ is_digit byte }
{
    b'0' <= byte && byte <= b'9'
}

// Whether there is a first byte, and it is no needless `0`.
fn starts_well(token: &[u8]) -> bool
    ensures { result ≡ begins_well token.now }
{
    match token {
        [] => false,
        [_] => true,
        [first, ..] => *first != b'0',
    }
}

// The number of digits; none where a byte is no digit, or the number is 2^32 or more.
fn digits(bytes: &[u8]) -> Option<u32>
    ensures { MatchOption result
        ((n : ℕ) → digits_behind 0 bytes.now ≡ Some n → 2 ^ 32 ≤ n)
        (λ n. digits_behind 0 bytes.now ≡ Some n) }
{
    let mut number: u64 = 0;
    for byte in bytes {
        if !is_decimal(*byte) {
            return None;
        }
        number = number * 10 + u64::from(*byte - b'0');
        if number > 0xffff_ffff {
            return None;
        }
    }
    Some(number as u32)
}

/// The number of decimal digits without a needless zero, in a range; else the cause of a number.
pub fn number(token: &[u8], least: u32, most: u32) -> Result<u32, Cause>
    ensures value { result ≡ number_value least most token.now }
    ensures within { IfOk result (λ n. n ≤ most) }
{
    if !starts_well(token) {
        return Err(Cause::Number);
    }
    let Some(number) = digits(token) else {
        return Err(Cause::Number);
    };
    if number < least {
        return Err(Cause::Number);
    }
    if number > most {
        return Err(Cause::Number);
    }
    Ok(number)
}

/// An error number, -4095 to -1; else the cause of a number.
pub fn error(token: &[u8]) -> Result<i32, Cause>
    ensures { result ≡ error_value token.now }
{
    if token.is_empty() {
        return Err(Cause::Number);
    }
    if token[0] != b'-' {
        return Err(Cause::Number);
    }
    match number(token.split_at(1).1, 1, 4095) {
        Ok(number) => Ok(-(number as i32)),
        Err(cause) => Err(cause),
    }
}

/// The format of a sample, `s16`, `s24` or `s32`; else the cause of a number.
pub fn format(token: &[u8]) -> Result<Format, Cause>
    ensures { result ≡ format_value token.now }
{
    match token {
        b"s16" => Ok(Format::S16),
        b"s24" => Ok(Format::S24),
        b"s32" => Ok(Format::S32),
        _ => Err(Cause::Number),
    }
}

/// The bytes of at most 2048 hex digits, none for `-`; else the cause of hex.
pub fn hex(token: &[u8]) -> Result<Bounded<u8, 1024>, Cause>
    ensures { result ≡ hex_value token.now }
{
    if token == b"-".as_slice() {
        return Ok(Bounded::empty());
    }
    if token.len() > 2048 {
        return Err(Cause::Hex);
    }
    let mut bytes = [0; 1024];
    let room = &mut bytes[..token.len() / 2];
    if hex::decode_to_slice(token, room).is_err() {
        return Err(Cause::Hex);
    }
    match Bounded::new(room) {
        Some(bytes) => Ok(bytes),
        None => Err(Cause::Hex),
    }
}

/// A name of 1 to 43 bytes, none of them 0; else the cause of a name.
pub fn name(token: &[u8]) -> Result<Name44, Cause>
    ensures { result ≡ name_value token.now }
{
    if token.is_empty() {
        return Err(Cause::Name);
    }
    match Name44::new(token) {
        Some(name) => Ok(name),
        None => Err(Cause::Name),
    }
}

/// A law: a token is read as a number below 2^64 exactly where it is what is written for that number in decimal.
pub fn numbers_are_decimal()
    ensures read { (token : List ℕ) (n : ℕ) → n < 2 ^ 64 → decimal_value token ≡ Some n → token ≡ decimal n }
    ensures again { (n : ℕ) → n < 2 ^ 64 → decimal_value (decimal n) ≡ Some n }
{}
