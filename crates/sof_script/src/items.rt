// What a line is.
ghost use Rattle.std.specs.Prelude.{◌≡◌, ◌≢◌, ◌≤◌, length, Ok, Err, IfOk, MatchResult};
ghost use Rattle.sof_script.specs.TokenStarts.{texts};
ghost use Rattle.sof_script.specs.declared.items.Item.TheVariants.{Do};
ghost use Rattle.sof_script.specs.declared.script.Command.TheVariants as command;
ghost use Rattle.sof_script.specs.declared.words.Word.TheVariants as words;
ghost use Rattle.sof_script.specs.Words.{worded_item};
ghost use Rattle.sof_script.specs.Commands.{line_item, said_by, alone, params_item, values_item, number_values};
ghost use Rattle.sof_script.specs.ArgumentForms.{one_name, one_number, bound, hex_item, error_item, lag_item};

use crate::blob::Blob;
use crate::fault_causes::Cause;
use crate::file_name::FileName;
use crate::line_tokens::Tokens;
use crate::scanning::{all_may_stand, from_first_token};
use crate::script::Command;
use crate::values::{error, format, hex, name, number};
use crate::words::Word;
use arrayvec::ArrayVec;
use sof_base::{Bounded, Name44, NoMemory, Params};
use std::alloc::Global;

/// What a line is.
#[derive(Debug, Drop)]
pub enum Item<'a> {
    /// It is skipped.
    Nothing,
    /// An endpoint's bytes come from a file (`input`) or go to it.
    Bind {
        input: bool,
        endpoint: Name44,
        file: FileName<'a>,
    },
    /// A command.
    Do(Command),
}

// A word without arguments.
fn without(args: &[&[u8]], command: Command) -> Result<Item<'static>, Cause>
    ensures { result ≡ alone command (texts args.now) }
{
    if args.is_empty() {
        Ok(Item::Do(command))
    } else {
        Err(Cause::Count)
    }
}

// The name that is the one argument.
fn lone_name(args: &[&[u8]]) -> Result<Name44, Cause>
    ensures { result ≡ one_name (texts args.now) }
{
    if args.len() != 1 {
        return Err(Cause::Count);
    }
    name(args[0])
}

// The number, from 1 on, that is the one argument.
fn lone_number(args: &[&[u8]], most: u32) -> Result<u32, Cause>
    ensures { result ≡ one_number most (texts args.now) }
{
    if args.len() != 1 {
        return Err(Cause::Count);
    }
    number(args[0], 1, most)
}

// An endpoint and its file.
fn binding<'a>(args: &[&'a [u8]], input: bool) -> Result<Item<'a>, Cause>
    ensures { result ≡ bound input (texts args.now) }
{
    if args.len() != 2 {
        return Err(Cause::Count);
    }
    let endpoint = name(args[0])?;
    let file = FileName::of(args[1])?;
    Ok(Item::Bind {
        input,
        endpoint,
        file,
    })
}

// A stream and its parameters.
fn params(args: &[&[u8]]) -> Result<Item<'static>, Cause>
    ensures { result ≡ params_item (texts args.now) }
{
    if args.len() != 4 {
        return Err(Cause::Count);
    }
    let rate = number(args[1], 0, u32::MAX)?;
    let channels = number(args[2], 0, 255)?;
    let format = format(args[3])?;
    let stream = name(args[0])?;
    let params = Params {
        rate,
        channels: channels as u8,
        format,
    };
    Ok(Item::Do(Command::Params(stream, params)))
}

// The numbers of at most eight tokens.
fn numbers(tokens: &[&[u8]]) -> Result<Bounded<u32, 8>, Cause>
    requires { length tokens.now ≤ 8 }
    ensures { result ≡ number_values (texts tokens.now) }
{
    let mut numbers: ArrayVec<u32, 8> = ArrayVec::new();
    for token in tokens {
        numbers.push(number(token, 0, u32::MAX)?);
    }
    match Bounded::new(numbers.as_slice()) {
        Some(numbers) => Ok(numbers),
        None => Err(Cause::Count),
    }
}

// A control and one to eight numbers.
fn values(args: &[&[u8]]) -> Result<Item<'static>, Cause>
    ensures { result ≡ values_item (texts args.now) }
{
    if args.len() < 2 {
        return Err(Cause::Count);
    }
    if args.len() > 9 {
        return Err(Cause::Count);
    }
    let values = numbers(args.split_at(1).1)?;
    let control = name(args[0])?;
    Ok(Item::Do(Command::Set(control, values)))
}

// A control and bytes, as they stand on the line.
fn control_and_bytes(args: &[&[u8]]) -> Result<(Name44, Bounded<u8, 1024>), Cause>
    ensures { MatchResult result
        (λ read. hex_item (texts args.now) ≡ Ok (Do (command.Bytes read.0 read.1)))
        (λ cause. hex_item (texts args.now) ≡ Err cause) }
{
    if args.len() != 2 {
        return Err(Cause::Count);
    }
    let bytes = hex(args[1])?;
    let control = name(args[0])?;
    Ok((control, bytes))
}

// A control and bytes, which take memory of their own.
fn blob(alloc: Global, args: &[&[u8]]) -> Result<Result<Item<'static>, Cause>, NoMemory>
    ensures { IfOk result (λ item. item ≡ hex_item (texts args.now)) }
{
    match control_and_bytes(args) {
        Ok((control, bytes)) => {
            let blob = Blob::new(alloc, bytes.items())?;
            Ok(Ok(Item::Do(Command::Bytes(control, blob))))
        }
        Err(cause) => Ok(Err(cause)),
    }
}

// A message and an error.
fn refusal(args: &[&[u8]]) -> Result<Item<'static>, Cause>
    ensures { result ≡ error_item (texts args.now) }
{
    if args.len() != 2 {
        return Err(Cause::Count);
    }
    let message = number(args[0], 1, 100_000)?;
    let told = error(args[1])?;
    Ok(Item::Do(Command::Refuse(message, told)))
}

// A message and ticks.
fn lag(args: &[&[u8]]) -> Result<Item<'static>, Cause>
    ensures { result ≡ lag_item (texts args.now) }
{
    if args.len() != 2 {
        return Err(Cause::Count);
    }
    let message = number(args[0], 1, 100_000)?;
    let ticks = number(args[1], 1, 16)?;
    Ok(Item::Do(Command::Lag(message, ticks)))
}

// What a word and the tokens after it say that take no memory, which all do but `bytes`.
fn meant_at_once<'a>(word: Word, args: &[&'a [u8]]) -> Result<Item<'a>, Cause>
    requires { word ≢ words.Bytes }
    ensures { result ≡ worded_item word (texts args.now) }
{
    match word {
        Word::In => binding(args, true),
        Word::Out => binding(args, false),
        Word::Load => without(args, Command::Load),
        Word::Unload => without(args, Command::Unload),
        Word::Suspend => without(args, Command::Suspend),
        Word::Resume => without(args, Command::Resume),
        Word::Show => without(args, Command::Show),
        Word::Open => Ok(Item::Do(Command::Open(lone_name(args)?))),
        Word::Start => Ok(Item::Do(Command::Start(lone_name(args)?))),
        Word::Stop => Ok(Item::Do(Command::Stop(lone_name(args)?))),
        Word::Pause => Ok(Item::Do(Command::Pause(lone_name(args)?))),
        Word::Release => Ok(Item::Do(Command::Release(lone_name(args)?))),
        Word::Close => Ok(Item::Do(Command::Close(lone_name(args)?))),
        Word::Get => Ok(Item::Do(Command::Get(lone_name(args)?))),
        Word::Read => Ok(Item::Do(Command::Read(lone_name(args)?))),
        Word::Params => params(args),
        Word::Set => values(args),
        Word::Bytes => unreachable!(),
        Word::Tick => Ok(Item::Do(Command::Tick(lone_number(args, 60_000)?))),
        Word::Refuse => refusal(args),
        Word::Drop => Ok(Item::Do(Command::Drop(lone_number(args, 100_000)?))),
        Word::Lose => Ok(Item::Do(Command::Lose(lone_number(args, 100_000)?))),
        Word::Lag => lag(args),
    }
}

// What a word and the tokens after it say.
fn meant<'a>(
    alloc: Global,
    word: Word,
    args: &[&'a [u8]],
) -> Result<Result<Item<'a>, Cause>, NoMemory>
    ensures { IfOk result (λ item. item ≡ worded_item word (texts args.now)) }
{
    match word {
        Word::Bytes => blob(alloc, args),
        _ => Ok(meant_at_once(word, args)),
    }
}

// What a first token and the tokens after it say.
fn said<'a>(
    alloc: Global,
    first: &[u8],
    args: &[&'a [u8]],
) -> Result<Result<Item<'a>, Cause>, NoMemory>
    ensures { IfOk result (λ item. item ≡ said_by first.now (texts args.now)) }
{
    match Word::of(first) {
        Some(word) => meant(alloc, word, args),
        None => Ok(Err(Cause::Word)),
    }
}

/// What a line is, or its least cause: a byte that may not stand there, a broken quote, an unknown word, a wrong count of
/// tokens, a number, hex, a name. Bytes take memory.
pub fn read_line(alloc: Global, line: &[u8]) -> Result<Result<Item<'_>, Cause>, NoMemory>
    ensures { IfOk result (λ item. item ≡ line_item line.now) }
{
    let Some(rest) = from_first_token(line) else {
        return Ok(Ok(Item::Nothing));
    };
    if !all_may_stand(line) {
        return Ok(Err(Cause::Byte));
    }
    let Some(tokens) = Tokens::of(rest) else {
        return Ok(Err(Cause::Quote));
    };
    let [first, args @ ..] = tokens.all() else {
        return Ok(Ok(Item::Nothing));
    };
    said(alloc, first, args)
}
