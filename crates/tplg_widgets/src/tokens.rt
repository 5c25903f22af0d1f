// What a widget's tokens say.
ghost use Rattle.std.specs.Prelude.{◌≡◌, ◌≤◌, option_copied};
ghost use Rattle.sof_base.specs.Slots.{until_zero};
ghost use Rattle.tplg_model.specs.TokenValues as values;
ghost use Rattle.tplg_model.specs.declared.token_number.TheConstants.{COMP_FORMAT, PROCESS_TYPE};
ghost use Rattle.tplg_plan.specs.WidgetWords.{format_number};
ghost use Rattle.tplg_widgets.specs.Tokens as law;

use sof_base::Format;
use tplg_model::{NumberTuple, TextTuple, TokenArray, token_number};

/// What a widget says of its format.
#[derive(Clone, Copy, Debug, PartialEq, Eq)]
pub enum FormatToken {
    Absent,
    Known(Format),
    Unknown,
}

/// What a widget says of what it does.
#[derive(Clone, Copy, Debug, PartialEq, Eq)]
pub enum Process {
    Equaliser,
    Demux,
    Other,
}

/// A widget's tokens: a buffer's size in bytes and its caps, a DAI's number and direction (0 is playback, 1 is capture), a
/// scheduler's period in µs, priority, million instructions a second, frames a period and time domain, a volume's ramp type
/// and its milliseconds, and the period counts of sink and source, its format and what it does.
#[derive(Clone, Copy, Debug, PartialEq, Eq)]
pub struct WidgetTokens {
    pub size: Option<u32>,
    pub caps: Option<u32>,
    pub dai_index: Option<u32>,
    pub dai_direction: Option<u32>,
    pub period: Option<u32>,
    pub priority: Option<u32>,
    pub mips: Option<u32>,
    pub frames: Option<u32>,
    pub time_domain: Option<u32>,
    pub ramp_type: Option<u32>,
    pub ramp_ms: Option<u32>,
    pub periods_sink: Option<u32>,
    pub periods_source: Option<u32>,
    pub format: FormatToken,
    pub process: Process,
}

/// The number of the first element with a token.
fn first_number(items: &[NumberTuple], token: u32) -> Option<u32>
    ensures { result ≡ values.first_number items.now token }
{
    for item in items {
        if item.token == token {
            return Some(item.value);
        }
    }
    None
}

fn number_in(array: &TokenArray, token: u32) -> Option<u32>
    ensures { result ≡ values.first_number (values.number_tuples array.now) token }
{
    match array {
        TokenArray::Number(numbers) => first_number(numbers.items(), token),
        _ => None,
    }
}

/// The number of a token: its first element in the arrays of numbers.
pub fn number_of(arrays: &[TokenArray], token: u32) -> Option<u32>
    ensures { result ≡ values.number_of arrays.now token }
{
    for array in arrays {
        if let Some(number) = number_in(array, token) {
            return Some(number);
        }
    }
    None
}

/// The bytes before the first 0, or all.
pub fn before_zero(bytes: &[u8]) -> &[u8]
    ensures { result.now ≡ until_zero bytes.now }
{
    for i in 0..bytes.len() {
        if bytes[i] == 0 {
            return &bytes[..i];
        }
    }
    bytes
}

/// The text of the first element with a token.
fn first_text<'a>(items: &'a [TextTuple], token: u32) -> Option<&'a [u8]>
    ensures { option_copied result ≡ values.first_text items.now token }
{
    for item in items {
        if item.token == token {
            return Some(before_zero(&item.bytes));
        }
    }
    None
}

fn text_in<'a>(array: &'a TokenArray, token: u32) -> Option<&'a [u8]>
    ensures { option_copied result ≡ values.first_text (values.texts_in array.now) token }
{
    match array {
        TokenArray::Text(texts) => first_text(texts.items(), token),
        _ => None,
    }
}

/// The text of a token: its first element in the arrays of texts.
pub fn text_of<'a>(arrays: &'a [TokenArray], token: u32) -> Option<&'a [u8]>
    ensures { option_copied result ≡ values.text_of arrays.now token }
{
    for array in arrays {
        if let Some(text) = text_in(array, token) {
            return Some(text);
        }
    }
    None
}

fn named_format(text: &[u8]) -> FormatToken
    ensures { result ≡ law.named_format text.now }
{
    if text == b"s16le".as_slice() {
        FormatToken::Known(Format::S16)
    } else if text == b"s24le".as_slice() {
        FormatToken::Known(Format::S24)
    } else if text == b"s32le".as_slice() {
        FormatToken::Known(Format::S32)
    } else {
        FormatToken::Unknown
    }
}

fn format_token(arrays: &[TokenArray]) -> FormatToken
    ensures { result ≡ law.format_token (values.text_of arrays.now COMP_FORMAT) }
{
    match text_of(arrays, token_number::COMP_FORMAT) {
        None => FormatToken::Absent,
        Some(text) => named_format(text),
    }
}

fn named_process(text: &[u8]) -> Process
    ensures { result ≡ law.named_process text.now }
{
    if text == b"EQIIR".as_slice() {
        Process::Equaliser
    } else if text == b"DEMUX".as_slice() {
        Process::Demux
    } else {
        Process::Other
    }
}

/// What a widget says of what it does; `Other` where it says nothing.
pub fn process_token(arrays: &[TokenArray]) -> Process
    ensures { result ≡ law.process_token (values.text_of arrays.now PROCESS_TYPE) }
{
    match text_of(arrays, token_number::PROCESS_TYPE) {
        None => Process::Other,
        Some(text) => named_process(text),
    }
}

/// A widget's tokens by their numbers.
pub fn widget_tokens(arrays: &[TokenArray]) -> WidgetTokens
    ensures { result ≡ law.widget_tokens arrays.now }
{
    WidgetTokens {
        size: number_of(arrays, token_number::BUFFER_SIZE),
        caps: number_of(arrays, token_number::BUFFER_CAPS),
        dai_index: number_of(arrays, token_number::DAI_INDEX),
        dai_direction: number_of(arrays, token_number::DAI_DIRECTION),
        period: number_of(arrays, token_number::SCHED_PERIOD),
        priority: number_of(arrays, token_number::SCHED_PRIORITY),
        mips: number_of(arrays, token_number::SCHED_MIPS),
        frames: number_of(arrays, token_number::SCHED_FRAMES),
        time_domain: number_of(arrays, token_number::SCHED_TIME_DOMAIN),
        ramp_type: number_of(arrays, token_number::VOLUME_RAMP_TYPE),
        ramp_ms: number_of(arrays, token_number::VOLUME_RAMP_MS),
        periods_sink: number_of(arrays, token_number::PERIOD_SINK_COUNT),
        periods_source: number_of(arrays, token_number::PERIOD_SOURCE_COUNT),
        format: format_token(arrays),
        process: process_token(arrays),
    }
}

/// The format of a DAI's samples: S32 where it says none.
pub fn stated_format(token: FormatToken) -> Format
    ensures { result ≡ law.stated_format token }
{
    match token {
        FormatToken::Known(format) => format,
        _ => Format::S32,
    }
}

/// A format as messages number it.
pub fn format_number(format: Format) -> u32
    ensures value { result ≡ format_number format }
    ensures three { result ≤ 2 }
{
    match format {
        Format::S16 => 0,
        Format::S24 => 1,
        Format::S32 => 2,
    }
}
