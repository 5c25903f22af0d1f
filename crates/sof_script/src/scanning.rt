// The tokens of a line.
ghost use Rattle.std.specs.Prelude.{◌≡◌, ◌⊎◌, ◌+◌, ◌<◌, ◌≤◌, [], length, true, false, MatchOption, None, Some, if◌then◌else◌};
ghost use Rattle.sof_script.specs.Splitting.{tokens_of, tokens_from, Quoted, Behind, is_blank, is_plain_byte, all_plain, is_skipped};
ghost use Rattle.sof_script.specs.TokenStarts.{IsBare, StartsToken, first_token};

// A blank or a tab.
fn is_separator(byte: u8) -> bool
    ensures { result ≡ is_blank byte }
{
    byte == b' ' || byte == b'\t'
}

// 0x20 to 0x7E, or a tab.
fn may_stand(byte: u8) -> bool
    ensures { result ≡ is_plain_byte byte }
{
    (b' ' <= byte && byte <= b'~') || byte == b'\t'
}

/// Whether each byte may stand on a line.
pub fn all_may_stand(bytes: &[u8]) -> bool
    ensures { result ≡ all_plain bytes.now }
{
    for byte in bytes {
        if !may_stand(*byte) {
            return false;
        }
    }
    true
}

/// A line from its first token on; none where it is skipped.
pub fn from_first_token(line: &[u8]) -> Option<&[u8]>
    ensures { MatchOption result
        (is_skipped line.now ≡ true)
        (λ rest. (is_skipped line.now ≡ false) × (tokens_of rest.now ≡ tokens_of line.now)) }
{
    let rest = skip_blanks(line);
    if rest.is_empty() {
        return None;
    }
    if rest[0] == b'#' {
        return None;
    }
    Some(rest)
}

/// Bytes from the first one on that separates nothing.
pub fn skip_blanks(bytes: &[u8]) -> &[u8]
    ensures tokens { tokens_of result.now ≡ tokens_of bytes.now }
    ensures skipped { is_skipped result.now ≡ is_skipped bytes.now }
    ensures first { (result.now ≡ []) ⊎ StartsToken result.now }
    ensures fewer { length result.now ≤ length bytes.now }
{
    let mut at = 0;
    while at < bytes.len() && is_separator(bytes[at]) {
        at += 1;
    }
    bytes.split_at(at).1
}

// A token that begins with the first byte and ends before a separator, and the bytes after it.
fn bare_token(bytes: &[u8]) -> (&[u8], &[u8])
    requires { IsBare bytes.now }
    ensures tokens { tokens_of bytes.now ≡ first_token result.0.now (tokens_of result.1.now) }
    ensures fewer { length result.1.now < length bytes.now }
{
    let mut end = 1;
    while end < bytes.len() && !is_separator(bytes[end]) {
        end += 1;
    }
    bytes.split_at(end)
}

// Whether a quoted token may end before these bytes: there are none, or a separator comes first.
fn ends_token(rest: &[u8]) -> bool
    ensures { tokens_from Behind rest.now ≡ (if result then first_token [] (tokens_of rest.now) else None) }
{
    match rest {
        [] => true,
        [byte, ..] => is_separator(*byte),
    }
}

// What is before the next double quote, and the bytes after that; none where there is none, or no separator follows it.
fn quoted_token(bytes: &[u8]) -> Option<(&[u8], &[u8])>
    ensures { MatchOption result
        (tokens_from Quoted bytes.now ≡ None)
        (λ found. (tokens_from Quoted bytes.now ≡ first_token found.0.now (tokens_of found.1.now))
        × (length found.1.now < length bytes.now)) }
{
    let mut end = 0;
    while end < bytes.len() {
        if bytes[end] == b'"' {
            let rest = bytes.split_at(end + 1).1;
            return if ends_token(rest) {
                Some((bytes.split_at(end).0, rest))
            } else {
                None
            };
        }
        end += 1;
    }
    None
}

/// The token that bytes begin with, and the bytes after it; none where its quote is not closed, or no separator follows it.
pub fn next_token(bytes: &[u8]) -> Option<(&[u8], &[u8])>
    requires { StartsToken bytes.now }
    ensures { MatchOption result
        (tokens_of bytes.now ≡ None)
        (λ found. (tokens_of bytes.now ≡ first_token found.0.now (tokens_of found.1.now)) × (length found.1.now < length bytes.now)) }
{
    if bytes[0] == b'"' {
        quoted_token(bytes.split_at(1).1)
    } else {
        Some(bare_token(bytes))
    }
}
