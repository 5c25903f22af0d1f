// The words of `serve`.
ghost use Rattle.std.specs.Prelude.{◌≡◌, map, Some, None, MatchOption, codes, string_bytes};
ghost use Rattle.std.specs.Str.{bytes_eq};
ghost use Rattle.run_serve.specs.ServeWords.{serve_of, serve_names};

use run_words::is_file_name;

/// What `serve` is given: the name of the file of a driver's records, and that of the file of what comes back.
#[derive(Clone, Copy, Debug)]
pub struct ServeFiles<'a> {
    pub requests: &'a str,
    pub replies: &'a str,
}

fn is_serve(word: &str) -> bool
    ensures { result ≡ bytes_eq word.now (codes "serve") }
{
    word == "serve"
}

/// `serve REQUESTS REPLIES`: the names of its files.
pub fn serve_files(words: &[String]) -> Option<ServeFiles<'_>>
    ensures { MatchOption result
        (serve_of (map string_bytes words.now) ≡ None)
        (λ f. serve_of (map string_bytes words.now) ≡ Some (serve_names f.requests.now f.replies.now)) }
{
    if words.len() != 3 {
        return None;
    }
    let requests = words[1].as_str();
    let replies = words[2].as_str();
    if !is_serve(words[0].as_str()) {
        return None;
    }
    if !is_file_name(requests) {
        return None;
    }
    if !is_file_name(replies) {
        return None;
    }
    Some(ServeFiles { requests, replies })
}
