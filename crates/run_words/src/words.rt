// The form of the words.
ghost use Rattle.std.specs.Prelude.{◌≡◌, ◌≤◌, map, option_map, MatchOption, IfSome, codes, string_bytes};
ghost use Rattle.std.specs.Result.{result_ok};
ghost use Rattle.std.specs.Str.{bytes_eq};
ghost use Rattle.sof_script.specs.ValueForms.{number_value};
ghost use Rattle.run_words.specs.Words.{play_of, untraced_by, traced_of, named_by, is_file_name};
ghost use Rattle.run_words.specs.FormParts.{form, names, source_files};
ghost use Rattle.run_words.specs.ToolForms.{compile_of, source_files_of, stress_of};
ghost use Rattle.run_words.specs.Requests.{request_of};
ghost use Rattle.run_words.specs.ReadRequests.{request};

use sof_script::values::number;

/// What `play`, `dynamic` and `trace` are given: whether pipelines are made on use, the heap in bytes, the names of two files, and that of
/// the trace that is kept, if one is.
#[derive(Clone, Copy, Debug)]
pub struct Form<'a> {
    pub on_use: bool,
    pub heap: u32,
    pub topology: &'a str,
    pub script: &'a str,
    pub trace: Option<&'a str>,
}

/// A decimal number without a needless leading zero, from `least` to `most`.
pub fn number_in(word: &[u8], least: u32, most: u32) -> Option<u32>
    ensures value { result ≡ result_ok (number_value least most word.now) }
    ensures most { IfSome result (λ n. n ≤ most) }
{
    match number(word, least, most) {
        Ok(n) => Some(n),
        Err(_cause) => None,
    }
}

/// Whether a word is the name of a file, which has 1 to 255 bytes.
pub fn is_file_name(name: &str) -> bool
    ensures { result ≡ is_file_name name.now }
{
    name.len() >= 1 && name.len() <= 255
}

// Whether a word is the other one.
fn is_word(word: &str, other: &str) -> bool
    ensures { result ≡ bytes_eq word.now other.now }
{
    word == other
}

// Such a word, then HEAP TOPOLOGY SCRIPT, with a heap of at most `room` bytes.
fn read_untraced<'a>(words: &'a [String], word: &str, on_use: bool, room: u32) -> Option<Form<'a>>
    ensures { MatchOption result
        (untraced_by word.now on_use room (map string_bytes words.now) ≡ None)
        (λ f. untraced_by word.now on_use room (map string_bytes words.now) ≡ Some (form f.on_use f.heap f.topology.now f.script.now (option_map (λ name. name.now) f.trace))) }
{
    if words.len() != 4 {
        return None;
    }
    let topology = words[2].as_str();
    let script = words[3].as_str();
    if !is_word(words[0].as_str(), word) {
        return None;
    }
    let Some(heap) = number_in(words[1].as_bytes(), 0, room) else {
        return None;
    };
    if !is_file_name(topology) {
        return None;
    }
    if !is_file_name(script) {
        return None;
    }
    Some(Form {
        on_use,
        heap,
        topology,
        script,
        trace: None,
    })
}

fn is_trace(word: &str) -> bool
    ensures { result ≡ bytes_eq word.now (codes "trace") }
{
    word == "trace"
}

// `trace HEAP TOPOLOGY SCRIPT TRACE`, with a heap of at most `room` bytes.
fn read_traced<'a>(words: &'a [String], room: u32) -> Option<Form<'a>>
    ensures { MatchOption result
        (traced_of room (map string_bytes words.now) ≡ None)
        (λ f. traced_of room (map string_bytes words.now) ≡ Some (form f.on_use f.heap f.topology.now f.script.now (option_map (λ name. name.now) f.trace))) }
{
    if words.len() != 5 {
        return None;
    }
    let topology = words[2].as_str();
    let script = words[3].as_str();
    let trace = words[4].as_str();
    if !is_trace(words[0].as_str()) {
        return None;
    }
    let Some(heap) = number_in(words[1].as_bytes(), 0, room) else {
        return None;
    };
    if !is_file_name(topology) {
        return None;
    }
    if !is_file_name(script) {
        return None;
    }
    if !is_file_name(trace) {
        return None;
    }
    Some(Form {
        on_use: false,
        heap,
        topology,
        script,
        trace: Some(trace),
    })
}

// The words of a play, in one of its modes, of which a trace may be kept.
fn read_play<'a>(words: &'a [String], room: u32) -> Option<Form<'a>>
    ensures { MatchOption result
        (play_of room (map string_bytes words.now) ≡ None)
        (λ f. play_of room (map string_bytes words.now) ≡ Some (form f.on_use f.heap f.topology.now f.script.now (option_map (λ name. name.now) f.trace))) }
{
    if let Some(form) = read_untraced(words, "play", false, room) {
        return Some(form);
    }
    if let Some(form) = read_untraced(words, "dynamic", true, room) {
        return Some(form);
    }
    read_traced(words, room)
}

// `check TOPOLOGY`, `graph TOPOLOGY`, `decode TRACE`, `replay TRACE`: the name of the file after this word.
fn read_named<'a>(words: &'a [String], word: &str) -> Option<&'a str>
    ensures { MatchOption result
        (named_by word.now (map string_bytes words.now) ≡ None)
        (λ name. named_by word.now (map string_bytes words.now) ≡ Some name.now) }
{
    if words.len() != 2 {
        return None;
    }
    let name = words[1].as_str();
    if !is_word(words[0].as_str(), word) {
        return None;
    }
    if !is_file_name(name) {
        return None;
    }
    Some(name)
}

/// What `compile` is given: the names of a source and of the file that is made.
#[derive(Clone, Copy, Debug)]
pub struct Names<'a> {
    pub source: &'a str,
    pub out: &'a str,
}

fn is_compile(word: &str) -> bool
    ensures { result ≡ bytes_eq word.now (codes "compile") }
{
    word == "compile"
}

// `compile SOURCE OUT`: the names of its files.
fn read_compile(words: &[String]) -> Option<Names<'_>>
    ensures { MatchOption result
        (compile_of (map string_bytes words.now) ≡ None)
        (λ n. compile_of (map string_bytes words.now) ≡ Some (names n.source.now n.out.now)) }
{
    if words.len() != 3 {
        return None;
    }
    let source = words[1].as_str();
    let out = words[2].as_str();
    if !is_compile(words[0].as_str()) {
        return None;
    }
    if !is_file_name(source) {
        return None;
    }
    if !is_file_name(out) {
        return None;
    }
    Some(Names { source, out })
}

/// What `source` is given: the names of a topology and of the source that is made.
#[derive(Clone, Copy, Debug)]
pub struct SourceFiles<'a> {
    pub topology: &'a str,
    pub out: &'a str,
}

fn is_source(word: &str) -> bool
    ensures { result ≡ bytes_eq word.now (codes "source") }
{
    word == "source"
}

// `source TOPOLOGY OUT`: the names of its files.
fn read_source(words: &[String]) -> Option<SourceFiles<'_>>
    ensures { MatchOption result
        (source_files_of (map string_bytes words.now) ≡ None)
        (λ f. source_files_of (map string_bytes words.now) ≡ Some (source_files f.topology.now f.out.now)) }
{
    if words.len() != 3 {
        return None;
    }
    let topology = words[1].as_str();
    let out = words[2].as_str();
    if !is_source(words[0].as_str()) {
        return None;
    }
    if !is_file_name(topology) {
        return None;
    }
    if !is_file_name(out) {
        return None;
    }
    Some(SourceFiles { topology, out })
}

fn is_stress(word: &str) -> bool
    ensures { result ≡ bytes_eq word.now (codes "stress") }
{
    word == "stress"
}

// `stress N`: its number, from 1 to 1000.
fn read_stress(words: &[String]) -> Option<u32>
    ensures value { result ≡ stress_of (map string_bytes words.now) }
    ensures most { IfSome result (λ seed. seed ≤ 1000) }
{
    if words.len() != 2 {
        return None;
    }
    if !is_stress(words[0].as_str()) {
        return None;
    }
    number_in(words[1].as_bytes(), 1, 1000)
}

/// What the words of a command line ask for.
#[derive(Clone, Copy, Debug)]
pub enum Request<'a> {
    /// A script is played over the graph of a topology, whose pipelines may be made on use, and a trace of it may be kept.
    Play(Form<'a>),
    /// The topology file of this name is checked.
    Check(&'a str),
    /// The picture of the topology file of this name is said.
    Picture(&'a str),
    /// The topology file of a source is made.
    Compile(Names<'a>),
    /// The file of a topology's source is made.
    Source(SourceFiles<'a>),
    /// What this number draws, from 1 to 1000, is carried out.
    Stress(u32),
    /// The trace of this name is described in words.
    Decode(&'a str),
    /// The trace of this name is given to the device.
    Replay(&'a str),
}

/// What the words ask for, over a device with a room of so many bytes.
pub fn read_request(words: &[String], room: u32) -> Option<Request<'_>>
    ensures { MatchOption result
        (request_of room (map string_bytes words.now) ≡ None)
        (λ r. request_of room (map string_bytes words.now) ≡ Some (request r)) }
{
    if let Some(form) = read_play(words, room) {
        return Some(Request::Play(form));
    }
    if let Some(name) = read_named(words, "check") {
        return Some(Request::Check(name));
    }
    if let Some(name) = read_named(words, "graph") {
        return Some(Request::Picture(name));
    }
    if let Some(names) = read_compile(words) {
        return Some(Request::Compile(names));
    }
    if let Some(files) = read_source(words) {
        return Some(Request::Source(files));
    }
    if let Some(seed) = read_stress(words) {
        return Some(Request::Stress(seed));
    }
    if let Some(name) = read_named(words, "decode") {
        return Some(Request::Decode(name));
    }
    let name = read_named(words, "replay")?;
    Some(Request::Replay(name))
}
