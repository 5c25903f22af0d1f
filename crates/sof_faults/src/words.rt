// What is wrong with the words of a command line.
use crate::shown::Quoted;
use run_words::{is_file_name, number_in};
use std::fmt;
use std::fmt::Display;
use thiserror::Error;

/// What is wrong with the words after the program's name.
#[derive(Clone, Copy, Debug, Drop, Error)]
pub enum WordsFault<'a> {
    #[error("no form is given; try 'sof --help'")]
    Nothing,
    #[error("{0} is no form; try 'sof --help'")]
    NoForm(Quoted<'a>),
    #[error("{0} stands alone")]
    NotAlone(Quoted<'a>),
    #[error("'{form}' takes {takes}, and {given} {words} after it", words = words_stand(*.given))]
    Count {
        form: &'static str,
        takes: Takes,
        given: usize,
    },
    #[error("usage: sof {form} {takes}; 'sof --help' tells more")]
    Usage {
        form: &'static str,
        takes: Takes,
    },
    #[error("usage: sof FORM ..; 'sof --help' tells the forms")]
    Help,
    #[error("HEAP is at most {0}, in decimal")]
    Heap(u32),
    #[error("N is from 1 to 1000, in decimal")]
    Seed,
    #[error("{0} is the name of a file, of 1 to 255 bytes")]
    File(&'static str),
}

// `words stand`, of so many.
fn words_stand(given: usize) -> &'static str {
    if given == 1 {
        "word stands"
    } else {
        "words stand"
    }
}

/// The words that a form takes, each as the help names it.
#[derive(Clone, Copy, Debug)]
pub struct Takes(&'static [&'static str]);

impl Display for Takes {
    fn fmt<W: fmt::Write>(&self, f: &mut fmt::Formatter<W>) -> fmt::Result {
        let mut between = "";
        for word in self.0 {
            write!(f, "{between}{word}")?;
            between = " ";
        }
        Ok(())
    }
}

// Each form's word, and the words that it takes.
const FORMS: [(&str, Takes); 12] = [
    ("play", Takes(&["HEAP", "TOPOLOGY", "SCRIPT"])),
    ("dynamic", Takes(&["HEAP", "TOPOLOGY", "SCRIPT"])),
    ("check", Takes(&["TOPOLOGY"])),
    ("graph", Takes(&["TOPOLOGY"])),
    ("compile", Takes(&["SOURCE", "OUT"])),
    ("source", Takes(&["TOPOLOGY", "OUT"])),
    ("stress", Takes(&["N"])),
    ("trace", Takes(&["HEAP", "TOPOLOGY", "SCRIPT", "TRACE"])),
    ("decode", Takes(&["TRACE"])),
    ("replay", Takes(&["TRACE"])),
    ("serve", Takes(&["REQUESTS", "REPLIES"])),
    (
        "drive",
        Takes(&["HEAP", "TOPOLOGY", "SCRIPT", "REQUESTS", "REPLIES"]),
    ),
];

// The form of a word, and the words that it takes.
fn form_of(word: &str) -> Option<(&'static str, Takes)> {
    for form in &FORMS {
        if form.0 == word {
            return Some(*form);
        }
    }
    None
}

// What is wrong with a word that stands where the help has this name.
fn word_fault(name: &'static str, word: &str, room: u32) -> Option<WordsFault<'static>> {
    match name {
        "HEAP" if number_in(word.as_bytes(), 0, room).is_none() => Some(WordsFault::Heap(room)),
        "N" if number_in(word.as_bytes(), 1, 1000).is_none() => Some(WordsFault::Seed),
        "HEAP" | "N" => None,
        _ if is_file_name(word) => None,
        _ => Some(WordsFault::File(name)),
    }
}

// Whether the words after that of a form ask how it is used, or are none.
fn asks_usage(words: &[String]) -> bool {
    match words {
        [] => true,
        [word] => word.as_str() == "--help" || word.as_str() == "-h",
        _ => false,
    }
}

// What is said where help is asked for by a word, maybe on a form.
fn help_fault(words: &[String]) -> WordsFault<'static> {
    let [word] = words else {
        return WordsFault::Help;
    };
    match form_of(word.as_str()) {
        Some((form, takes)) => WordsFault::Usage { form, takes },
        None => WordsFault::Help,
    }
}

// What is wrong with the words after that of a form.
fn form_fault(
    form: &'static str,
    takes: Takes,
    words: &[String],
    room: u32,
) -> Option<WordsFault<'static>> {
    let given = words.len();
    if given != takes.0.len() {
        return Some(WordsFault::Count { form, takes, given });
    }
    for (name, word) in takes.0.iter().zip(words) {
        let fault = word_fault(*name, word.as_str(), room);
        if fault.is_some() {
            return fault;
        }
    }
    None
}

/// What is wrong with words that have none of the forms, over a device with a room of so many bytes; none where nothing is.
pub fn words_fault(words: &[String], room: u32) -> Option<WordsFault<'_>> {
    let [word, after @ ..] = words else {
        return Some(WordsFault::Nothing);
    };
    let quoted = Quoted(word.as_bytes());
    match word.as_str() {
        "--help" | "--version" | "-h" | "-V" => return Some(WordsFault::NotAlone(quoted)),
        "help" => return Some(help_fault(after)),
        _ => {}
    }
    match form_of(word.as_str()) {
        Some((form, takes)) => match form_fault(form, takes, after, room) {
            Some(_) if asks_usage(after) => Some(WordsFault::Usage { form, takes }),
            fault => fault,
        },
        None => Some(WordsFault::NoForm(quoted)),
    }
}
