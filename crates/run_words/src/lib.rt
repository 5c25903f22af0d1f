//! The words of a command line: what they ask for.
#![tactic(auto)]

mod words;

pub use words::{Form, Names, Request, SourceFiles, is_file_name, number_in, read_request};
