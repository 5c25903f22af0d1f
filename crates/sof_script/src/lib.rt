//! Scripts and transcripts: the bindings and commands of a script's lines, and the text that is said for an answer.
#![tactic(auto)]

mod answer;
mod blob;
mod fault_causes;
mod file_name;
mod items;
mod kinds;
mod line_tokens;
mod lines;
mod reading;
mod scanning;
mod script;
pub mod values;
mod words;

pub use answer::{say_bytes, say_values, write_answer};
pub use blob::Blob;
pub use fault_causes::{Cause, cause_word};
pub use file_name::FileName;
pub use kinds::{format_words, kind_words};
pub use line_tokens::Tokens;
pub use lines::{before_return, first_line};
pub use reading::{ScriptFault, parse};
pub use scanning::from_first_token;
pub use script::{Binding, Command, Numbered, Script, ticks};
pub use sof_base::Line;
pub use values::numbers_are_decimal;
