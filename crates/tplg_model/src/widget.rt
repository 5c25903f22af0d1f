// A widget.
use crate::control::Control;
use crate::tokens::TokenArray;
use sof_base::{Items, Name44};

/// A widget: its kind by number, its name and its stream's name, six words (reg, shift, mask, subseq, invert,
/// ignore_suspend), its event words, the vendor arrays of its private data, and its controls.
#[derive(Debug, Drop)]
pub struct Widget {
    pub id: u32,
    pub name: Name44,
    pub sname: Name44,
    pub words: [u32; 6],
    pub event_flags: u16,
    pub event_type: u16,
    pub tokens: Items<TokenArray>,
    pub controls: Items<Control>,
}
