//! The records of a topology file, after the ALSA topology structures (ABI 5): what each record is, and in `specs/` how a
//! file spells them.
#![tactic(auto)]

pub mod array_type;
mod block;
mod block_header;
pub mod block_type;
mod control;
pub mod control_kind;
mod fault;
mod laws;
mod pcm;
pub mod token_number;
mod tokens;
mod widget;
pub mod widget_kind;

pub use block::{Block, Body, Manifest, Route, Topology};
pub use block_header::{ABI, HEADER_BYTES, MAGIC};
pub use control::{Control, ControlHead};
pub use fault::TplgFault;
pub use laws::format_numbers;
pub use pcm::{Caps, Pcm, StreamRecord, Streams};
pub use tokens::{
    NumberArray, NumberTuple, TextArray, TextTuple, TokenArray, UuidArray, UuidTuple,
};
pub use widget::Widget;
