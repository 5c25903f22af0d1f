//! The messages between host and firmware, after SOF's IPC3 (ABI 3): what each word of a message or a reply is, and in `specs/`
//! how bytes carry one, with the first fault and its place.
#![tactic(auto)]

pub mod command;
pub mod component_type;
pub mod control_kind;
mod fault;
mod laws;
mod message;
mod numbers;
mod reply;

pub use control_kind::{CTRL_ENUM, CTRL_SWITCH, CTRL_VOLUME};
pub use fault::CodecFault;
pub use laws::{messages_are_decoded, replies_are_decoded};
pub use message::{CompWords, Message};
pub use numbers::format_numbers;
pub use reply::{Body, Reply, bare_reply};
