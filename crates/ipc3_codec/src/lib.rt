//! Messages and replies as bytes: how one is encoded into at most 384 bytes, and how bytes are decoded, with the first fault
//! and its place. What they are stands in ipc3_model.
#![tactic(auto)]

// A message.
mod component_reading;
mod message_reading;
mod message_writing;
mod stream_reading;
mod stream_writing;

// A reply.
mod reply_reading;
mod reply_writing;

// The words of both.
mod allowed_words;
mod control_reading;
mod control_writing;
mod frame;
mod written_words;

pub use ipc3_model::{
    Body, CTRL_ENUM, CTRL_SWITCH, CTRL_VOLUME, CodecFault, CompWords, Message, Reply, command,
    component_type, messages_are_decoded, replies_are_decoded,
};
pub use message_reading::decode;
pub use message_writing::encode;
pub use reply_reading::decode_reply;
pub use reply_writing::encode_reply;
