// A widget's controls.
use sof_base::{Items, Name44};

/// The head that every control has; its operation `info` is given by the control's kind.
#[derive(Debug, Drop)]
pub struct ControlHead {
    pub type_word: u32,
    pub name: Name44,
    pub access: u32,
    pub get: u32,
    pub put: u32,
    pub tlv_size: u32,
    pub tlv_type: u32,
    pub tlv: [u32; 32],
}

/// A control by its operation `info`: 1, 4 or 5. Channels are eight records of four words; an enum has 16 texts of 44 bytes
/// and 176 values.
#[derive(Debug, Drop)]
pub enum Control {
    Mixer {
        head: ControlHead,
        min: i32,
        max: i32,
        platform_max: i32,
        invert: u32,
        num_channels: u32,
        channels: [u32; 32],
        private: Items<u8>,
    },
    Enum {
        head: ControlHead,
        num_channels: u32,
        channels: [u32; 32],
        items: u32,
        mask: u32,
        count: u32,
        texts: [u8; 704],
        values: [u32; 176],
        private: Items<u8>,
    },
    Bytes {
        head: ControlHead,
        max: u32,
        mask: u32,
        base: u32,
        num_regs: u32,
        ext_ops: [u32; 3],
        private: Items<u8>,
    },
}
