//! The tokens of a widget's private data, by their numbers in a file.

/// A buffer's size in bytes.
pub const BUFFER_SIZE: u32 = 100;
/// Which memory a buffer is to have.
pub const BUFFER_CAPS: u32 = 101;
/// A DAI's type, a text.
pub const DAI_TYPE: u32 = 154;
/// A DAI's number.
pub const DAI_INDEX: u32 = 155;
/// A DAI's direction: 0 is playback, 1 is capture.
pub const DAI_DIRECTION: u32 = 156;
/// A scheduler's period in microseconds.
pub const SCHED_PERIOD: u32 = 200;
/// A scheduler's priority.
pub const SCHED_PRIORITY: u32 = 201;
/// What a scheduler's pipeline needs, in million instructions a second.
pub const SCHED_MIPS: u32 = 202;
/// A scheduler's core.
pub const SCHED_CORE: u32 = 203;
/// A scheduler's frames a period.
pub const SCHED_FRAMES: u32 = 204;
/// A scheduler's time domain.
pub const SCHED_TIME_DOMAIN: u32 = 205;
/// How a volume's ramp goes.
pub const VOLUME_RAMP_TYPE: u32 = 250;
/// How long a volume's ramp takes, in milliseconds.
pub const VOLUME_RAMP_MS: u32 = 251;
/// A component's periods in its sink.
pub const PERIOD_SINK_COUNT: u32 = 400;
/// A component's periods in its source.
pub const PERIOD_SOURCE_COUNT: u32 = 401;
/// A component's format, a text.
pub const COMP_FORMAT: u32 = 402;
/// A component's UUID.
pub const COMP_UUID: u32 = 405;
/// What an effect does, a text.
pub const PROCESS_TYPE: u32 = 900;
