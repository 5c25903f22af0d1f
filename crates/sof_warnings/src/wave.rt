// An input that is a WAV.
use sof_faults::ShownName;
use thiserror::Error;

/// The warning on an input that is a WAV, by the name of its file.
#[derive(Clone, Copy, Debug, Error)]
#[error("{}: a WAV is played with its header; see 'sound.py raw'", ShownName(.0))]
pub struct Wave<'a>(pub &'a str);
