// What stands in a registry.
ghost use Rattle.std.specs.Prelude.{◌≡◌, ◌+◌, length, nat_le};
ghost use Rattle.stream_law.specs.Ways.{splits};
ghost use Rattle.fw_units.specs.Units.{is_past, is_buffer, is_pipeline, kind_by, piece_of, unit_frames, capacity_by};
ghost use Rattle.fw_units.specs.Values.{unit_values, takes_values};
ghost use Rattle.std.specs.List.{list_all};

use eq_biquad::Eq;
use fw_heap::Piece;
use fw_ring::Ring;
use ipc3_model::{CTRL_ENUM, CTRL_SWITCH, CTRL_VOLUME};
use sof_base::{Bounded, Format, Params};
use stream_law::Phase;

// The greatest gain, 256 in units of 1/65536.
const GREATEST_GAIN: u32 = 16_777_216;

// How many masks a demux has, one for each output, and the greatest: a bit for each of 8 channels.
const MASKS: usize = 8;

const GREATEST_MASK: u32 = 255;

/// What a component is, with its piece. A volume has its ramp in milliseconds, the gains from which it goes to those that are set,
/// how many of its frames are done, held at its end, and of how many it is. A demux has a mask for each output. An equaliser has the number of the part that is next and
/// how many bytes remain; a buffer has the components that are joined to it.
pub enum Unit {
    Host {
        capture: bool,
        phase: Phase,
        params: Option<Params>,
        piece: Piece,
    },
    Dai {
        capture: bool,
        format: Format,
        piece: Piece,
    },
    Volume {
        gains: Bounded<u32, 8>,
        ramp: u32,
        from: Bounded<u32, 8>,
        done: u32,
        length: u32,
        piece: Piece,
    },
    Mixer {
        piece: Piece,
    },
    Mux {
        choice: u32,
        piece: Piece,
    },
    Eq {
        eq: Eq,
        next: u32,
        remaining: u32,
    },
    Demux {
        masks: Bounded<u32, 8>,
        piece: Piece,
    },
    Buffer {
        size: u32,
        ring: Ring,
        source: Option<u32>,
        sink: Option<u32>,
    },
    Pipeline {
        sched: u32,
        period: u32,
        complete: bool,
        piece: Piece,
    },
}

/// A component, a buffer or a pipeline: its id, the index of its pipeline, how many channels it moves, and what it is.
pub struct Component {
    pub id: u32,
    pub pipe: u32,
    pub channels: u8,
    pub unit: Unit,
}

impl Unit {
    pub fn is_buffer(&self) -> bool
        ensures { result ≡ is_buffer self.now }
    {
        matches!(self, Unit::Buffer { .. })
    }

    pub fn is_pipeline(&self) -> bool
        ensures { result ≡ is_pipeline self.now }
    {
        matches!(self, Unit::Pipeline { .. })
    }

    /// Whether it splits what it takes among its outputs.
    pub fn splits(&self) -> bool
        ensures { result ≡ splits (kind_by self.now) }
    {
        matches!(self, Unit::Demux { .. })
    }

    /// Whether it is a volume past its ramp.
    pub fn is_past(&self) -> bool
        ensures { result ≡ is_past self.now }
    {
        match self {
            Unit::Volume { done, length, .. } => *length <= *done,
            _ => false,
        }
    }
}

impl Component {
    /// The piece that it holds.
    pub fn into_piece(self) -> Piece
        ensures { result ≡ piece_of self.unit }
    {
        let Component {
            id: _,
            pipe: _,
            channels: _,
            unit,
        } = self;
        match unit {
            Unit::Host {
                capture: _,
                phase: _,
                params: _,
                piece,
            } => piece,
            Unit::Dai {
                capture: _,
                format: _,
                piece,
            } => piece,
            Unit::Volume {
                gains: _,
                ramp: _,
                from: _,
                done: _,
                length: _,
                piece,
            } => piece,
            Unit::Mixer { piece } => piece,
            Unit::Mux { choice: _, piece } => piece,
            Unit::Eq {
                eq,
                next: _,
                remaining: _,
            } => eq.into_piece(),
            Unit::Demux { masks: _, piece } => piece,
            Unit::Buffer {
                size: _,
                ring,
                source: _,
                sink: _,
            } => ring.into_piece(),
            Unit::Pipeline {
                sched: _,
                period: _,
                complete: _,
                piece,
            } => piece,
        }
    }

    /// How many frames a buffer holds.
    pub fn held(&self) -> u32
        ensures { result ≡ length (unit_frames self.now.unit) }
    {
        match &self.unit {
            Unit::Buffer { ring, .. } => ring.len(),
            _ => 0,
        }
    }

    /// How many more frames a buffer has room for.
    pub fn room(&self) -> u32
        ensures { result + length (unit_frames self.now.unit) ≡ capacity_by self.now.unit }
    {
        match &self.unit {
            Unit::Buffer { ring, .. } => ring.free(),
            _ => 0,
        }
    }

    /// The values of a volume by CTRL_VOLUME, of a mux by CTRL_ENUM, and of a demux by CTRL_SWITCH.
    pub fn values(&self, command: u32) -> Option<Bounded<u32, 8>>
        ensures { result ≡ unit_values self.now.unit command }
    {
        match &self.unit {
            Unit::Volume { gains, .. } => {
                if command == CTRL_VOLUME {
                    Some(gains.copied())
                } else {
                    None
                }
            }
            Unit::Mux { choice, .. } => {
                if command == CTRL_ENUM {
                    Bounded::new(&[*choice])
                } else {
                    None
                }
            }
            Unit::Demux { masks, .. } => {
                if command == CTRL_SWITCH {
                    Some(masks.copied())
                } else {
                    None
                }
            }
            _ => None,
        }
    }

    /// Whether values can be set by a command.
    pub fn takes(&self, command: u32, values: &[u32]) -> bool
        ensures { result ≡ takes_values self.now.unit command values.now }
    {
        match &self.unit {
            Unit::Volume { gains, .. } => {
                command == CTRL_VOLUME && values.len() == gains.items().len() && are_gains(values)
            }
            Unit::Mux { .. } => command == CTRL_ENUM && values.len() == 1,
            Unit::Demux { .. } => {
                command == CTRL_SWITCH && values.len() == MASKS && are_masks(values)
            }
            _ => false,
        }
    }
}

// Whether no gain passes the greatest.
fn are_gains(gains: &[u32]) -> bool
    ensures { result ≡ list_all (λ v. nat_le v 16777216) gains.now }
{
    gains.iter().all(|gain| *gain <= GREATEST_GAIN)
}

// Whether no mask passes the greatest.
fn are_masks(masks: &[u32]) -> bool
    ensures { result ≡ list_all (λ v. nat_le v 255) masks.now }
{
    masks.iter().all(|mask| *mask <= GREATEST_MASK)
}
