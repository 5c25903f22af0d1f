// What units are in a graph, and how many buffers a component takes.
ghost use Rattle.std.specs.Prelude.{◌≡◌};
ghost use Rattle.stream_law.specs.Joins.{kind_ins, kind_outs, fits_kind, is_right_number as is_right};
ghost use Rattle.stream_law.specs.Ways.{is_play, is_capture};
ghost use Rattle.fw_units.specs.Units.{kind_by, source_by, sink_by};

use fw_components::Unit;
use stream_law::Kind;

/// The kind of a unit; that of a mixer for a buffer and a pipeline, which have none.
pub fn kind_of(unit: &Unit) -> Kind
    ensures { result ≡ kind_by unit.now }
{
    match unit {
        Unit::Host { capture, .. } => {
            if *capture {
                Kind::HostCapture
            } else {
                Kind::HostPlay
            }
        }
        Unit::Dai {
            capture,
            format,
            ..
        } => {
            if *capture {
                Kind::DaiCapture(*format)
            } else {
                Kind::DaiPlay(*format)
            }
        }
        Unit::Volume { .. } => Kind::Volume,
        Unit::Mixer { .. } => Kind::Mixer,
        Unit::Mux { .. } => Kind::Mux,
        Unit::Eq { .. } => Kind::Eq,
        Unit::Demux { .. } => Kind::Demux,
        Unit::Buffer { .. } => Kind::Mixer,
        Unit::Pipeline { .. } => Kind::Mixer,
    }
}

/// Whether a unit is a playback's host.
pub fn plays(unit: &Unit) -> bool
    ensures { result ≡ is_play (kind_by unit.now) }
{
    matches!(kind_of(unit), Kind::HostPlay)
}

/// Whether a unit is a capture's host.
pub fn captures(unit: &Unit) -> bool
    ensures { result ≡ is_capture (kind_by unit.now) }
{
    matches!(kind_of(unit), Kind::HostCapture)
}

/// The component that a buffer comes from.
pub fn source_in(unit: &Unit) -> Option<u32>
    ensures { result ≡ source_by unit.now }
{
    match unit {
        Unit::Buffer { source, .. } => *source,
        _ => None,
    }
}

/// The component that a buffer goes to.
pub fn sink_in(unit: &Unit) -> Option<u32>
    ensures { result ≡ sink_by unit.now }
{
    match unit {
        Unit::Buffer { sink, .. } => *sink,
        _ => None,
    }
}

/// The greatest number of buffers into a component.
pub fn ins_of(kind: Kind) -> usize
    ensures { result ≡ kind_ins kind }
{
    match kind {
        Kind::HostPlay | Kind::DaiCapture(_) => 0,
        Kind::Mixer | Kind::Mux => 8,
        _ => 1,
    }
}

/// The greatest number of buffers out of a component.
pub fn outs_of(kind: Kind) -> usize
    ensures { result ≡ kind_outs kind }
{
    match kind {
        Kind::HostCapture | Kind::DaiPlay(_) => 0,
        Kind::Demux => 8,
        _ => 1,
    }
}

/// Whether a component may play with so many buffers into it and out of it.
pub fn fits(kind: Kind, ins: usize, outs: usize) -> bool
    ensures { result ≡ fits_kind kind ins outs }
{
    is_right_number(ins_of(kind), ins) && is_right_number(outs_of(kind), outs)
}

// Whether so many buffers are a right number where at most `most` may be.
fn is_right_number(most: usize, n: usize) -> bool
    ensures { result ≡ is_right most n }
{
    match most {
        0 => n == 0,
        1 => n == 1,
        _ => 1 <= n && n <= most,
    }
}
