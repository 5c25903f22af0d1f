// Streams, and what is Live and Active.
ghost use Rattle.std.specs.Prelude.{◌≡◌};
ghost use Rattle.stream_law.specs.Ways.{live as is_live, active as is_active};
ghost use Rattle.fw_components.specs.Tables.{view_by};
ghost use Rattle.fw_walks.specs.Streams.{is_sort, any_stream};

use fw_components::{Registry, Unit};
use stream_law::Phase;

/// Which streams are asked for: all, those that are Running or Paused, or those that have parameters.
#[derive(Clone, Copy)]
pub enum Sort {
    All,
    Live,
    Set,
}

/// Whether a component or a buffer is on the way of a stream that is Running or Paused.
pub fn live(registry: &Registry, id: u32) -> bool
    ensures { result ≡ is_live (view_by registry.now) id }
{
    registry.counts(id).1 > 0
}

/// Whether a component or a buffer is on the way of a stream that is Running.
pub fn active(registry: &Registry, id: u32) -> bool
    ensures { result ≡ is_active (view_by registry.now) id }
{
    registry.counts(id).0 > 0
}

/// Whether a unit is a host whose stream is of a sort.
pub fn has_stream(unit: &Unit, sort: Sort) -> bool
    ensures { result ≡ any_stream (is_sort sort) 0 unit.now }
{
    match unit {
        Unit::Host { phase, params, .. } => match sort {
            Sort::All => true,
            Sort::Live => matches!(phase, Phase::Running | Phase::Paused),
            Sort::Set => params.is_some(),
        },
        _ => false,
    }
}
