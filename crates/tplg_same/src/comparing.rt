// Whether two plans are the same but for what no source carries.
ghost use Rattle.std.specs.Prelude.{◌≡◌, ◌==◌};
ghost use Rattle.std.specs.Str.{bytes_eq};
ghost use Rattle.tplg_same.specs.SameTest as law;

use crate::limits::{limits_in, same_limits};
use crate::same_items::{Same, same_items};
use sof_base::{Format, Name44};
use stream_law::{Comp, Edge, Graph, Join, Kind, Pipe, Setting};
use tplg_plan::{ControlKind, ControlPlan, Plan, StreamPlan, WidgetPlan};

fn kind_rank(kind: Kind) -> u32
    ensures { result ≡ law.kind_rank kind }
{
    match kind {
        Kind::HostPlay => 0,
        Kind::HostCapture => 1,
        Kind::Volume => 2,
        Kind::Mixer => 3,
        Kind::Mux => 4,
        Kind::Eq => 5,
        Kind::Demux => 6,
        Kind::DaiPlay(Format::S16) => 7,
        Kind::DaiPlay(Format::S24) => 8,
        Kind::DaiPlay(Format::S32) => 9,
        Kind::DaiCapture(Format::S16) => 10,
        Kind::DaiCapture(Format::S24) => 11,
        Kind::DaiCapture(Format::S32) => 12,
    }
}

impl Same for u32 {
    ghost same = { λ a b. a == b };

    fn same(&self, other: &u32) -> bool {
        *self == *other
    }
}

fn same_setting(one: &Setting, other: &Setting) -> bool
    ensures { result ≡ law.same_setting one.now other.now }
{
    match (one, other) {
        (Setting::Nothing, Setting::Nothing) => true,
        (Setting::Gains(gains), Setting::Gains(others)) => {
            same_items(gains.items(), others.items())
        }
        (Setting::Choice(choice), Setting::Choice(other)) => *choice == *other,
        (Setting::Blob(blob), Setting::Blob(other)) => blob.items() == other.items(),
        (Setting::Masks(masks), Setting::Masks(others)) => {
            same_items(masks.items(), others.items())
        }
        _ => false,
    }
}

fn same_option(one: Option<u32>, other: Option<u32>) -> bool
    ensures { result ≡ law.same_option one other }
{
    match (one, other) {
        (None, None) => true,
        (Some(a), Some(b)) => a == b,
        _ => false,
    }
}

fn same_bool(one: bool, other: bool) -> bool
    ensures { result ≡ law.same_bool one other }
{
    if one { other } else { !other }
}

impl Same for Comp {
    ghost same = { law.same_comp };

    fn same(&self, other: &Comp) -> bool {
        self.id == other.id
            && kind_rank(self.kind) == kind_rank(other.kind)
            && self.pipe == other.pipe
            && self.ramp == other.ramp
            && same_setting(&self.setting, &other.setting)
    }
}

impl Same for Edge {
    ghost same = { law.same_edge };

    fn same(&self, other: &Edge) -> bool {
        self.buffer == other.buffer
            && self.pipe == other.pipe
            && self.size == other.size
            && same_option(self.source, other.source)
            && same_option(self.sink, other.sink)
    }
}

impl Same for Pipe {
    ghost same = { law.same_pipe };

    fn same(&self, other: &Pipe) -> bool {
        self.id == other.id
            && self.index == other.index
            && self.sched == other.sched
            && self.period == other.period
            && same_bool(self.complete, other.complete)
    }
}

impl Same for Join {
    ghost same = { law.same_join };

    fn same(&self, other: &Join) -> bool {
        self.source == other.source && self.sink == other.sink
    }
}

impl Same for StreamPlan {
    ghost same = { law.same_stream };

    fn same(&self, other: &StreamPlan) -> bool {
        self.host == other.host
            && same_bool(self.capture, other.capture)
            && self.caps.name.as_bytes() == other.caps.name.as_bytes()
            && same_limits(&limits_in(&self.caps), &limits_in(&other.caps))
    }
}

impl Same for ControlKind {
    ghost same = { law.same_control_kind };

    fn same(&self, other: &ControlKind) -> bool {
        match (self, other) {
            (
                ControlKind::Volume {
                    min,
                    max,
                    channels,
                    tlv_min,
                    tlv_step,
                    tlv_mute,
                },
                ControlKind::Volume {
                    min: least,
                    max: most,
                    channels: count,
                    tlv_min: low,
                    tlv_step: step,
                    tlv_mute: mute,
                },
            ) => {
                *min == *least
                    && *max == *most
                    && *channels == *count
                    && *tlv_min == *low
                    && *tlv_step == *step
                    && *tlv_mute == *mute
            }
            (ControlKind::Choice { items }, ControlKind::Choice { items: count }) => {
                *items == *count
            }
            (
                ControlKind::Blob { max, initial },
                ControlKind::Blob {
                    max: most,
                    initial: bytes,
                },
            ) => *max == *most && initial.items() == bytes.items(),
            (
                ControlKind::Masks { min, max, channels },
                ControlKind::Masks {
                    min: least,
                    max: most,
                    channels: count,
                },
            ) => *min == *least && *max == *most && *channels == *count,
            _ => false,
        }
    }
}

impl Same for ControlPlan {
    ghost same = { law.same_control };

    fn same(&self, other: &ControlPlan) -> bool {
        self.comp == other.comp && self.kind.same(&other.kind)
    }
}

impl Same for Name44 {
    ghost same = { bytes_eq };

    fn same(&self, other: &Name44) -> bool {
        self.as_bytes() == other.as_bytes()
    }
}

impl Same for WidgetPlan {
    ghost same = { law.same_widget };

    fn same(&self, other: &WidgetPlan) -> bool {
        self.pipe == other.pipe
            && self.periods_sink == other.periods_sink
            && self.periods_source == other.periods_source
            && self.frame_fmt == other.frame_fmt
            && self.dai_index == other.dai_index
            && self.caps == other.caps
            && self.priority == other.priority
            && self.mips == other.mips
            && self.frames == other.frames
            && self.time_domain == other.time_domain
            && self.ramp_type == other.ramp_type
            && self.ramp_ms == other.ramp_ms
    }
}

fn same_graph(one: &Graph, other: &Graph) -> bool
    ensures { result ≡ law.same_graph one.now other.now }
{
    same_items(one.comps.items(), other.comps.items())
        && same_items(one.edges.items(), other.edges.items())
        && same_items(one.pipes.items(), other.pipes.items())
        && same_items(one.joins.items(), other.joins.items())
}

/// Whether two plans are the same but for what no source carries.
pub fn same_plans(one: &Plan, other: &Plan) -> bool
    ensures { result ≡ law.same_plans one.now other.now }
{
    same_graph(&one.graph, &other.graph)
        && same_items(one.streams.items(), other.streams.items())
        && same_items(one.controls.items(), other.controls.items())
        && same_items(one.names.items(), other.names.items())
        && same_items(one.widgets.items(), other.widgets.items())
}
