// What a source states of a topology.
ghost use Rattle.std.specs.Prelude.{◌≡◌, ◌∷◌, ◌++◌, [], IfOk};
ghost use Rattle.tplg_build.specs.WidgetForm as form;

use crate::choices::Choices;
use crate::tokens::text_tuple;
use sof_base::{Items, Name44, NoMemory};
use std::alloc::Global;
use tplg_model::{NumberTuple, TextTuple, widget_kind as kind};

/// A topology as a source states it: its widgets, routes and PCMs, each list in its order.
#[derive(Debug, Drop)]
pub struct TopologySource {
    pub widgets: Items<SourceWidget>,
    pub routes: Items<SourceRoute>,
    pub pcms: Items<SourcePcm>,
}

/// A widget's kind.
#[derive(Clone, Copy, Debug, PartialEq, Eq)]
pub enum WidgetKind {
    Input,
    Output,
    Mux,
    Mixer,
    Pga,
    AifIn,
    AifOut,
    DaiIn,
    DaiOut,
    Buffer,
    Scheduler,
    Effect,
}

/// A widget: its kind, its names, its pipeline's index, its tokens with numbers and with texts in any order, and its controls.
#[derive(Debug, Drop)]
pub struct SourceWidget {
    pub kind: WidgetKind,
    pub name: Name44,
    pub sname: Name44,
    pub index: u32,
    pub numbers: Items<NumberTuple>,
    pub texts: Items<TextTuple>,
    pub controls: Items<SourceControl>,
}

/// A control by the widgets that have it: a pga's volume, a mux's choice, an effect's blob. The levels of a volume are steps,
/// its scale's least and step are hundredths of a decibel.
#[derive(Debug, Drop)]
pub enum SourceControl {
    Volume {
        name: Name44,
        channels: u32,
        min: i32,
        max: i32,
        tlv_min: i32,
        tlv_step: u32,
        tlv_mute: u32,
    },
    Choice {
        name: Name44,
        items: Choices,
    },
    Blob {
        name: Name44,
        max: u32,
        blob: Items<u8>,
    },
}

/// A route from one widget to another, by their names.
#[derive(Debug, Drop)]
pub struct SourceRoute {
    pub source: Name44,
    pub sink: Name44,
}

/// What a PCM can do: bits of formats (2 for S16_LE, 6 for S24_LE, 10 for S32_LE), frames a second, and channels.
#[derive(Clone, Copy, Debug, PartialEq, Eq)]
pub struct PcmLimits {
    pub formats: u64,
    pub rate_min: u32,
    pub rate_max: u32,
    pub channels_min: u32,
    pub channels_max: u32,
}

/// A PCM, with the names of its caps in the directions that it has.
#[derive(Debug, Drop)]
pub struct SourcePcm {
    pub name: Name44,
    pub id: u32,
    pub limits: PcmLimits,
    pub playback: Option<Name44>,
    pub capture: Option<Name44>,
}

impl WidgetKind {
    /// Its number in a topology file.
    pub fn number(self) -> u32
        ensures { result ≡ form.kind_number self }
    {
        match self {
            WidgetKind::Input => kind::INPUT,
            WidgetKind::Output => kind::OUTPUT,
            WidgetKind::Mux => kind::MUX,
            WidgetKind::Mixer => kind::MIXER,
            WidgetKind::Pga => kind::PGA,
            WidgetKind::AifIn => kind::AIF_IN,
            WidgetKind::AifOut => kind::AIF_OUT,
            WidgetKind::DaiIn => kind::DAI_IN,
            WidgetKind::DaiOut => kind::DAI_OUT,
            WidgetKind::Buffer => kind::BUFFER,
            WidgetKind::Scheduler => kind::SCHEDULER,
            WidgetKind::Effect => kind::EFFECT,
        }
    }
}

impl TopologySource {
    /// Nothing stated.
    pub fn new(alloc: Global) -> TopologySource
        ensures { result ≡ record { widgets = []; routes = []; pcms = [] } }
    {
        TopologySource {
            widgets: Items::new(alloc),
            routes: Items::new(alloc),
            pcms: Items::new(alloc),
        }
    }
}

impl SourceWidget {
    /// A widget of these names, without tokens and controls.
    pub fn new(
        alloc: Global,
        kind: WidgetKind,
        name: Name44,
        sname: Name44,
        index: u32,
    ) -> SourceWidget
        ensures { result ≡ record { kind = kind; name = name; sname = sname; index = index; numbers = []; texts = []; controls = [] } }
    {
        SourceWidget {
            kind,
            name,
            sname,
            index,
            numbers: Items::new(alloc),
            texts: Items::new(alloc),
            controls: Items::new(alloc),
        }
    }

    /// The widget with a token's number too.
    pub fn with_number(self, token: u32, value: u32) -> Result<SourceWidget, NoMemory>
        ensures { IfOk result (λ w. w ≡ record { kind = self.kind; name = self.name; sname = self.sname; index = self.index; numbers = self.numbers ++ record { token = token; value = value } ∷ []; texts = self.texts; controls = self.controls }) }
    {
        let mut widget = self;
        widget.numbers.push(NumberTuple { token, value })?;
        Ok(widget)
    }

    /// The widget with a token's text too.
    pub fn with_text(self, token: u32, text: &Name44) -> Result<SourceWidget, NoMemory>
        ensures { IfOk result (λ w. w ≡ record { kind = self.kind; name = self.name; sname = self.sname; index = self.index; numbers = self.numbers; texts = self.texts ++ form.text_tuple token text.now ∷ []; controls = self.controls }) }
    {
        let mut widget = self;
        widget.texts.push(text_tuple(token, text))?;
        Ok(widget)
    }

    /// The widget with a control too.
    pub fn with_control(self, control: SourceControl) -> Result<SourceWidget, NoMemory>
        ensures { IfOk result (λ w. w ≡ record { kind = self.kind; name = self.name; sname = self.sname; index = self.index; numbers = self.numbers; texts = self.texts; controls = self.controls ++ control ∷ [] }) }
    {
        let mut widget = self;
        widget.controls.push(control)?;
        Ok(widget)
    }
}
