// Which rule a topology breaks, said by the names that stand in it.
use crate::shown::{Quoted, Shown};
use std::fmt;
use std::fmt::Display;
use thiserror::Error;
use tplg_model::{Body, Control, Route, Topology};
use tplg_widgets::{End, Entry, FormatToken, Process, Role, Wiring, is_interpreted, is_scheduler};

/// The rule that a topology breaks first, its least item, and what the topology has.
#[derive(Clone, Copy)]
pub struct RuleFault<'a, 't> {
    pub rule: u8,
    pub item: u32,
    pub topology: &'t Topology,
    pub wiring: &'a Wiring<'t>,
}

// What a topology has of a number, if anything.
#[derive(Clone, Copy, Debug, Error)]
enum Stated {
    #[error("this is {0}")]
    Number(u32),
    #[error("none is stated")]
    Nothing,
}

// What is wrong with a widget.
#[derive(Clone, Copy, Debug, Error)]
enum WidgetFault<'t> {
    #[error("{0}")]
    Plain(&'static str),
    #[error("{0}, and this has {1} in and {2} out")]
    Routes(&'static str, usize, usize),
    #[error("its index {0} takes one scheduler, and has {1}")]
    Schedulers(u32, usize),
    #[error("its stream name {0} names no component")]
    NoComponent(Quoted<'t>),
    #[error("its period is a multiple of 1000 from 1000 to 10000 µs, and {0}")]
    Period(Stated),
    #[error("an earlier host has the stream name {0}")]
    EarlierHost(Shown<'t>),
    #[error("no PCM has caps of the name {0} in its direction")]
    NoCaps(Shown<'t>),
    #[error("its size is from 16 to 16777184 bytes, and {0}")]
    Size(Stated),
    #[error("its control takes values from 0 to {most} on 1 to 8 channels, and states {min} to {max} on {channels}")]
    Values {
        most: u32,
        min: i32,
        max: i32,
        channels: u32,
    },
    #[error("its control takes 1 to 16 items, and states {0}")]
    Items(u32),
}

// What is wrong with a route.
#[derive(Clone, Copy, Debug, Error)]
enum RouteFault<'t> {
    #[error("both ends are buffers, and a component has to stand between")]
    Buffers,
    #[error("no widget has the name {0}")]
    Missing(Shown<'t>),
}

// The sentence of a rule: the item by its number and name, and what is wrong with it.
#[derive(Clone, Copy, Debug, Error)]
enum Told<'t> {
    #[error("{0}")]
    Count(&'static str),
    #[error("{0} {1}")]
    NoItem(&'static str, u32),
    #[error("route {number} ({from} to {to}): {fault}")]
    Route {
        number: u32,
        from: Shown<'t>,
        to: Shown<'t>,
        fault: RouteFault<'t>,
    },
    #[error("widget {number} ({name}): {fault}")]
    Widget {
        number: u32,
        name: Shown<'t>,
        fault: WidgetFault<'t>,
    },
    #[error("{0} plays into a capture without an echo edge")]
    Echo(Shown<'t>),
    #[error("a cycle through {0}")]
    Cycle(Shown<'t>),
}

fn stated_number(number: Option<u32>) -> Stated {
    match number {
        Some(number) => Stated::Number(number),
        None => Stated::Nothing,
    }
}

// What there is too much of.
fn count_fault(item: u32) -> &'static str {
    match item {
        0 => "there are more than 32 pipelines",
        1 => "there are more than 128 components",
        2 => "there are more than 128 buffers",
        3 => "there are more than 16 PCMs",
        _ => "there are more than 64 live controls",
    }
}

// What a widget is called, and the routes that it takes.
fn routes_taken(entry: &Entry) -> &'static str {
    match entry.role() {
        Some(Role::HostPlay) => "a host that plays takes one route out and none in",
        Some(Role::HostCapture) => "a host that captures takes one route in and none out",
        Some(Role::Dai) => "a DAI takes one route in all",
        Some(Role::Volume) => "a volume takes one route in and one out",
        Some(Role::Mixer) => "a mixer takes 1 to 8 routes in and one out",
        Some(Role::Mux) => "a mux takes 1 to 8 routes in and one out",
        Some(Role::Eq) if entry.tokens().process != Process::Equaliser => {
            "an effect that is no demux takes one route in and one out"
        }
        Some(Role::Eq) => "an equaliser takes one route in and one out",
        Some(Role::Demux) => "a demux takes one route in and 1 to 8 out",
        _ => "a buffer takes one route in and one out",
    }
}

fn name_fault(name: &[u8]) -> &'static str {
    if name.is_empty() {
        return "the name is empty";
    }
    for byte in name {
        if *byte < b' ' || *byte > b'~' {
            return "the name has a byte that cannot be printed";
        }
    }
    "an earlier widget has this name"
}

fn dai_fault(entry: &Entry) -> &'static str {
    if entry.tokens().format == FormatToken::Unknown {
        "its format is s16le, s24le or s32le"
    } else {
        "its direction is 0 where a route ends at it, and 1 where one begins"
    }
}

// How many schedulers have an index.
fn schedulers_of(entries: &[Entry], index: u32) -> usize {
    let mut count = 0usize;
    for other in entries {
        if is_scheduler(other) && other.index() == index {
            count = count.saturating_add(1);
        }
    }
    count
}

// Whether one of the first entries is a host of the same role and stream name.
fn has_stream(entries: &[Entry], number: usize, entry: &Entry) -> bool {
    let sname = entry.sname().as_bytes();
    for other in entries.iter().take(number) {
        if other.role() == entry.role() && other.sname().as_bytes() == sname {
            return true;
        }
    }
    false
}

// What is wrong with a host among those before it.
fn host_fault<'t>(entries: &[Entry<'t>], number: usize, entry: &Entry<'t>) -> WidgetFault<'t> {
    let sname = entry.sname().as_bytes();
    if sname.is_empty() {
        WidgetFault::Plain("it has no stream name")
    } else if has_stream(entries, number, entry) {
        WidgetFault::EarlierHost(Shown(sname))
    } else {
        WidgetFault::NoCaps(Shown(sname))
    }
}

fn control_fault<'t>(entry: &Entry<'t>) -> WidgetFault<'t> {
    if entry.role() == Some(Role::Eq) && entry.tokens().process != Process::Equaliser {
        return WidgetFault::Plain("its process is EQIIR or DEMUX");
    }
    let most = if entry.role() == Some(Role::Demux) {
        255
    } else {
        65535
    };
    match entry.control() {
        Some(
            Control::Mixer {
                min,
                max,
                num_channels,
                ..
            },
        ) => WidgetFault::Values {
            most,
            min: *min,
            max: *max,
            channels: *num_channels,
        },
        Some(Control::Enum { items, .. }) => WidgetFault::Items(*items),
        _ => WidgetFault::Plain("its control's blob is no blob of an equaliser"),
    }
}

// The end of a route that is no widget's name.
fn missing_end<'t>(wiring: &Wiring, route: &'t Route) -> &'t [u8] {
    let source = route.source.as_bytes();
    match wiring.widgets().end_of(source) {
        End::Missing => source,
        _ => route.sink.as_bytes(),
    }
}

impl<'a, 't> RuleFault<'a, 't> {
    // The id of the widget of a number.
    fn id_of(&self, number: usize) -> u32 {
        let mut id: u32 = 0;
        for entry in self.wiring.widgets().all().iter().take(number) {
            if is_interpreted(entry) {
                id = id.saturating_add(1);
            }
        }
        id
    }

    // The route of a number.
    fn route(&self) -> Option<&'t Route> {
        let mut left = self.item as usize;
        for block in self.topology.blocks.items() {
            if let Body::Routes(routes) = &block.body {
                let routes = routes.items();
                if left < routes.len() {
                    return routes.get(left);
                }
                left -= routes.len();
            }
        }
        None
    }

    // How many real routes come to the widget of a number, how many go from it, and what it takes.
    fn routes_fault(&self, number: usize, entry: &Entry) -> WidgetFault<'t> {
        let id = self.id_of(number);
        let (mut ins, mut outs) = (0usize, 0usize);
        for join in self.wiring.joins() {
            if join.sink == id {
                ins = ins.saturating_add(1);
            }
            if join.source == id {
                outs = outs.saturating_add(1);
            }
        }
        WidgetFault::Routes(routes_taken(entry), ins, outs)
    }

    // The rules whose item is a widget's number.
    fn widget_fault(&self, number: usize, entry: &Entry<'t>) -> WidgetFault<'t> {
        let entries = self.wiring.widgets().all();
        let index = entry.index();
        match self.rule {
            2 => WidgetFault::Plain(name_fault(entry.name().as_bytes())),
            5 | 6 => self.routes_fault(number, entry),
            7 => WidgetFault::Schedulers(index, schedulers_of(entries, index)),
            8 => WidgetFault::NoComponent(Quoted(entry.sname().as_bytes())),
            9 => WidgetFault::Period(stated_number(entry.tokens().period)),
            10 => WidgetFault::Plain(dai_fault(entry)),
            11 => host_fault(entries, number, entry),
            12 => WidgetFault::Size(stated_number(entry.tokens().size)),
            _ => control_fault(entry),
        }
    }

    fn widget_told(&self) -> Told<'t> {
        let number = self.item as usize;
        match self.wiring.widgets().all().get(number) {
            Some(entry) => Told::Widget {
                number: self.item,
                name: Shown(entry.name().as_bytes()),
                fault: self.widget_fault(number, entry),
            },
            None => Told::NoItem("widget", self.item),
        }
    }

    // Rules 3 and 4.
    fn route_told(&self) -> Told<'t> {
        let Some(route) = self.route() else {
            return Told::NoItem("route", self.item);
        };
        let fault = if self.rule == 4 {
            RouteFault::Buffers
        } else {
            RouteFault::Missing(Shown(missing_end(self.wiring, route)))
        };
        Told::Route {
            number: self.item,
            from: Shown(route.source.as_bytes()),
            to: Shown(route.sink.as_bytes()),
            fault,
        }
    }

    // Rule 14: the item is a component's id.
    fn way_told(&self) -> Told<'t> {
        let components = self.wiring.widgets().interpreted();
        let Some(entry) = components.get(self.item as usize) else {
            return Told::NoItem("component", self.item);
        };
        let name = Shown(entry.name().as_bytes());
        if entry.role() == Some(Role::HostPlay) {
            Told::Echo(name)
        } else {
            Told::Cycle(name)
        }
    }

    fn told(&self) -> Told<'t> {
        match self.rule {
            1 => Told::Count(count_fault(self.item)),
            3 | 4 => self.route_told(),
            14 => self.way_told(),
            _ => self.widget_told(),
        }
    }
}

impl Display for RuleFault<'_, '_> {
    fn fmt<W: fmt::Write>(&self, f: &mut fmt::Formatter<W>) -> fmt::Result {
        write!(f, "{}", self.told())
    }
}
