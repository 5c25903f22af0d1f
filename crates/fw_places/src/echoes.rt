// The ways of streams: what walks reach that go along no echo edge, and the echo edges beside them.
ghost use Rattle.std.specs.Prelude.{◌≡◌, ◌&&◌, ◌||◌, ◌==◌, ◌<◌, ◌≤◌, ℕ, true, false, length, slice_index_or};
ghost use Rattle.std.specs.List.{list_any, AllByRecursion};
ghost use Rattle.stream_law.specs.declared.graph.Graph.{Graph};
ghost use Rattle.stream_law.specs.Order.{is_among};
ghost use Rattle.stream_law.specs.Ways.{on_way};
ghost use Rattle.fw_places.specs.Charts.{AreHostsOf, is_capture_at};
ghost use Rattle.fw_places.specs.Walks.{is_marked, is_end_marked};
ghost use Rattle.fw_places.specs.WayCharts.{AreWaysOf};

use crate::places::Places;
use arrayvec::ArrayVec;
use std::marker::Model;
use stream_law::Edge;

/// Ids by places with the joins that the walks of ways go along, and the echo edges, which such walks leave out.
#[derive(Drop)]
pub struct Ways {
    places: Places,
    echoes: ArrayVec<Edge, 128>,
}

impl Model for Ways {
    ghost use Rattle.fw_places.specs.WayCharts.{WayChart, way_chart_of, IsWayChart};

    ghost Value = { WayChart };

    ghost view = { λ w. way_chart_of w.places w.echoes.items };

    ghost invariant = { λ w. IsWayChart w.places };
}

impl Ways {
    /// Those of joins by places, and of these echo edges beside them.
    pub fn of(places: Places, echoes: ArrayVec<Edge, 128>) -> Ways
        ensures ids { result.ids ≡ places.ids }
        ensures joins { result.joins ≡ places.joins }
        ensures echoes { result.echoes ≡ echoes.items }
    {
        let _ids = places.ids();
        Ways { places, echoes }
    }

    /// The ids by places, with the joins that the walks of ways go along.
    pub fn places(&self) -> &Places
        ensures ids { result.now.ids ≡ self.now.ids }
        ensures joins { result.now.joins ≡ self.now.joins }
        ensures few { length self.now.ids ≤ 256 }
    {
        &self.places
    }

    /// What is on the way of the stream of a host: of a playback's all that walks lead to from it, and of a capture's all that walks
    /// lead to it from, with the echo edges into these.
    pub fn way(&self, host: u32, capture: bool) -> [bool; 257]
        ensures way { (g : Graph) → AreWaysOf g self.now → capture ≡ is_capture_at g host → (x : ℕ) → is_among self.now.ids x ≡ true → is_marked self.now.ids result x ≡ on_way g host x }
        ensures past { (g : Graph) → AreWaysOf g self.now → is_among self.now.ids host ≡ true → slice_index_or result (length self.now.ids) false ≡ false }
    {
        let marks = self.places.reached(host, capture);
        if !capture {
            return marks;
        }
        self.with_echoes(&marks)
    }

    /// Marks, beside the hosts that are marked, what is on the ways of their streams: of playbacks, or of captures.
    pub fn of_hosts(&self, hosts: &[bool; 257], capture: bool) -> [bool; 257]
        ensures { (g : Graph) → AreWaysOf g self.now → AreHostsOf g capture self.now.ids hosts.now → (x : ℕ) → is_among self.now.ids x ≡ true → is_marked self.now.ids result x ≡ list_any (λ h. is_marked self.now.ids hosts.now h && on_way g h x) self.now.ids }
    {
        let mut marks = *hosts;
        self.places.spread(&mut marks, capture);
        if !capture {
            return marks;
        }
        self.with_echoes(&marks)
    }

    /// Whether an echo edge leads from what is marked first to what is marked second.
    pub fn echo(&self, first: &[bool], second: &[bool]) -> bool
        requires first { length first.now ≡ 257 }
        requires second { length second.now ≡ 257 }
        ensures { result ≡ list_any (λ e. is_end_marked self.now.ids first.now e.source && is_end_marked self.now.ids second.now e.sink) self.now.echoes }
    {
        self.any_echo(self.echoes.as_slice(), first, second)
    }

    // The same of these echo edges.
    fn any_echo(&self, echoes: &[Edge], first: &[bool], second: &[bool]) -> bool
        requires first { length first.now ≡ 257 }
        requires second { length second.now ≡ 257 }
        ensures { result ≡ list_any (λ e. is_end_marked self.now.ids first.now e.source && is_end_marked self.now.ids second.now e.sink) echoes.now }
    {
        echoes.iter().any(|echo| self.places.has_end(first, echo.source)
            && self.places.has_end(second, echo.sink))
    }

    // What is marked, and the echo edges into components that are marked.
    fn with_echoes(&self, marks: &[bool; 257]) -> [bool; 257]
        ensures marked { (x : ℕ) → is_among self.now.ids x ≡ true → is_marked self.now.ids result x ≡ (is_marked self.now.ids marks.now x || list_any (λ e. e.buffer == x && is_end_marked self.now.ids marks.now e.sink) self.now.echoes) }
        ensures past { AllByRecursion (λ e. is_among self.now.ids e.buffer ≡ true) self.now.echoes → slice_index_or marks.now (length self.now.ids) false ≡ false → slice_index_or result (length self.now.ids) false ≡ false }
    {
        let mut all = *marks;
        let echoes = self.echoes.as_slice();
        for echo in echoes {
            self.add_echo(marks, *echo, &mut all);
        }
        all
    }

    // An echo edge as well, where the component that it leads into is marked.
    fn add_echo(&self, marks: &[bool], echo: Edge, all: &mut [bool])
        requires marks { length marks.now ≡ 257 }
        requires all { length all.old ≡ 257 }
        ensures size { length all.new ≡ 257 }
        ensures past { is_among self.now.ids echo.buffer ≡ true → slice_index_or all.new (length self.now.ids) false ≡ slice_index_or all.old (length self.now.ids) false }
        ensures marked { (x : ℕ) → is_among self.now.ids x ≡ true → is_marked self.now.ids all.new x ≡ (is_marked self.now.ids all.old x || (echo.buffer == x && is_end_marked self.now.ids marks.now echo.sink)) }
    {
        if self.places.has_end(marks, echo.sink) {
            self.places.mark(all, echo.buffer);
        }
    }
}
