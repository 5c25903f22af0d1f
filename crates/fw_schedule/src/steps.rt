// What each component does at a tick.
ghost use Rattle.std.specs.Prelude.{◌≡◌, ◌<◌, ◌≤◌, ◌*◌, ◌/◌, ◌%◌, ◌==◌, ◌&&◌, ◌∷◌, ◌++◌, true, [], length, slice_range};
ghost use Rattle.stream_law.specs.State.{View};
ghost use Rattle.stream_law.specs.Ways.{rate_of};
ghost use Rattle.stream_law.specs.Moves.{period as period_of, quota};

use arrayvec::ArrayVec;
use sof_base::Format;
use stream_law::Kind;

/// Buffers that steps take frames from and feed: their ids, and the places at which they stand.
#[derive(Drop)]
pub(crate) struct Ends {
    pub(crate) ids: ArrayVec<u32, 256>,
    pub(crate) places: ArrayVec<u16, 256>,
}

impl Ends {
    /// None.
    pub(crate) fn new() -> Ends
        ensures { (result.ids.items ≡ []) × (result.places.items ≡ []) }
    {
        Ends {
            ids: ArrayVec::new(),
            places: ArrayVec::new(),
        }
    }

    /// One more, with where it stands.
    pub(crate) fn push(&mut self, id: u32, place: u16)
        requires ids { length self.old.ids.items < 256 }
        requires places { length self.old.places.items < 256 }
        ensures ids { self.new.ids.items ≡ self.old.ids.items ++ id ∷ [] }
        ensures places { self.new.places.items ≡ self.old.places.items ++ place ∷ [] }
    {
        self.ids.push(id);
        self.places.push(place);
    }
}

/// A component that moves: its id, its place among the components, its kind, the format of its samples where it is an endpoint,
/// whether it is Active, how many channels it moves, the period of its pipeline in ticks, its frames a second, how many frames a
/// period has, and what is over, in thousandths of one, and where its inlets begin and end among the ends of all; the buffers that it
/// feeds come after them, up to `end`.
#[derive(Clone, Copy)]
pub(crate) struct Step {
    pub(crate) id: u32,
    pub(crate) place: usize,
    pub(crate) kind: Kind,
    pub(crate) format: Format,
    pub(crate) active: bool,
    pub(crate) channels: u8,
    pub(crate) period: u32,
    pub(crate) rate: u32,
    pub(crate) whole: u64,
    pub(crate) over: u32,
    pub(crate) first: usize,
    pub(crate) past: usize,
    pub(crate) end: usize,
}

impl Step {
    /// Whether it runs at this clock.
    pub(crate) fn runs(&self, clock: u32) -> bool
        requires { self.now.active ≡ true → 1 ≤ self.now.period }
        ensures { result ≡ (self.now.active && clock % self.now.period == 0) }
    {
        // most periods are one tick, and take no division
        self.active && (self.period == 1 || clock % self.period == 0)
    }

    /// The most frames that it moves at this clock: those that a stream of its rate has up to this tick, and had not up to the run
    /// before it.
    pub(crate) fn quota(&self, clock: u32) -> u32
        requires short { self.now.period ≤ 10 }
        requires few { self.now.whole ≤ 1920 }
        requires whole { self.now.whole ≡ self.now.period * self.now.rate / 1000 }
        requires over { self.now.over ≡ self.now.period * self.now.rate % 1000 }
        ensures { (v : View) → self.now.period ≡ period_of v self.now.id → self.now.rate ≡ rate_of v self.now.id → result ≡ quota v clock self.now.id }
    {
        let whole = self.whole as u32;
        // a rate that is a multiple of 1000 leaves nothing over, and takes no more than this
        if self.over == 0 {
            return whole;
        }
        self.quota_over(clock)
    }

    // The same where a period is no whole number of frames. It stands apart, so that others do not pay for the clock's remainder.
    #[inline(never)]
    fn quota_over(&self, clock: u32) -> u32
        requires short { self.now.period ≤ 10 }
        requires few { self.now.whole ≤ 1920 }
        requires whole { self.now.whole ≡ self.now.period * self.now.rate / 1000 }
        requires over { self.now.over ≡ self.now.period * self.now.rate % 1000 }
        ensures { (v : View) → self.now.period ≡ period_of v self.now.id → self.now.rate ≡ rate_of v self.now.id → result ≡ quota v clock self.now.id }
    {
        let whole = self.whole as u32;
        let part = (clock % 1000) * (self.rate % 1000) % 1000;
        if part < self.over { whole + 1 } else { whole }
    }

    /// Its inlets, of those of all, and where they stand.
    pub(crate) fn inlets<'a>(&self, ends: &'a Ends) -> (&'a [u32], &'a [u16])
        requires ids { (self.now.first ≤ self.now.past) × (self.now.past ≤ length ends.now.ids.items) }
        requires places { length ends.now.places.items ≡ length ends.now.ids.items }
        ensures ids { result.0.now ≡ slice_range ends.now.ids.items self.now.first self.now.past }
        ensures places { result.1.now ≡ slice_range ends.now.places.items self.now.first self.now.past }
    {
        let ids = ends.ids.as_slice();
        let places = ends.places.as_slice();
        (&ids[self.first..self.past], &places[self.first..self.past])
    }

    /// The buffers that it feeds, of those of all, and where they stand.
    pub(crate) fn outlets<'a>(&self, ends: &'a Ends) -> (&'a [u32], &'a [u16])
        requires ids { (self.now.past ≤ self.now.end) × (self.now.end ≤ length ends.now.ids.items) }
        requires places { length ends.now.places.items ≡ length ends.now.ids.items }
        ensures ids { result.0.now ≡ slice_range ends.now.ids.items self.now.past self.now.end }
        ensures places { result.1.now ≡ slice_range ends.now.places.items self.now.past self.now.end }
    {
        let ids = ends.ids.as_slice();
        let places = ends.places.as_slice();
        (&ids[self.past..self.end], &places[self.past..self.end])
    }
}

impl Default for Step {
    /// One that does nothing.
    fn default() -> Step {
        Step {
            id: 0,
            place: 0,
            kind: Kind::Mixer,
            format: Format::S32,
            active: false,
            channels: 0,
            period: 0,
            rate: 0,
            whole: 0,
            over: 0,
            first: 0,
            past: 0,
            end: 0,
        }
    }
}
