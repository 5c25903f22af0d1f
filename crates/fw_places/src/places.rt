// Ids by places, and joins between these.
ghost use Rattle.std.specs.Prelude.{◌≡◌, ◌==◌, ◌&&◌, ◌<◌, ◌≤◌, ◌%◌, ℕ, true, false, length, map, take, position, slice_set, slice_index_or};
ghost use Rattle.std.specs.List.{list_any, AllByRecursion};
ghost use Rattle.stream_law.specs.Order.{is_among};
ghost use Rattle.fw_places.specs.Walks.{IsListed, place_in, by_places, leads_by, is_marked, is_end_marked, is_reached};
ghost use Rattle.fw_places.specs.Leaving.{AreFound};

use crate::walk::{find_marked, spread};
use arrayvec::ArrayVec;
use std::marker::Model;
use stream_law::Join;

/// At most 256 ids, each at a place, and joins of these by the places of their ends. Contracts see the joins by ids.
#[derive(Drop)]
pub struct Places {
    ids: ArrayVec<u32, 256>,
    ends: [Join; 256],
    count: usize,
}

impl Model for Places {
    ghost use Rattle.fw_places.specs.Charts.{Chart, chart_of, IsChart};

    ghost Value = { Chart };

    ghost view = { λ p. chart_of p.ids.items p.ends p.count };

    ghost invariant = { λ p. IsChart p.ids.items p.ends p.count };
}

impl Places {
    /// Those of these ids and of joins of these. The first index of each last byte of an id is noted, and tested before any search.
    pub fn of(ids: ArrayVec<u32, 256>, joins: &[Join]) -> Places
        requires listed { AllByRecursion (IsListed ids.items) joins.now }
        requires few { length joins.now ≤ 256 }
        ensures ids { result.ids ≡ ids.items }
        ensures joins { result.joins ≡ joins.now }
    {
        let mut ends = [Join { source: 0, sink: 0 }; 256];
        resolve(joins, ids.as_slice(), &mut ends);
        Places {
            ids,
            ends,
            count: joins.len(),
        }
    }

    /// The ids, in the order of their places.
    pub fn ids(&self) -> &[u32]
        ensures ids { result.now ≡ self.now.ids }
        ensures few { length self.now.ids ≤ 256 }
    {
        self.ids.as_slice()
    }

    /// The place of an id; where it is not listed, the place after the last.
    pub fn place(&self, id: u32) -> usize
        ensures place { result ≡ place_in self.now.ids id }
        ensures within { result ≤ 256 }
    {
        place_of(self.ids.as_slice(), id)
    }

    /// The same ids, and other joins of these.
    pub fn along(self, joins: &[Join]) -> Places
        requires listed { AllByRecursion (IsListed self.ids) joins.now }
        requires few { length joins.now ≤ 256 }
        ensures ids { result.ids ≡ self.ids }
        ensures joins { result.joins ≡ joins.now }
    {
        let Places {
            ids,
            ends: _,
            count: _,
        } = self;
        Places::of(ids, joins)
    }

    /// What walks lead to from one id, or from what walks lead to it where they go back.
    pub fn reached(&self, id: u32, back: bool) -> [bool; 257]
        ensures reached { (x : ℕ) → is_among self.now.ids x ≡ true → is_marked self.now.ids result x ≡ leads_by back self.now.joins id x }
        ensures past { is_among self.now.ids id ≡ true → slice_index_or result (length self.now.ids) false ≡ false }
    {
        let _ = &self.ids;
        let place = self.place(id);
        let mut marks = [false; 257];
        marks[place] = true;
        let mut found = ArrayVec::new();
        found.push(place as u16);
        self.spread_from(&mut marks, &mut found, back);
        marks
    }

    /// Marks an id.
    pub fn mark(&self, marks: &mut [bool], id: u32)
        requires { length marks.old ≡ 257 }
        ensures { marks.new ≡ slice_set marks.old (place_in self.now.ids id) true }
    {
        marks[place_of(self.ids.as_slice(), id)] = true;
    }

    /// Whether an id is marked.
    pub fn has(&self, marks: &[bool], id: u32) -> bool
        requires { length marks.now ≡ 257 }
        ensures { result ≡ is_marked self.now.ids marks.now id }
    {
        marks[place_of(self.ids.as_slice(), id)]
    }

    /// Whether an end of an edge is there and marked.
    pub fn has_end(&self, marks: &[bool], end: Option<u32>) -> bool
        requires { length marks.now ≡ 257 }
        ensures { result ≡ is_end_marked self.now.ids marks.now end }
    {
        match end {
            Some(id) => self.has(marks, id),
            None => false,
        }
    }

    /// Whether an id is marked in both.
    pub fn share(&self, first: &[bool], second: &[bool]) -> bool
        requires first { length first.now ≡ 257 }
        requires second { length second.now ≡ 257 }
        ensures { result ≡ list_any (λ x. is_marked self.now.ids first.now x && is_marked self.now.ids second.now x) self.now.ids }
    {
        share(self.ids.as_slice(), first, second)
    }

    /// Marks all that walks lead to from what is marked, or against joins where they go back.
    pub fn spread(&self, marks: &mut [bool], back: bool)
        requires { length marks.old ≡ 257 }
        ensures past { slice_index_or marks.old (length self.now.ids) false ≡ false → slice_index_or marks.new (length self.now.ids) false ≡ false }
        ensures reached { (x : ℕ) → is_among self.now.ids x ≡ true → is_marked self.now.ids marks.new x ≡ is_reached back self.now.ids self.now.joins marks.old x }
    {
        let _ = &self.ids;
        let mut found = ArrayVec::new();
        find_marked(marks, &mut found);
        self.spread_from(marks, &mut found, back);
    }

    // The same from what is marked and found.
    fn spread_from(&self, marks: &mut [bool], found: &mut ArrayVec<u16, 257>, back: bool)
        requires size { length marks.old ≡ 257 }
        requires found { AreFound marks.old found.old.items }
        ensures past { slice_index_or marks.old (length self.now.ids) false ≡ false → slice_index_or marks.new (length self.now.ids) false ≡ false }
        ensures reached { (x : ℕ) → is_among self.now.ids x ≡ true → is_marked self.now.ids marks.new x ≡ is_reached back self.now.ids self.now.joins marks.old x }
    {
        spread(marks, found, &self.ends[..self.count], back);
    }
}

// Whether one of these ids is marked in both.
fn share(ids: &[u32], first: &[bool], second: &[bool]) -> bool
    requires ids { length ids.now ≤ 256 }
    requires first { length first.now ≡ 257 }
    requires second { length second.now ≡ 257 }
    ensures { result ≡ list_any (λ x. is_marked ids.now first.now x && is_marked ids.now second.now x) ids.now }
{
    ids.iter().any(|id| in_both(ids, first, second, *id))
}

// Whether an id is.
fn in_both(ids: &[u32], first: &[bool], second: &[bool], id: u32) -> bool
    requires ids { length ids.now ≤ 256 }
    requires first { length first.now ≡ 257 }
    requires second { length second.now ≡ 257 }
    ensures { result ≡ (is_marked ids.now first.now id && is_marked ids.now second.now id) }
{
    let at = place_of(ids, id);
    first[at] && second[at]
}

// Writes each join by the places of its ends.
fn resolve(joins: &[Join], ids: &[u32], ends: &mut [Join])
    requires room { length joins.now ≤ length ends.old }
    requires few { length ids.now ≤ 256 }
    ensures { take (length joins.now) ends.new ≡ map (by_places ids.now) joins.now }
{
    let mut firsts = [256; 256];
    note(ids, &mut firsts);
    for i in 0..joins.len() {
        ends[i] = Join {
            source: place_by(ids, &firsts, joins[i].source) as u32,
            sink: place_by(ids, &firsts, joins[i].sink) as u32,
        };
    }
}

// Notes for each last byte no later place than the first of the ids that end so.
fn note(ids: &[u32], firsts: &mut [u16])
    requires size { length firsts.old ≡ 256 }
    requires few { length ids.now ≤ 256 }
    ensures size { length firsts.new ≡ 256 }
    ensures noted { (k : ℕ) → k < length ids.now → slice_index_or firsts.new (slice_index_or ids.now k 0 % 256) 0 ≤ k }
{
    for k in 0..ids.len() {
        lower(firsts, (ids[k] % 256) as usize, k as u16);
    }
}

// Notes a place, unless an earlier one is noted.
fn lower(firsts: &mut [u16], byte: usize, place: u16)
    requires { byte < length firsts.old }
    ensures size { length firsts.new ≡ length firsts.old }
    ensures noted { slice_index_or firsts.new byte 0 ≤ place }
    ensures most { (b : ℕ) → slice_index_or firsts.new b 0 ≤ slice_index_or firsts.old b 0 }
{
    if place < firsts[byte] {
        firsts[byte] = place;
    }
}

// The place of an id, first looked for where its last byte is noted; where it is not there, the place after the last.
fn place_by(ids: &[u32], firsts: &[u16], id: u32) -> usize
    requires size { length firsts.now ≡ 256 }
    requires noted { (k : ℕ) → k < length ids.now → slice_index_or firsts.now (slice_index_or ids.now k 0 % 256) 0 ≤ k }
    ensures place { result ≡ place_in ids.now id }
    ensures within { result ≤ length ids.now }
{
    let first = usize::from(firsts[(id % 256) as usize]);
    if first < ids.len() && ids[first] == id {
        return first;
    }
    place_of(ids, id)
}

// The place of an id; where it is not there, the place after the last.
fn place_of(ids: &[u32], id: u32) -> usize
    ensures place { result ≡ place_in ids.now id }
    ensures within { result ≤ length ids.now }
{
    let end = ids.len();
    first_of(ids, id).unwrap_or(end)
}

// The first place of an id.
fn first_of(ids: &[u32], id: u32) -> Option<usize>
    ensures { result ≡ position (λ y. y == id) ids.now }
{
    ids.iter().position(|x| *x == id)
}
