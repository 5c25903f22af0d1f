// Lists of ids.
ghost use Rattle.std.specs.Prelude.{◌≡◌, ◌==◌, ◌+◌, ◌≤◌, ◌++◌, length, map, filter, find, not, option_copied};
ghost use Rattle.arrayvec.specs.ArrayVec.{array_vec_len};
ghost use Rattle.stream_law.specs.Order.{is_among};

use arrayvec::ArrayVec;
use host_widgets::has;
use stream_law::{Comp, Edge};

// The component of an id.
pub fn comp_of(comps: &[Comp], id: u32) -> Option<&Comp>
    ensures { option_copied result ≡ find (λ c. c.id == id) comps.now }
{
    comps.iter().find(|comp| comp.id == id)
}

// The edge of a buffer.
pub fn edge_of(edges: &[Edge], id: u32) -> Option<&Edge>
    ensures { option_copied result ≡ find (λ e. e.buffer == id) edges.now }
{
    edges.iter().find(|edge| edge.buffer == id)
}

// Lists the ids of components.
pub fn list_comps<const MOST: usize>(ids: &mut ArrayVec<u32, MOST>, comps: &[Comp])
    requires { array_vec_len ids.old + length comps.now ≤ MOST }
    ensures { ids.new.items ≡ ids.old.items ++ map (λ c. c.id) comps.now }
{
    for comp in comps {
        ids.push(comp.id);
    }
}

// Lists the ids of buffers.
pub fn list_buffers<const MOST: usize>(ids: &mut ArrayVec<u32, MOST>, edges: &[Edge])
    requires { array_vec_len ids.old + length edges.now ≤ MOST }
    ensures { ids.new.items ≡ ids.old.items ++ map (λ e. e.buffer) edges.now }
{
    for edge in edges {
        ids.push(edge.buffer);
    }
}

// Leaves those that are among these.
pub fn keep<const MOST: usize>(list: &mut ArrayVec<u32, MOST>, others: &[u32])
    ensures { list.new.items ≡ filter (is_among others.now) list.old.items }
{
    list.retain(|index| has(others, *index));
}

// Leaves those that are not.
pub fn lose<const MOST: usize>(list: &mut ArrayVec<u32, MOST>, others: &[u32])
    ensures { list.new.items ≡ filter (λ i. not (is_among others.now i)) list.old.items }
{
    list.retain(|index| !has(others, *index));
}

// Lists these after what is listed.
pub fn append<T: Copy, const MOST: usize>(list: &mut ArrayVec<T, MOST>, items: &[T])
    requires { array_vec_len list.old + length items.now ≤ MOST }
    ensures { list.new.items ≡ list.old.items ++ items.now }
{
    let _fits = list.try_extend_from_slice(items);
}
