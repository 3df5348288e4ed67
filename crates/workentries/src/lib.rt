// The entries of the work buffer in which the order of the visits is kept: marks read and set, places of the order read and written.
#![tactic(auto)]

ghost use Rattle.std.specs.Prelude.{◌≡◌, ◌+◌, ◌<◌, ◌^◌, eqb, length, get_or, set};
ghost use Rattle.numbers.specs.Numbers.{halfedge_number, vertex_number};
ghost use Rattle.ordering.specs.inner.Order.{entry_limit, copy_bit, see, place, is_walked, entry, last_entry};

use numbers::{Halfedge, Vertex};

// The bits of an entry of the work buffer, beside the half-edge that it names: that half-edge k was walked; and, with the last of a fan,
// that the fan is to get a copy. What an entry names, with the copy bit, is below ENTRY; between that and the walked bit is a bit that
// is never set, so that the compiler writes whole words.
const WALKED: u32 = 2147483648;

const ENTRY: u32 = 1073741824;

pub const COPY: usize = 536870912;

// Sets the walked bit of half-edge h.
pub fn see(work: &mut [u32], h: usize)
    requires { h < length work.old }
    ensures { work.new ≡ see h work.old }
{
    work[h] = work[h] % ENTRY + WALKED;
}

// Puts x at place k of the order.
pub fn place(work: &mut [u32], k: usize, x: usize)
    requires inside { k < length work.old }
    requires small { x < entry_limit }
    ensures { work.new ≡ place k x work.old }
{
    let old = work[k];
    work[k] = old / ENTRY * ENTRY + x as u32;
}

// Whether the fan of h was walked.
pub fn is_walked(work: &[u32], h: Halfedge) -> bool
    requires { halfedge_number h < length work.now }
    ensures { result ≡ is_walked work.now (halfedge_number h) }
{
    work[h.number()] >= WALKED
}

// What stands at place k of the order.
pub fn entry_at(work: &[u32], k: usize) -> usize
    requires { k < length work.now }
    ensures { result ≡ entry work.now k }
{
    (work[k] % ENTRY) as usize
}

// The last half-edge of a fan, as it is put into the order.
pub fn last_entry(first: bool, c: usize) -> usize
    requires { c < copy_bit }
    ensures { result ≡ last_entry first c }
{
    if first { c } else { c + COPY }
}

// Marks v. Whether this is the first fan there.
pub fn mark_vertex(work: &mut [u32], halfedges: usize, v: Vertex) -> bool
    requires inside { halfedges + vertex_number v < length work.old }
    requires small { halfedges + vertex_number v < 2 ^ 31 }
    ensures marked { work.new ≡ set work.old (halfedges + vertex_number v) 1 }
    ensures first { result ≡ eqb (get_or work.old (halfedges + vertex_number v) 0) 0 }
{
    let m = halfedges + v.number();
    let first = work[m] == 0;
    work[m] = 1;
    first
}
