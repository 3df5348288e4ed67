// Questions about half-edges, asked by their number type: whether one has a partner, a start, an end, and how two of them meet.
// `rows::corners` answers the same of a triangle's corners 0, 1 and 2.
#![tactic(auto)]

ghost use Rattle.std.specs.Prelude.{◌≡◌, ◌&&◌, ◌<◌, ◌^◌, pos};
ghost use Rattle.laws.specs.Integers.{eq_z};
ghost use Rattle.numbers.specs.Numbers.{names, halfedge_number, is_named};
ghost use Rattle.rows.specs.Halfedges.{start_of, end_of, pair_of, none, is_empty, is_paired, is_started, is_ended, lent_halfedges};

use numbers::Halfedge;
use rows::corners;

// The pair of h is 0 or more.
pub fn is_paired(rows: &[i32], h: Halfedge) -> bool
    requires { halfedge_number h < lent_halfedges rows.now }
    ensures { result ≡ is_paired rows.now (halfedge_number h) }
{
    corners::paired(rows, h.number())
}

// The pair of h is −1.
pub fn is_unpaired(rows: &[i32], h: Halfedge) -> bool
    requires { halfedge_number h < lent_halfedges rows.now }
    ensures { result ≡ eq_z (pair_of rows.now (halfedge_number h)) none }
{
    corners::unpaired(rows, h.number())
}

// The start of h is 0 or more.
pub fn is_started(rows: &[i32], h: Halfedge) -> bool
    requires { halfedge_number h < lent_halfedges rows.now }
    ensures { result ≡ is_started rows.now (halfedge_number h) }
{
    corners::started(rows, h.number())
}

// The end of h is 0 or more.
pub fn is_ended(rows: &[i32], h: Halfedge) -> bool
    requires { halfedge_number h < lent_halfedges rows.now }
    ensures { result ≡ is_ended rows.now (halfedge_number h) }
{
    corners::ended(rows, h.number())
}

// Start, end and pair of h are −1.
pub fn is_empty(rows: &[i32], h: Halfedge) -> bool
    requires { halfedge_number h < lent_halfedges rows.now }
    ensures { result ≡ is_empty rows.now (halfedge_number h) }
{
    corners::empty(rows, h.number())
}

// h starts and ends at one of `vertices`.
pub fn is_within(rows: &[i32], h: Halfedge, vertices: usize) -> bool
    requires { halfedge_number h < lent_halfedges rows.now }
    ensures { result ≡ is_named (names (start_of rows.now (halfedge_number h)) vertices) && is_named (names (end_of rows.now (halfedge_number h)) vertices) }
{
    corners::within(rows, h.number(), vertices)
}

// g and h start at the same vertex.
pub fn same_start(rows: &[i32], g: Halfedge, h: Halfedge) -> bool
    requires { (halfedge_number g < lent_halfedges rows.now) × (halfedge_number h < lent_halfedges rows.now) }
    ensures { result ≡ eq_z (start_of rows.now (halfedge_number g)) (start_of rows.now (halfedge_number h)) }
{
    corners::same_start(rows, g.number(), h.number())
}

// g and h end at the same vertex.
pub fn same_end(rows: &[i32], g: Halfedge, h: Halfedge) -> bool
    requires { (halfedge_number g < lent_halfedges rows.now) × (halfedge_number h < lent_halfedges rows.now) }
    ensures { result ≡ eq_z (end_of rows.now (halfedge_number g)) (end_of rows.now (halfedge_number h)) }
{
    corners::same_end(rows, g.number(), h.number())
}

// g ends where h starts.
pub fn is_joined(rows: &[i32], g: Halfedge, h: Halfedge) -> bool
    requires { (halfedge_number g < lent_halfedges rows.now) × (halfedge_number h < lent_halfedges rows.now) }
    ensures { result ≡ eq_z (end_of rows.now (halfedge_number g)) (start_of rows.now (halfedge_number h)) }
{
    corners::joined(rows, g.number(), h.number())
}

// p has h as its pair, and the ends of h exchanged.
pub fn is_mirrored(rows: &[i32], h: Halfedge, p: Halfedge) -> bool
    requires { (halfedge_number h < lent_halfedges rows.now) × ((halfedge_number p < lent_halfedges rows.now) × (halfedge_number h < 2 ^ 31)) }
    ensures { result ≡ eq_z (pair_of rows.now (halfedge_number p)) (pos (halfedge_number h)) && eq_z (start_of rows.now (halfedge_number p)) (end_of rows.now (halfedge_number h)) && eq_z (end_of rows.now (halfedge_number p)) (start_of rows.now (halfedge_number h)) }
{
    corners::mirrored(rows, h.number(), rows, h, p)
}
