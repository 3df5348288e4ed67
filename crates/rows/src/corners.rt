// Tests of the rows of one triangle, which are read as a stretch: `tri` is the part of the half-edge array that starts at
// the triangle's first row, and its corners are numbered 0, 1 and 2.
ghost use Rattle.std.specs.Prelude.{◌≡◌, true, ◌&&◌, ◌<◌, ◌^◌, pos, length, get_or};
ghost use Rattle.std.specs.Int.Signed.{le_z};
ghost use Rattle.laws.specs.Integers.{eq_z};
ghost use Rattle.numbers.specs.Numbers.{names, halfedge_number, vertex_number, halfedge_named, is_named};
ghost use Rattle.rows.specs.Halfedges.{start_of, end_of, pair_of, none, is_empty, is_paired, is_started, is_ended, lent_halfedges};

use crate::halfedges::{END, PAIR, START, WIDTH};
use numbers::{Halfedge, Vertex};

// The number at i is −1.
fn none_at(s: &[i32], i: usize) -> bool
    requires { i < length s.now }
    ensures { result ≡ eq_z (get_or s.now i (pos 0)) none }
{
    s[i] == -1
}

// The number at i is 0 or more.
fn counts_at(s: &[i32], i: usize) -> bool
    requires { i < length s.now }
    ensures { result ≡ le_z (pos 0) (get_or s.now i (pos 0)) }
{
    0 <= s[i]
}

// The number at i is n.
fn is_at(s: &[i32], i: usize, n: usize) -> bool
    requires { (i < length s.now) × (n < 2 ^ 31) }
    ensures { result ≡ eq_z (get_or s.now i (pos 0)) (pos n) }
{
    let x = n as i32;
    s[i] == x
}

// The numbers at i of one array and j of another agree.
pub(crate) fn same_at(s: &[i32], i: usize, t: &[i32], j: usize) -> bool
    requires { (i < length s.now) × (j < length t.now) }
    ensures { result ≡ eq_z (get_or s.now i (pos 0)) (get_or t.now j (pos 0)) }
{
    s[i] == t[j]
}

// The number at i is one of 0..limit.
fn within_at(s: &[i32], i: usize, limit: usize) -> bool
    requires { i < length s.now }
    ensures { result ≡ is_named (names (get_or s.now i (pos 0)) limit) }
{
    numbers::is_within(s[i], limit)
}

// Start, end and pair of the corner are −1.
pub fn empty(tri: &[i32], k: usize) -> bool
    requires { k < lent_halfedges tri.now }
    ensures { result ≡ is_empty tri.now k }
{
    none_at(tri, WIDTH * k + START) & none_at(tri, WIDTH * k + END) & none_at(tri, WIDTH * k + PAIR)
}

// The corner has a pair that is 0 or more.
pub fn paired(tri: &[i32], k: usize) -> bool
    requires { k < lent_halfedges tri.now }
    ensures { result ≡ is_paired tri.now k }
{
    counts_at(tri, WIDTH * k + PAIR)
}

// The corner has a start that is 0 or more.
pub fn started(tri: &[i32], k: usize) -> bool
    requires { k < lent_halfedges tri.now }
    ensures { result ≡ is_started tri.now k }
{
    counts_at(tri, WIDTH * k + START)
}

// The corner has an end that is 0 or more.
pub fn ended(tri: &[i32], k: usize) -> bool
    requires { k < lent_halfedges tri.now }
    ensures { result ≡ is_ended tri.now k }
{
    counts_at(tri, WIDTH * k + END)
}

// The corner's pair is −1.
pub fn unpaired(tri: &[i32], k: usize) -> bool
    requires { k < lent_halfedges tri.now }
    ensures { result ≡ eq_z (pair_of tri.now k) none }
{
    none_at(tri, WIDTH * k + PAIR)
}

// Two corners end at the same vertex.
pub fn same_end(tri: &[i32], j: usize, k: usize) -> bool
    requires { (j < lent_halfedges tri.now) × (k < lent_halfedges tri.now) }
    ensures { result ≡ eq_z (end_of tri.now j) (end_of tri.now k) }
{
    same_at(tri, WIDTH * j + END, tri, WIDTH * k + END)
}

// Two corners start at the same vertex.
pub fn same_start(tri: &[i32], j: usize, k: usize) -> bool
    requires { (j < lent_halfedges tri.now) × (k < lent_halfedges tri.now) }
    ensures { result ≡ eq_z (start_of tri.now j) (start_of tri.now k) }
{
    same_at(tri, WIDTH * j + START, tri, WIDTH * k + START)
}

// Corner j ends where corner k starts.
pub fn joined(tri: &[i32], j: usize, k: usize) -> bool
    requires { (j < lent_halfedges tri.now) × (k < lent_halfedges tri.now) }
    ensures { result ≡ eq_z (end_of tri.now j) (start_of tri.now k) }
{
    same_at(tri, WIDTH * j + END, tri, WIDTH * k + START)
}

// The corner starts and ends at one of `vertices`.
pub fn within(tri: &[i32], k: usize, vertices: usize) -> bool
    requires { k < lent_halfedges tri.now }
    ensures { result ≡ is_named (names (start_of tri.now k) vertices) && is_named (names (end_of tri.now k) vertices) }
{
    within_at(tri, WIDTH * k + START, vertices) & within_at(tri, WIDTH * k + END, vertices)
}

// The corner's partner, among `halfedges`.
pub fn partner(tri: &[i32], k: usize, halfedges: usize) -> Option<Halfedge>
    requires { k < lent_halfedges tri.now }
    ensures { halfedge_named result ≡ names (pair_of tri.now k) halfedges }
{
    numbers::halfedge_read(tri[WIDTH * k + PAIR], halfedges)
}

// Row p has h as its pair, and the corner's ends exchanged.
pub fn mirrored(tri: &[i32], k: usize, rows: &[i32], h: Halfedge, p: Halfedge) -> bool
    requires { (k < lent_halfedges tri.now) × ((halfedge_number p < lent_halfedges rows.now) × (halfedge_number h < 2 ^ 31)) }
    ensures { result ≡ eq_z (pair_of rows.now (halfedge_number p)) (pos (halfedge_number h)) && eq_z (start_of rows.now (halfedge_number p)) (end_of tri.now k) && eq_z (end_of rows.now (halfedge_number p)) (start_of tri.now k) }
{
    let i = WIDTH * p.number();
    is_at(rows, i + PAIR, h.number())
        & same_at(rows, i + START, tri, WIDTH * k + END)
        & same_at(rows, i + END, tri, WIDTH * k + START)
}

// The corner, which starts at 0 or more, starts at one of `vertices`.
pub fn start_below(tri: &[i32], k: usize, vertices: usize) -> bool
    requires { (k < lent_halfedges tri.now) × (is_started tri.now k ≡ true) }
    ensures { result ≡ is_named (names (start_of tri.now k) vertices) }
{
    numbers::is_below(tri[WIDTH * k + START], vertices)
}

// The partner of a corner that has one.
pub fn partner_known(tri: &[i32], k: usize) -> Halfedge
    requires { (k < lent_halfedges tri.now) × (is_paired tri.now k ≡ true) }
    ensures { pair_of tri.now k ≡ pos (halfedge_number result) }
{
    numbers::halfedge_known(tri[WIDTH * k + PAIR])
}

// Row p has h as its pair, and starts where the corner starts.
pub fn met(tri: &[i32], k: usize, rows: &[i32], h: Halfedge, p: Halfedge) -> bool
    requires { (k < lent_halfedges tri.now) × ((halfedge_number p < lent_halfedges rows.now) × (halfedge_number h < 2 ^ 31)) }
    ensures { result ≡ eq_z (pair_of rows.now (halfedge_number p)) (pos (halfedge_number h)) && eq_z (start_of rows.now (halfedge_number p)) (start_of tri.now k) }
{
    let i = WIDTH * p.number();
    is_at(rows, i + PAIR, h.number()) & same_at(rows, i + START, tri, WIDTH * k + START)
}

// Half-edge h starts at v.
pub fn starts_at(rows: &[i32], h: Halfedge, v: Vertex) -> bool
    requires { (halfedge_number h < lent_halfedges rows.now) × (vertex_number v < 2 ^ 31) }
    ensures { result ≡ eq_z (start_of rows.now (halfedge_number h)) (pos (vertex_number v)) }
{
    is_at(rows, WIDTH * h.number() + START, v.number())
}
