// Whether the rows of one triangle are in order: the tests of its three corners, and the least of its rows that is not.
#![tactic(auto)]

ghost use Rattle.std.specs.Prelude.{◌≡◌, ◌+◌, ◌<◌, ◌≤◌, ◌^◌};
ghost use Rattle.numbers.specs.Numbers.{halfedge_named, halfedge_number, names};
ghost use Rattle.rows.specs.Halfedges.{lent_halfedges, pair_of};
ghost use Rattle.rowtests.specs.Order.{empty3, paired3, apart3, mirrored_by, is_live, in_order, first_failing};
ghost use Rattle.rowtests.specs.inner.Triangle.{TriangleAt};

use numbers::Halfedge;
use rows::corners;

// All three corners are empty.
pub fn is_dead(tri: &[i32]) -> bool
    requires { 3 ≤ lent_halfedges tri.now }
    ensures { result ≡ empty3 tri.now 0 1 2 }
{
    corners::empty(tri, 0) & corners::empty(tri, 1) & corners::empty(tri, 2)
}

// All three corners have a pair of 0 or more.
pub fn is_paired(tri: &[i32]) -> bool
    requires { 3 ≤ lent_halfedges tri.now }
    ensures { result ≡ paired3 tri.now 0 1 2 }
{
    corners::paired(tri, 0) & corners::paired(tri, 1) & corners::paired(tri, 2)
}

// The three corners start at different vertices.
pub fn is_apart(tri: &[i32]) -> bool
    requires { 3 ≤ lent_halfedges tri.now }
    ensures { result ≡ apart3 tri.now 0 1 2 }
{
    !corners::same_start(tri, 0, 1)
        & !corners::same_start(tri, 1, 2)
        & !corners::same_start(tri, 2, 0)
}

// The corner's partner is there, has h as its pair and the corner's ends exchanged.
fn has_partner(tri: &[i32], k: usize, rows: &[i32], h: Halfedge, halfedges: usize) -> bool
    requires { (k < lent_halfedges tri.now) × ((halfedges ≤ lent_halfedges rows.now) × (halfedge_number h < 2 ^ 31)) }
    ensures { result ≡ mirrored_by tri.now k rows.now (halfedge_number h) (names (pair_of tri.now k) halfedges) }
{
    match corners::partner(tri, k, halfedges) {
        Some(p) => corners::mirrored(tri, k, rows, h, p),
        None => false,
    }
}

// Corner k, which is half-edge h, is live; j is the corner behind it.
fn is_live(
    tri: &[i32],
    k: usize,
    j: usize,
    rows: &[i32],
    h: Halfedge,
    halfedges: usize,
    vertices: usize,
) -> bool
    requires { ((k < lent_halfedges tri.now) × (j < lent_halfedges tri.now)) × ((halfedges ≤ lent_halfedges rows.now) × (halfedge_number h < 2 ^ 31)) }
    ensures { result ≡ is_live halfedges vertices tri.now k j rows.now (halfedge_number h) }
{
    corners::within(tri, k, vertices)
        & corners::joined(tri, k, j)
        & has_partner(tri, k, rows, h, halfedges)
}

// The least of a triangle's three rows that is not in order. It receives the part that starts at the triangle's first row, t.
pub fn check_triangle(
    tri: &[i32],
    rows: &[i32],
    t: usize,
    halfedges: usize,
    vertices: usize,
) -> Option<Halfedge>
    requires { TriangleAt halfedges rows.now tri.now t }
    ensures { halfedge_named result ≡ first_failing (in_order halfedges vertices rows.now) 3 t }
{
    if is_dead(tri) {
        return None;
    }
    let first = numbers::halfedge_counted(t);
    if !(is_paired(tri) & is_apart(tri) & is_live(tri, 0, 1, rows, first, halfedges, vertices)) {
        return Some(first);
    }
    let second = numbers::halfedge_counted(t + 1);
    if !is_live(tri, 1, 2, rows, second, halfedges, vertices) {
        return Some(second);
    }
    let third = numbers::halfedge_counted(t + 2);
    if !is_live(tri, 2, 0, rows, third, halfedges, vertices) {
        return Some(third);
    }
    None
}
