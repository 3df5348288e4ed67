// The quick pass over all rows, which makes fewer tests than each row's own: where every row passes, every row is in order, and where one does
// not, nothing is known.
#![tactic(auto)]

ghost use Rattle.std.specs.Prelude.{◌≡◌, true, ◌+◌, ◌<◌, ◌≤◌};
ghost use Rattle.numbers.specs.Numbers.{nothing};
ghost use Rattle.rows.specs.Halfedges.{lent_halfedges};
ghost use Rattle.rowtests.specs.Order.{paired3, least_out};
ghost use Rattle.rowtests.specs.inner.Triangle.{TriangleAt};
ghost use Rattle.quickpass.specs.inner.Quick.{started3, placed3, chained3, Met3, PassedFrom, RowsAt};

use rows::corners;

// All three corners have a start of 0 or more.
fn is_started(tri: &[i32]) -> bool
    requires { 3 ≤ lent_halfedges tri.now }
    ensures { result ≡ started3 tri.now 0 1 2 }
{
    corners::started(tri, 0) & corners::started(tri, 1) & corners::started(tri, 2)
}

// All three corners, which start at 0 or more, start at one of `vertices`. Each test has a branch of its own: so it is the faster.
fn is_placed(tri: &[i32], vertices: usize) -> bool
    requires { (3 ≤ lent_halfedges tri.now) × (started3 tri.now 0 1 2 ≡ true) }
    ensures { result ≡ placed3 vertices tri.now 0 1 2 }
{
    if !corners::start_below(tri, 0, vertices) {
        return false;
    }
    if !corners::start_below(tri, 1, vertices) {
        return false;
    }
    corners::start_below(tri, 2, vertices)
}

// Each corner ends where the one behind it starts.
fn is_chained(tri: &[i32]) -> bool
    requires { 3 ≤ lent_halfedges tri.now }
    ensures { result ≡ chained3 tri.now 0 1 2 }
{
    corners::joined(tri, 0, 1) & corners::joined(tri, 1, 2) & corners::joined(tri, 2, 0)
}

// The partners of all three corners, which have one, are there; each has the corner as its pair and starts where the corner
// behind that one starts.
fn is_met(tri: &[i32], rows: &[i32], t: usize, halfedges: usize) -> bool
    requires { (TriangleAt halfedges rows.now tri.now t) × (paired3 tri.now 0 1 2 ≡ true) }
    ensures { result ≡ true → Met3 halfedges rows.now tri.now t }
{
    let first = corners::partner_known(tri, 0);
    if halfedges <= first.number() {
        return false;
    }
    let second = corners::partner_known(tri, 1);
    if halfedges <= second.number() {
        return false;
    }
    let third = corners::partner_known(tri, 2);
    if halfedges <= third.number() {
        return false;
    }
    corners::met(tri, 1, rows, numbers::halfedge_counted(t), first)
        & corners::met(tri, 2, rows, numbers::halfedge_counted(t + 1), second)
        & corners::met(tri, 0, rows, numbers::halfedge_counted(t + 2), third)
}

// Each row of the triangle passes for live by tests of its own; that its partner ends where it starts, the partner's test says.
fn is_live_triangle(tri: &[i32], rows: &[i32], t: usize, halfedges: usize, vertices: usize) -> bool
    requires { TriangleAt halfedges rows.now tri.now t }
    ensures { result ≡ true → PassedFrom halfedges vertices rows.now t (t + 3) }
{
    if !(is_started(tri) & rowtests::is_paired(tri)) {
        return false;
    }
    if !is_placed(tri, vertices) {
        return false;
    }
    if !rowtests::is_apart(tri) {
        return false;
    }
    if !is_chained(tri) {
        return false;
    }
    is_met(tri, rows, t, halfedges)
}

// The first triangle from `from` on that does not pass for live. It is called from two places, so that it stays a function of its own.
fn live_run(rows: &[i32], from: usize, halfedges: usize, vertices: usize) -> usize
    requires { RowsAt halfedges rows.now from }
    ensures { (RowsAt halfedges rows.now result) × (from ≤ result) × (PassedFrom halfedges vertices rows.now from result) }
{
    for k in from / 3..halfedges / 3 {
        let t = 3 * k;
        let tri = rows::halfedges::from_row(rows, numbers::halfedge_counted(t));
        if !is_live_triangle(tri, rows, t, halfedges, vertices) {
            return t;
        }
    }
    halfedges
}

// Every row is in order. Where it says no, nothing is known: then the search decides.
pub fn is_sound(rows: &[i32], halfedges: usize, vertices: usize) -> bool
    requires { RowsAt halfedges rows.now 0 }
    ensures { result ≡ true → nothing ≡ least_out halfedges vertices rows.now }
{
    let mut t = live_run(rows, 0, halfedges, vertices);
    while t < halfedges {
        let tri = rows::halfedges::from_row(rows, numbers::halfedge_counted(t));
        if !rowtests::is_dead(tri) {
            return false;
        }
        t = live_run(rows, t + 3, halfedges, vertices);
    }
    true
}
