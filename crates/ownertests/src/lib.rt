// What the owner scan tests of one half-edge, in a net that need not be sound: whether it is eligible, whether its pair points back, and where
// it turns to.
#![tactic(auto)]

ghost use Rattle.std.specs.Prelude.{◌≡◌, ◌<◌, ◌≤◌};
ghost use Rattle.numbers.specs.Numbers.{halfedge_number, halfedge_named, names};
ghost use Rattle.rows.specs.Halfedges.{pair_of, lent_halfedges};
ghost use Rattle.ownertests.specs.Tests.{is_back, points_back, turns_to};
ghost use Rattle.ownertests.specs.Tests.{eligible as is_eligible};
ghost use Rattle.ownertests.specs.inner.Needs.{InUse};

use numbers::Halfedge;

// Which half-edges count: those with start ≥ 0, or with start and end ≥ 0.
#[derive(Clone, Copy)]
pub enum Eligible {
    Start,
    StartAndEnd,
}

// h counts, by the caller's choice.
pub fn is_eligible(rows: &[i32], h: Halfedge, eligible: Eligible) -> bool
    requires { halfedge_number h < lent_halfedges rows.now }
    ensures { result ≡ is_eligible eligible rows.now (halfedge_number h) }
{
    match eligible {
        Eligible::Start => edgetests::is_started(rows, h),
        Eligible::StartAndEnd => edgetests::is_started(rows, h) & edgetests::is_ended(rows, h),
    }
}

// The pair of p is h.
fn is_pair(rows: &[i32], p: Halfedge, h: Halfedge, halfedges: usize) -> bool
    requires { halfedge_number p < lent_halfedges rows.now }
    ensures { result ≡ is_back (halfedge_number h) (names (pair_of rows.now (halfedge_number p)) halfedges) }
{
    rows::halfedges::pair_of(rows, p, halfedges) == Some(h)
}

// The pair of h is below 0, or is there and points back.
pub fn is_paired_back(rows: &[i32], h: Halfedge, halfedges: usize) -> bool
    requires { (halfedge_number h < lent_halfedges rows.now) × (halfedges ≤ lent_halfedges rows.now) }
    ensures { result ≡ points_back halfedges rows.now (halfedge_number h) }
{
    match rows::halfedges::pair_of(rows, h, halfedges) {
        Some(p) => is_pair(rows, p, h, halfedges),
        None => !edgetests::is_paired(rows, h),
    }
}

// Where h turns to, if its pair is there and points back.
pub fn turned(rows: &[i32], h: Halfedge, halfedges: usize) -> Option<Halfedge>
    requires { InUse halfedges rows.now × (halfedge_number h < halfedges) }
    ensures { halfedge_named result ≡ turns_to halfedges rows.now (halfedge_number h) }
{
    let p = rows::halfedges::pair_of(rows, h, halfedges)?;
    if !is_pair(rows, p, h, halfedges) {
        return None;
    }
    Some(p.next())
}
