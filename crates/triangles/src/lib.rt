// Taking one triangle out of a net: the step of collapse_tri. Its entry is the crate collapsetri.
#![tactic(auto)]

ghost use Rattle.std.specs.Prelude.{◌≡◌, List, ℕ, ◌<◌};
ghost use Rattle.numbers.specs.Numbers.{halfedge_number};
ghost use Rattle.steps.specs.Steps.{middle, begin, run_after, InUse};
ghost use Rattle.triangles.specs.Triangles.{emptied, collapsed, collapse};

use numbers::Halfedge;
use steps::Stop;

// Empties the three rows of the triangle of e, and keeps their props.
fn empty_triangle(rows: &mut [i32], halfedges: usize, e: Halfedge)
    requires { (halfedge_number e < halfedges) × InUse halfedges rows.old }
    ensures { rows.new ≡ emptied (halfedge_number e) rows.old }
{
    let second = e.next();
    let third = second.next();
    rows::halfedges::empty(rows, e);
    rows::halfedges::empty(rows, second);
    rows::halfedges::empty(rows, third);
}

// Pairs a and b and empties the triangle of e.
fn collapse_onto(rows: &mut [i32], halfedges: usize, e: Halfedge, a: Halfedge, b: Halfedge)
    requires { (halfedge_number a < halfedges) × ((halfedge_number b < halfedges) × ((halfedge_number e < halfedges) × InUse halfedges rows.old)) }
    ensures { rows.new ≡ collapsed (halfedge_number e) (halfedge_number a) (halfedge_number b) rows.old }
{
    pairing::pair_rows(rows, a, b);
    empty_triangle(rows, halfedges, e);
}

// The step of collapse_tri: nothing where its second row's pair is −1; it stops where another partner isn't there.
pub fn collapse_step(rows: &mut [i32], halfedges: usize, e: Halfedge) -> Result<(), Stop>
    requires { (halfedge_number e < halfedges) × InUse halfedges rows.old }
    ensures { (p : List ℕ) (n : ℕ) → middle rows.new p (run_after n result) ≡ collapse halfedges (halfedge_number e) (begin rows.old p n) }
{
    let second = e.next();
    if edgetests::is_unpaired(rows, second) {
        return Ok(());
    }
    let a = steps::pair_of(rows, second, halfedges)?;
    let b = steps::pair_of(rows, second.next(), halfedges)?;
    collapse_onto(rows, halfedges, e, a, b);
    Ok(())
}
