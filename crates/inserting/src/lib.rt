// Inserting at an edge that is met again: the end vertex is copied, the rows on one side of the edge get the copy, and two triangles
// fill the gap that opens.
#![tactic(auto)]

ghost use Rattle.std.specs.Prelude.{◌≡◌, List, ℕ, ◌+◌, ◌<◌, ◌≤◌, ◌^◌, IfOk};
ghost use Rattle.numbers.specs.Numbers.{halfedge_number, vertex_number};
ghost use Rattle.steps.specs.Steps.{middle, begin, run_after};
ghost use Rattle.growth.specs.Growth.{growing, beginning, Fits, FacesFit, Fitting, More};
ghost use Rattle.inserting.specs.Inserting.{Stands, insert_at, insert};

use growth::{Extent, Limits};
use numbers::{Halfedge, Vertex};
use steps::Stop;

// The rows from `here` up to `other` end at x, a copy of v, and two triangles between v and x fill the gap that opens.
fn insert_at(
    rows: &mut [i32],
    normals: &mut [u64],
    references: &mut [i32],
    halfedges: &mut usize,
    limits: Limits,
    v: Vertex,
    x: Vertex,
    here: Halfedge,
    other: Halfedge,
    e: Halfedge,
) -> Result<(), Stop>
    requires { ((halfedge_number here < halfedges.old) × ((halfedge_number other < halfedges.old) × (halfedge_number e < halfedges.old))) × (((vertex_number v < 2 ^ 31) × (vertex_number x < 2 ^ 31)) × (Fits limits halfedges.old rows.old × FacesFit limits normals.old references.old)) }
    ensures step { (p : List ℕ) (m : ℕ) → growing (middle rows.new p (run_after m result)) halfedges.new normals.new references.new ≡ insert_at limits (vertex_number v) (vertex_number x) (halfedge_number here) (halfedge_number other) (halfedge_number e) (growing (begin rows.old p m) halfedges.old normals.old references.old) }
    ensures within { (halfedges.old ≤ halfedges.new) × Fits limits halfedges.new rows.new }
{
    let used = *halfedges;
    let next = e.next();
    walks::update_step(rows, used, x, here, other)?;
    growth::beside_step(
        rows, normals, references, halfedges, limits, v, x, here, next,
    )?;
    growth::beside_step(
        rows, normals, references, halfedges, limits, x, v, other, next,
    )?;
    pairing::pair_rows(
        rows,
        numbers::halfedge_appended(used + 3),
        numbers::halfedge_appended(used),
    );
    Ok(())
}

// At c, which starts where the edge e does: a copy of v is appended first. The search goes one on from c, and stands there afterwards;
// the edge's own next leads to the other side.
pub fn insert(
    rows: &mut [i32],
    positions: &mut [u64],
    normals: &mut [u64],
    references: &mut [i32],
    used: &mut Extent,
    limits: Limits,
    v: Vertex,
    c: Halfedge,
    e: Halfedge,
) -> Result<Halfedge, Stop>
    requires { ((halfedge_number c < used.old.halfedges) × ((halfedge_number e < used.old.halfedges) × (vertex_number v < used.old.vertices))) × Fitting limits (beginning rows.old positions.old normals.old references.old used.old) }
    ensures step { Stands rows.new positions.new normals.new references.new used.new result (insert limits (vertex_number v) (halfedge_number c) (halfedge_number e) (beginning rows.old positions.old normals.old references.old used.old)) }
    ensures within { More used.old used.new × Fitting limits (beginning rows.new positions.new normals.new references.new used.new) }
    ensures place { IfOk result (λ h. halfedge_number h < used.old.halfedges) }
{
    let x = numbers::vertex_appended(used.vertices);
    loops::append_copy(positions, &mut used.vertices, limits.vertices, v)?;
    let here = steps::pair_of(rows, c.next(), used.halfedges)?;
    let other = steps::pair_of(rows, e.next(), used.halfedges)?;
    insert_at(
        rows,
        normals,
        references,
        &mut used.halfedges,
        limits,
        v,
        x,
        here,
        other,
        e,
    )?;
    Ok(here)
}
