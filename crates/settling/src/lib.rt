// How an operation on a net that grows begins and ends: what there can be, taken once at entry; and at the end, where the steps
// stopped, everything put back. And what its entry answers.
#![tactic(auto)]

ghost use Rattle.std.specs.Prelude.{◌≡◌, true, cond, ◌*◌, ◌/◌, ◌≤◌};
ghost use Rattle.laws.specs.Stretches.{filled};
ghost use Rattle.rows.specs.Triples.{lent_triples};
ghost use Rattle.growth.specs.Growth.{so_far, grown_after};
ghost use Rattle.settling.specs.Settling.{limits_over, Settles, settled_by, extent_said, said_of_grown};

use growth::{Extent, Limits};
use net::Counts;
use refused::Refusal;
use steps::Stop;

// The capacities over what is lent, and whether triangles have normals, and references.
pub fn limits_of(
    counts: Counts,
    halfedges: &[i32],
    positions: &[u64],
    normals: &[u64],
    references: &[i32],
) -> Limits
    ensures { result ≡ limits_over counts halfedges.now positions.now normals.now references.now }
{
    Limits {
        halfedges: net::halfedge_capacity(counts, halfedges, normals, references),
        vertices: net::vertex_capacity(positions),
        normals: 0 < counts.normals,
        references: 0 < counts.references,
    }
}

// The rows of three of triangles a up to b read zero, where there are any.
fn zero_faces<T: Copy>(rows: &mut [T], zero: T, there: bool, a: usize, b: usize)
    requires { (a ≤ b) × (there ≡ true → b ≤ lent_triples rows.old) }
    ensures { rows.new ≡ cond there (filled zero (3 * a) (3 * b) rows.old) rows.old }
{
    if there {
        stretches::fill(rows, zero, 3 * a, 3 * b);
    }
}

// Ends an operation: where the steps stopped, the rows in use come back from the spare and the free rows that were filled read zero.
pub fn settle_grown(
    rows: &mut [i32],
    positions: &mut [u64],
    normals: &mut [u64],
    references: &mut [i32],
    spare_halfedges: &[i32],
    spare_positions: &[u64],
    halfedges: usize,
    vertices: usize,
    limits: Limits,
    filled: Extent,
    went: Result<(), Stop>,
)
    requires { Settles limits halfedges vertices rows.old positions.old normals.old references.old spare_halfedges.now spare_positions.now filled }
    ensures { so_far rows.new positions.new normals.new references.new (grown_after filled went) ≡ settled_by limits halfedges vertices spare_halfedges.now spare_positions.now (so_far rows.old positions.old normals.old references.old (grown_after filled went)) }
{
    if went.is_ok() {
        return;
    }
    rows::halfedges::zero(rows, halfedges, filled.halfedges);
    steps::settle(
        rows,
        positions,
        spare_halfedges,
        spare_positions,
        halfedges,
        vertices,
        filled.vertices,
        went,
    );
    let triangles = filled.halfedges / 3;
    zero_faces(normals, 0, limits.normals, halfedges / 3, triangles);
    zero_faces(references, 0, limits.references, halfedges / 3, triangles);
}

// How the steps ended, as an entry says it.
pub fn answer(used: Extent, went: Result<(), Stop>) -> Result<Extent, Refusal>
    ensures { extent_said result ≡ said_of_grown (grown_after used went) }
{
    went?;
    Ok(used)
}
