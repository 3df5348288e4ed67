// Splitting pinched vertices: the entry split_pinched_verts, and what it does past its checks, between two clearings of the work buffer.
#![tactic(auto)]

ghost use Rattle.std.specs.Prelude.{◌≡◌, ◌+◌, ◌≤◌, length};
ghost use Rattle.net.specs.Net.{net};
ghost use Rattle.net.specs.Counts.{vertex_capacity_over};
ghost use Rattle.splitting.specs.inner.Needs.{SoundRows};
ghost use Rattle.splitting.specs.Split.{split_outcome, split_sound, split_pinched};
ghost use Rattle.splitcleared.specs.Answer.{split_said};

use net::Counts;
use refused::Refusal;
use splitting::Visited;

// A net with nothing that calls for answer 1, 2 or 3.
pub fn split_sound(
    rows: &mut [i32],
    positions: &mut [u64],
    work: &mut [u32],
    visit: &mut [u32],
    halfedges: usize,
    vertices: usize,
) -> Result<Visited, Refusal>
    requires sound { SoundRows halfedges vertices rows.old }
    requires work_long { halfedges + vertices ≤ length work.old }
    requires visit_long { halfedges ≤ length visit.old }
    requires vertices_fit { vertices ≤ vertex_capacity_over positions.old }
    ensures { split_outcome (split_said result) rows.new positions.new work.new visit.new
        ≡ split_sound halfedges vertices rows.old positions.old work.old visit.old }
{
    stretches::fill(work, 0, 0, halfedges + vertices);
    let said = splitcleared::split_cleared(rows, positions, work, visit, halfedges, vertices);
    stretches::fill(work, 0, 0, halfedges + vertices);
    said
}

// The entry split_pinched_verts.
pub fn split_pinched_verts(
    counts: Counts,
    halfedges: &mut [i32],
    positions: &mut [u64],
    normals: &[u64],
    references: &[i32],
    properties: &[u64],
    work: &mut [u32],
    visit: &mut [u32],
) -> Result<Visited, Refusal>
    ensures { split_outcome (split_said result) halfedges.new positions.new work.new visit.new
        ≡ split_pinched counts (net halfedges.old positions.old normals.now references.now properties.now) work.old visit.old }
{
    if !net::shaped(
        counts, halfedges, positions, normals, references, properties,
    ) {
        return Err(Refusal::Shape);
    }
    if !(net::long_enough(work.len(), counts.halfedges + counts.vertices)
        & net::long_enough(visit.len(), counts.halfedges))
    {
        return Err(Refusal::ShortBuffer);
    }
    soundness::check_rows(halfedges, counts.halfedges, counts.vertices)?;
    split_sound(
        halfedges,
        positions,
        work,
        visit,
        counts.halfedges,
        counts.vertices,
    )
}
