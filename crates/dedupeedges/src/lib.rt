// The entry dedupe_edges: the checks, then the rounds, which a spare lets put everything back.
#![tactic(auto)]

ghost use Rattle.std.specs.Prelude.{◌≡◌};
ghost use Rattle.net.specs.Net.{net};
ghost use Rattle.growth.specs.Growth.{Fitting};
ghost use Rattle.settling.specs.Settling.{begun};
ghost use Rattle.dedupeedges.specs.DedupeEdges.{edges_said, left, Enough, lent_enough, rounds_at, dedupe_edges};

use growth::{Extent, Limits};
use net::Counts;
use refused::Refusal;

// dedupe_edges past the checks: the rows in use go to the spare, the rounds work in place, and a refusal puts everything back.
fn rounds_at(
    rows: &mut [i32],
    positions: &mut [u64],
    normals: &mut [u64],
    references: &mut [i32],
    spare_halfedges: &mut [i32],
    spare_positions: &mut [u64],
    work: &mut [u32],
    list: &mut [u32],
    limits: Limits,
    halfedges: usize,
    vertices: usize,
) -> Result<Extent, Refusal>
    requires { Fitting limits (begun halfedges vertices rows.old positions.old normals.old references.old) × Enough limits halfedges vertices limits.halfedges spare_halfedges.old spare_positions.old work.old list.old }
    ensures { left (edges_said result) rows.new positions.new normals.new references.new spare_halfedges.new spare_positions.new work.new list.new ≡ rounds_at limits halfedges vertices rows.old positions.old normals.old references.old spare_halfedges.old spare_positions.old work.old list.old }
{
    rows::halfedges::copy(rows, spare_halfedges, halfedges);
    rows::triples::copy(positions, spare_positions, vertices);
    let mut used = Extent {
        halfedges,
        vertices,
    };
    let clean = rounds::rounds(
        rows, positions, normals, references, work, list, &mut used, limits,
    );
    let went = clean.and(Ok(()));
    stretches::fill(work, 0, 0, limits.halfedges);
    stretches::fill(list, 0, 0, limits.halfedges);
    settling::settle_grown(
        rows,
        positions,
        normals,
        references,
        spare_halfedges,
        spare_positions,
        halfedges,
        vertices,
        limits,
        used,
        went,
    );
    settling::answer(used, went)
}

// Whether the spare holds the rows in use, and work buffer and list are not too short.
pub fn enough(
    counts: Counts,
    spare_halfedges: &[i32],
    spare_positions: &[u64],
    work: &[u32],
    list: &[u32],
    capacity: usize,
    long: usize,
) -> bool
    ensures { result ≡ lent_enough counts capacity long spare_halfedges.now spare_positions.now work.now list.now }
{
    net::spare_fits(counts, spare_halfedges, spare_positions)
        & net::long_enough(work.len(), long)
        & net::long_enough(list.len(), capacity)
}

// The entry dedupe_edges: on Ok the half-edges and vertices in use afterwards.
#[tactic(auto, using(refused::proofs::Laws::refused_number), unfolding(crate::specs::DedupeEdges::dedupe_edges))]
pub fn dedupe_edges(
    counts: Counts,
    halfedges: &mut [i32],
    positions: &mut [u64],
    normals: &mut [u64],
    references: &mut [i32],
    properties: &[u64],
    spare_halfedges: &mut [i32],
    spare_positions: &mut [u64],
    work: &mut [u32],
    list: &mut [u32],
) -> Result<Extent, Refusal>
    ensures { left (edges_said result) halfedges.new positions.new normals.new references.new spare_halfedges.new spare_positions.new work.new list.new ≡ dedupe_edges counts (net halfedges.old positions.old normals.old references.old properties.now) spare_halfedges.old spare_positions.old work.old list.old }
{
    if !net::shaped(
        counts, halfedges, positions, normals, references, properties,
    ) {
        return Err(Refusal::Shape);
    }
    let limits = settling::limits_of(counts, halfedges, positions, normals, references);
    let capacity = limits.halfedges;
    if !enough(
        counts,
        spare_halfedges,
        spare_positions,
        work,
        list,
        capacity,
        capacity,
    ) {
        return Err(Refusal::ShortBuffer);
    }
    soundness::check_rows(halfedges, counts.halfedges, counts.vertices)?;
    rounds_at(
        halfedges,
        positions,
        normals,
        references,
        spare_halfedges,
        spare_positions,
        work,
        list,
        limits,
        counts.halfedges,
        counts.vertices,
    )
}
