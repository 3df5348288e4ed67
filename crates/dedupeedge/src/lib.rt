// The entry dedupe_edge: the checks, then the step, which a spare lets put everything back.
#![tactic(auto)]

ghost use Rattle.std.specs.Prelude.{◌≡◌, ◌<◌, ◌≤◌};
ghost use Rattle.numbers.specs.Numbers.{halfedge_number, names};
ghost use Rattle.rows.specs.Halfedges.{lent_halfedges};
ghost use Rattle.rows.specs.Triples.{lent_triples};
ghost use Rattle.net.specs.Net.{net};
ghost use Rattle.growth.specs.Growth.{Fitting};
ghost use Rattle.settling.specs.Settling.{begun};
ghost use Rattle.dedupeedge.specs.DedupeEdge.{dedupe_said, left, dedupe_edge_at, dedupe_named, dedupe_edge};

use growth::{Extent, Limits};
use net::Counts;
use numbers::Halfedge;
use refused::Refusal;

// dedupe_edge past the checks: the rows in use go to the spare, the steps work in place, and a refusal puts everything back.
fn dedupe_settled(
    rows: &mut [i32],
    positions: &mut [u64],
    normals: &mut [u64],
    references: &mut [i32],
    spare_halfedges: &mut [i32],
    spare_positions: &mut [u64],
    limits: Limits,
    halfedges: usize,
    vertices: usize,
    e: Halfedge,
) -> Result<Extent, Refusal>
    requires { (halfedge_number e < halfedges) × (Fitting limits (begun halfedges vertices rows.old positions.old normals.old references.old) × ((halfedges ≤ lent_halfedges spare_halfedges.old) × (vertices ≤ lent_triples spare_positions.old))) }
    ensures { left (dedupe_said result) rows.new positions.new normals.new references.new spare_halfedges.new spare_positions.new ≡ dedupe_edge_at limits halfedges vertices (halfedge_number e) rows.old positions.old normals.old references.old spare_halfedges.old spare_positions.old }
{
    rows::halfedges::copy(rows, spare_halfedges, halfedges);
    rows::triples::copy(positions, spare_positions, vertices);
    let mut used = Extent {
        halfedges,
        vertices,
    };
    let went = dedupe::dedupe_step(rows, positions, normals, references, &mut used, limits, e);
    settling::settle_grown(
        rows,
        positions,
        normals,
        references,
        spare_halfedges,
        spare_positions,
        halfedges,
        vertices,
        limits,
        used,
        went,
    );
    settling::answer(used, went)
}

// Dedupes the half-edge that a caller's number names.
#[tactic(auto, unfolding(crate::specs::DedupeEdge::dedupe_named))]
fn dedupe_named(
    rows: &mut [i32],
    positions: &mut [u64],
    normals: &mut [u64],
    references: &mut [i32],
    spare_halfedges: &mut [i32],
    spare_positions: &mut [u64],
    limits: Limits,
    halfedges: usize,
    vertices: usize,
    halfedge: i32,
) -> Result<Extent, Refusal>
    requires { Fitting limits (begun halfedges vertices rows.old positions.old normals.old references.old) × ((halfedges ≤ lent_halfedges spare_halfedges.old) × (vertices ≤ lent_triples spare_positions.old)) }
    ensures { left (dedupe_said result) rows.new positions.new normals.new references.new spare_halfedges.new spare_positions.new ≡ dedupe_named limits halfedges vertices rows.old positions.old normals.old references.old spare_halfedges.old spare_positions.old (names halfedge halfedges) }
{
    let e = refused::halfedge_given(halfedge, halfedges)?;
    if !edgetests::is_paired(rows, e) {
        return Err(Refusal::Dead);
    }
    dedupe_settled(
        rows,
        positions,
        normals,
        references,
        spare_halfedges,
        spare_positions,
        limits,
        halfedges,
        vertices,
        e,
    )
}

// The entry dedupe_edge: on Ok the half-edges and vertices in use afterwards.
#[tactic(auto, using(refused::proofs::Laws::refused_number), unfolding(crate::specs::DedupeEdge::dedupe_edge))]
pub fn dedupe_edge(
    counts: Counts,
    halfedges: &mut [i32],
    positions: &mut [u64],
    normals: &mut [u64],
    references: &mut [i32],
    properties: &[u64],
    spare_halfedges: &mut [i32],
    spare_positions: &mut [u64],
    halfedge: i32,
) -> Result<Extent, Refusal>
    ensures { left (dedupe_said result) halfedges.new positions.new normals.new references.new spare_halfedges.new spare_positions.new ≡ dedupe_edge counts (net halfedges.old positions.old normals.old references.old properties.now) spare_halfedges.old spare_positions.old halfedge }
{
    if !net::shaped(
        counts, halfedges, positions, normals, references, properties,
    ) {
        return Err(Refusal::Shape);
    }
    if !net::spare_fits(counts, spare_halfedges, spare_positions) {
        return Err(Refusal::ShortBuffer);
    }
    let limits = settling::limits_of(counts, halfedges, positions, normals, references);
    soundness::check_rows(halfedges, counts.halfedges, counts.vertices)?;
    dedupe_named(
        halfedges,
        positions,
        normals,
        references,
        spare_halfedges,
        spare_positions,
        limits,
        counts.halfedges,
        counts.vertices,
        halfedge,
    )
}
