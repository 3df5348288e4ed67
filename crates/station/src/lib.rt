// The entries of the library: each under a name that begins spoonferret_, as a program in Rust or C calls it through the crate station_c,
// which exports them. An answer is a struct that holds document 01's number and the values that come with it; a value that the answer does
// not carry is 0.
#![tactic(auto)]

ghost use Rattle.std.specs.Prelude.{◌≡◌};
ghost use Rattle.numbers.specs.Next.{next_answer, tri_answer};
ghost use Rattle.floats.specs.Short.{short_test};
ghost use Rattle.soundness.specs.Check.{check_net};
ghost use Rattle.net.specs.Net.{net};
ghost use Rattle.pairing.specs.Pairing.{pair_up};
ghost use Rattle.splitting.specs.Split.{split_pinched};
ghost use Rattle.owners.specs.Scan.{orbit_owners};
ghost use Rattle.updatevert.specs.UpdateVert.{update_vert};
ghost use Rattle.collapsetri.specs.CollapseTri.{collapse_tri};
ghost use Rattle.removefolded.specs.RemoveIfFolded.{remove_if_folded};
ghost use Rattle.formloop.specs.FormLoop.{form_loop};
ghost use Rattle.dedupeedge.specs.DedupeEdge.{dedupe_edge};
ghost use Rattle.dedupeedges.specs.DedupeEdges.{dedupe_edges};
ghost use Rattle.cleanup.specs.Cleanup.{cleanup_topology};
ghost use Rattle.collapse.specs.CollapseEdge.{collapse_edge, tolerance};
ghost use Rattle.explain.specs.Explain.{explain_row};
ghost use Rattle.explain.specs.Answer.{explain_told};
ghost use Rattle.told.specs.Told.{told, next_told, tri_told, length_told, counts_of, vector_of, eligible_of};
ghost use Rattle.rowtold.specs.Told.{row_told, update_told};
ghost use Rattle.station.specs.Left.{and_left, split_left, owners_left, loop_left, edge_left, edges_left, cleanup_left, collapse_left};

use counttold::{LoopAnswer, OwnersAnswer, SplitAnswer};
use explain::answer::ExplainAnswer;
use repairtold::{CleanupTopologyAnswer, CollapseEdgeAnswer, DedupeEdgeAnswer, DedupeEdgesAnswer};
use rowtold::{RowAnswer, UpdateAnswer};
use told::{Answer, LengthAnswer, NextAnswer, Point, TriAnswer, Used};

pub fn spoonferret_next_halfedge(h: i32) -> NextAnswer
    ensures { result ≡ next_told (next_answer h) }
{
    NextAnswer::from(numbers::next_halfedge(h))
}

pub fn spoonferret_tri_of(h: i32) -> TriAnswer
    ensures { result ≡ tri_told (tri_answer h) }
{
    TriAnswer::from(numbers::tri_of(h))
}

pub fn spoonferret_short_test(
    from: Point,
    to: Point,
    end_vert: i32,
    first_new_vert: i32,
    tol: f64,
    epsilon: f64,
) -> LengthAnswer
    ensures { result ≡ length_told (short_test (vector_of from) (vector_of to) end_vert first_new_vert tol epsilon) }
{
    LengthAnswer::from(floats::short_test(
        from.into(),
        to.into(),
        end_vert,
        first_new_vert,
        tol,
        epsilon,
    ))
}

pub fn spoonferret_check_net(
    used: Used,
    halfedges: &[i32],
    positions: &[u64],
    normals: &[u64],
    references: &[i32],
    properties: &[u64],
) -> RowAnswer
    ensures { result ≡ row_told (check_net (counts_of used) (net halfedges.now positions.now normals.now references.now properties.now)) }
{
    RowAnswer::from(soundness::check_net(
        used.into(),
        halfedges,
        positions,
        normals,
        references,
        properties,
    ))
}

pub fn spoonferret_explain_row(
    used: Used,
    halfedges: &[i32],
    positions: &[u64],
    normals: &[u64],
    references: &[i32],
    properties: &[u64],
    row: i32,
) -> ExplainAnswer
    ensures { result ≡ explain_told (explain_row (counts_of used) (net halfedges.now positions.now normals.now references.now properties.now) row) }
{
    ExplainAnswer::from(explain::explain_row(
        used.into(),
        halfedges,
        positions,
        normals,
        references,
        properties,
        row,
    ))
}

pub fn spoonferret_pair_up(
    used: Used,
    halfedges: &mut [i32],
    positions: &[u64],
    normals: &[u64],
    references: &[i32],
    properties: &[u64],
    first: i32,
    second: i32,
) -> Answer
    ensures { (result, halfedges.new) ≡ and_left told (pair_up (counts_of used) (net halfedges.old positions.now normals.now references.now properties.now) first second) }
{
    Answer::from(pairing::pair_up(
        used.into(),
        halfedges,
        positions,
        normals,
        references,
        properties,
        first,
        second,
    ))
}

pub fn spoonferret_update_vert(
    used: Used,
    halfedges: &mut [i32],
    positions: &[u64],
    normals: &[u64],
    references: &[i32],
    properties: &[u64],
    vertex: i32,
    start: i32,
    end: i32,
) -> UpdateAnswer
    ensures { (result, halfedges.new) ≡ and_left update_told (update_vert (counts_of used) (net halfedges.old positions.now normals.now references.now properties.now) vertex start end) }
{
    UpdateAnswer::from(updatevert::update_vert(
        used.into(),
        halfedges,
        positions,
        normals,
        references,
        properties,
        vertex,
        start,
        end,
    ))
}

pub fn spoonferret_collapse_tri(
    used: Used,
    halfedges: &mut [i32],
    positions: &[u64],
    normals: &[u64],
    references: &[i32],
    properties: &[u64],
    halfedge: i32,
) -> RowAnswer
    ensures { (result, halfedges.new) ≡ and_left row_told (collapse_tri (counts_of used) (net halfedges.old positions.now normals.now references.now properties.now) halfedge) }
{
    RowAnswer::from(collapsetri::collapse_tri(
        used.into(),
        halfedges,
        positions,
        normals,
        references,
        properties,
        halfedge,
    ))
}

pub fn spoonferret_remove_if_folded(
    used: Used,
    halfedges: &mut [i32],
    positions: &mut [u64],
    normals: &[u64],
    references: &[i32],
    properties: &[u64],
    halfedge: i32,
) -> RowAnswer
    ensures { (result, (halfedges.new, positions.new)) ≡ and_left row_told (remove_if_folded (counts_of used) (net halfedges.old positions.old normals.now references.now properties.now) halfedge) }
{
    RowAnswer::from(removefolded::remove_if_folded(
        used.into(),
        halfedges,
        positions,
        normals,
        references,
        properties,
        halfedge,
    ))
}

pub fn spoonferret_form_loop(
    used: Used,
    halfedges: &mut [i32],
    positions: &mut [u64],
    normals: &[u64],
    references: &[i32],
    properties: &[u64],
    spare_halfedges: &mut [i32],
    spare_positions: &mut [u64],
    first: i32,
    second: i32,
) -> LoopAnswer
    ensures { (result, halfedges.new, positions.new, spare_halfedges.new, spare_positions.new)
        ≡ loop_left (form_loop (counts_of used) (net halfedges.old positions.old normals.now references.now properties.now) spare_halfedges.old spare_positions.old first second) }
{
    LoopAnswer::from(formloop::form_loop(
        used.into(),
        halfedges,
        positions,
        normals,
        references,
        properties,
        spare_halfedges,
        spare_positions,
        first,
        second,
    ))
}

pub fn spoonferret_orbit_owners(
    used: Used,
    halfedges: &[i32],
    positions: &[u64],
    normals: &[u64],
    references: &[i32],
    properties: &[u64],
    work: &mut [u8],
    list: &mut [u32],
    end_too: bool,
) -> OwnersAnswer
    ensures { (result, work.new, list.new)
        ≡ owners_left (orbit_owners (eligible_of end_too) (counts_of used) (net halfedges.now positions.now normals.now references.now properties.now) work.old list.old) }
{
    OwnersAnswer::from(owners::orbit_owners(
        used.into(),
        halfedges,
        positions,
        normals,
        references,
        properties,
        work,
        list,
        told::eligible_of(end_too),
    ))
}

pub fn spoonferret_split_pinched_verts(
    used: Used,
    halfedges: &mut [i32],
    positions: &mut [u64],
    normals: &[u64],
    references: &[i32],
    properties: &[u64],
    work: &mut [u32],
    visit: &mut [u32],
) -> SplitAnswer
    ensures { (result, halfedges.new, positions.new, work.new, visit.new)
        ≡ split_left (split_pinched (counts_of used) (net halfedges.old positions.old normals.now references.now properties.now) work.old visit.old) }
{
    SplitAnswer::from(split::split_pinched_verts(
        used.into(),
        halfedges,
        positions,
        normals,
        references,
        properties,
        work,
        visit,
    ))
}

pub fn spoonferret_dedupe_edge(
    used: Used,
    halfedges: &mut [i32],
    positions: &mut [u64],
    normals: &mut [u64],
    references: &mut [i32],
    properties: &[u64],
    spare_halfedges: &mut [i32],
    spare_positions: &mut [u64],
    halfedge: i32,
) -> DedupeEdgeAnswer
    ensures { (result, halfedges.new, positions.new, normals.new, references.new, spare_halfedges.new, spare_positions.new)
        ≡ edge_left (dedupe_edge (counts_of used) (net halfedges.old positions.old normals.old references.old properties.now) spare_halfedges.old spare_positions.old halfedge) }
{
    DedupeEdgeAnswer::from(dedupeedge::dedupe_edge(
        used.into(),
        halfedges,
        positions,
        normals,
        references,
        properties,
        spare_halfedges,
        spare_positions,
        halfedge,
    ))
}

pub fn spoonferret_dedupe_edges(
    used: Used,
    halfedges: &mut [i32],
    positions: &mut [u64],
    normals: &mut [u64],
    references: &mut [i32],
    properties: &[u64],
    spare_halfedges: &mut [i32],
    spare_positions: &mut [u64],
    work: &mut [u32],
    list: &mut [u32],
) -> DedupeEdgesAnswer
    ensures { (result, halfedges.new, positions.new, normals.new, references.new, spare_halfedges.new, spare_positions.new, work.new, list.new)
        ≡ edges_left (dedupe_edges (counts_of used) (net halfedges.old positions.old normals.old references.old properties.now) spare_halfedges.old spare_positions.old work.old list.old) }
{
    DedupeEdgesAnswer::from(dedupeedges::dedupe_edges(
        used.into(),
        halfedges,
        positions,
        normals,
        references,
        properties,
        spare_halfedges,
        spare_positions,
        work,
        list,
    ))
}

pub fn spoonferret_cleanup_topology(
    used: Used,
    halfedges: &mut [i32],
    positions: &mut [u64],
    normals: &mut [u64],
    references: &mut [i32],
    properties: &[u64],
    spare_halfedges: &mut [i32],
    spare_positions: &mut [u64],
    work: &mut [u32],
    list: &mut [u32],
) -> CleanupTopologyAnswer
    ensures { (result, halfedges.new, positions.new, normals.new, references.new, spare_halfedges.new, spare_positions.new, work.new, list.new)
        ≡ cleanup_left (cleanup_topology (counts_of used) (net halfedges.old positions.old normals.old references.old properties.now) spare_halfedges.old spare_positions.old work.old list.old) }
{
    CleanupTopologyAnswer::from(cleanup::cleanup_topology(
        used.into(),
        halfedges,
        positions,
        normals,
        references,
        properties,
        spare_halfedges,
        spare_positions,
        work,
        list,
    ))
}

pub fn spoonferret_collapse_edge(
    used: Used,
    halfedges: &mut [i32],
    positions: &mut [u64],
    normals: &[u64],
    references: &[i32],
    properties: &[u64],
    spare_halfedges: &mut [i32],
    spare_positions: &mut [u64],
    list: &mut [u32],
    halfedge: i32,
    first_new_vert: i32,
    tol: f64,
    epsilon: f64,
) -> CollapseEdgeAnswer
    ensures { (result, halfedges.new, positions.new, spare_halfedges.new, spare_positions.new, list.new)
        ≡ collapse_left (collapse_edge (counts_of used) (net halfedges.old positions.old normals.now references.now properties.now) spare_halfedges.old spare_positions.old list.old halfedge (tolerance first_new_vert tol epsilon)) }
{
    CollapseEdgeAnswer::from(collapse::collapse_edge(
        used.into(),
        halfedges,
        positions,
        normals,
        references,
        properties,
        spare_halfedges,
        spare_positions,
        list,
        halfedge,
        first_new_vert,
        tol,
        epsilon,
    ))
}
