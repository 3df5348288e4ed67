// Collapsing a short edge: the entry collapse_edge, which has a spare and a work list. Past the checks the rows in use go to the spare, the
// steps of collapsing work in place, and a refusal puts everything back.
#![tactic(auto)]

ghost use Rattle.std.specs.Prelude.{◌≡◌, true, ◌*◌, ◌<◌, ◌≤◌, length, drop};
ghost use Rattle.numbers.specs.Numbers.{halfedge_number, names};
ghost use Rattle.rows.specs.Halfedges.{lent_halfedges};
ghost use Rattle.rows.specs.Triples.{lent_triples};
ghost use Rattle.net.specs.Counts.{vertex_capacity_over};
ghost use Rattle.net.specs.Net.{net};
ghost use Rattle.steps.specs.Steps.{middle, begin, run_after, InUse, VerticesIn};
ghost use Rattle.judging.specs.Judge.{judge};
ghost use Rattle.collapsing.specs.Collapse.{collapse_at};
ghost use Rattle.collapse.specs.CollapseEdge.{collapse_edge_said, left, bar, barred, to_settle, collapse_settled, collapse_edge_named, tolerance, collapse_edge};

use judging::Tolerance;
use net::Counts;
use numbers::Halfedge;
use refused::Refusal;
use steps::Stop;

// An edge that is dead, or long, is barred.
fn bar(
    rows: &[i32],
    positions: &[u64],
    halfedges: usize,
    vertices: usize,
    tolerance: Tolerance,
    e: Halfedge,
) -> Result<(), Refusal>
    requires { (halfedge_number e < halfedges) × (InUse halfedges rows.now × VerticesIn vertices positions.now) }
    ensures { barred result ≡ bar (judge halfedges vertices rows.now positions.now tolerance (halfedge_number e)) }
{
    match judging::judge(rows, positions, halfedges, vertices, tolerance, e) {
        Ok(_) | Err(Refusal::OpenFan | Refusal::Stopped) => Ok(()),
        Err(refusal) => Err(refusal),
    }
}

// The steps of collapse_edge: an edge that was left alone stops them.
fn try_edge(
    rows: &mut [i32],
    positions: &mut [u64],
    vertices: &mut usize,
    references: &[i32],
    list: &mut [u32],
    halfedges: usize,
    capacity: usize,
    props: bool,
    tolerance: Tolerance,
    e: Halfedge,
) -> Result<(), Stop>
    requires { ((halfedge_number e < halfedges) × InUse halfedges rows.old) × (((vertices.old ≤ capacity) × VerticesIn capacity positions.old) × ((props ≡ true → halfedges ≤ 3 * lent_triples references.now) × (halfedges ≤ length list.old))) }
    ensures step { middle rows.new positions.new (run_after vertices.new result) ≡ to_settle (collapse_at halfedges capacity props references.now tolerance (halfedge_number e) (begin rows.old positions.old vertices.old)) }
    ensures beyond { drop halfedges list.new ≡ drop halfedges list.old }
{
    let tried = collapsing::collapse_step(
        rows, positions, vertices, references, list, halfedges, capacity, props, e, tolerance,
    );
    match tried {
        Ok(()) => Ok(()),
        Err(Refusal::NoRoom) => Err(Stop::NoRoom),
        Err(_) => Err(Stop::Stopped),
    }
}

// collapse_edge past the checks: the rows in use go to the spare, the steps work in place, and a refusal puts everything back.
fn collapse_settled(
    rows: &mut [i32],
    positions: &mut [u64],
    references: &[i32],
    spare_halfedges: &mut [i32],
    spare_positions: &mut [u64],
    list: &mut [u32],
    halfedges: usize,
    vertices: usize,
    capacity: usize,
    room: usize,
    props: bool,
    tolerance: Tolerance,
    e: Halfedge,
) -> Result<usize, Refusal>
    requires { ((halfedge_number e < halfedges) × InUse halfedges rows.old) × (((vertices ≤ capacity) × VerticesIn capacity positions.old) × ((props ≡ true → halfedges ≤ 3 * lent_triples references.now) × (((halfedges ≤ lent_halfedges spare_halfedges.old) × (vertices ≤ lent_triples spare_positions.old)) × ((halfedges ≤ room) × (room ≤ length list.old))))) }
    ensures { left (collapse_edge_said result) rows.new positions.new spare_halfedges.new spare_positions.new list.new ≡ collapse_settled halfedges vertices capacity room props references.now tolerance (halfedge_number e) rows.old positions.old spare_halfedges.old spare_positions.old list.old }
{
    rows::halfedges::copy(rows, spare_halfedges, halfedges);
    rows::triples::copy(positions, spare_positions, vertices);
    let mut used = vertices;
    let went = try_edge(
        rows, positions, &mut used, references, list, halfedges, capacity, props, tolerance, e,
    );
    steps::settle(
        rows,
        positions,
        spare_halfedges,
        spare_positions,
        halfedges,
        vertices,
        used,
        went,
    );
    stretches::fill(list, 0, 0, room);
    went?;
    Ok(used)
}

// Collapses the half-edge that a caller's number names.
#[tactic(auto, using(refused::proofs::Laws::refused_number), unfolding(crate::specs::CollapseEdge::collapse_edge_named))]
fn collapse_named(
    rows: &mut [i32],
    positions: &mut [u64],
    references: &[i32],
    spare_halfedges: &mut [i32],
    spare_positions: &mut [u64],
    list: &mut [u32],
    halfedges: usize,
    vertices: usize,
    room: usize,
    props: bool,
    tolerance: Tolerance,
    halfedge: i32,
) -> Result<usize, Refusal>
    requires { (InUse halfedges rows.old × (vertices ≤ vertex_capacity_over positions.old)) × ((props ≡ true → halfedges ≤ 3 * lent_triples references.now) × (((halfedges ≤ lent_halfedges spare_halfedges.old) × (vertices ≤ lent_triples spare_positions.old)) × ((halfedges ≤ room) × (room ≤ length list.old)))) }
    ensures { left (collapse_edge_said result) rows.new positions.new spare_halfedges.new spare_positions.new list.new ≡ collapse_edge_named halfedges vertices room props references.now tolerance rows.old positions.old spare_halfedges.old spare_positions.old list.old (names halfedge halfedges) }
{
    let e = refused::halfedge_given(halfedge, halfedges)?;
    bar(rows, positions, halfedges, vertices, tolerance, e)?;
    let capacity = net::vertex_capacity(positions);
    collapse_settled(
        rows,
        positions,
        references,
        spare_halfedges,
        spare_positions,
        list,
        halfedges,
        vertices,
        capacity,
        room,
        props,
        tolerance,
        e,
    )
}

// The entry collapse_edge: Ok with the vertices in use afterwards.
#[tactic(auto, using(refused::proofs::Laws::refused_number), unfolding(crate::specs::CollapseEdge::collapse_edge))]
pub fn collapse_edge(
    counts: Counts,
    halfedges: &mut [i32],
    positions: &mut [u64],
    normals: &[u64],
    references: &[i32],
    properties: &[u64],
    spare_halfedges: &mut [i32],
    spare_positions: &mut [u64],
    list: &mut [u32],
    halfedge: i32,
    first_new_vert: i32,
    tol: f64,
    epsilon: f64,
) -> Result<usize, Refusal>
    ensures { left (collapse_edge_said result) halfedges.new positions.new spare_halfedges.new spare_positions.new list.new ≡ collapse_edge counts (net halfedges.old positions.old normals.now references.now properties.now) spare_halfedges.old spare_positions.old list.old halfedge (tolerance first_new_vert tol epsilon) }
{
    if !net::shaped(
        counts, halfedges, positions, normals, references, properties,
    ) {
        return Err(Refusal::Shape);
    }
    let room = net::halfedge_capacity(counts, halfedges, normals, references);
    if !(net::spare_fits(counts, spare_halfedges, spare_positions)
        & net::long_enough(list.len(), room))
    {
        return Err(Refusal::ShortBuffer);
    }
    let props = (0 < counts.num_prop) & (0 < counts.references);
    let tolerance = Tolerance {
        first_new_vert,
        tol,
        epsilon,
    };
    soundness::check_rows(halfedges, counts.halfedges, counts.vertices)?;
    collapse_named(
        halfedges,
        positions,
        references,
        spare_halfedges,
        spare_positions,
        list,
        counts.halfedges,
        counts.vertices,
        room,
        props,
        tolerance,
        halfedge,
    )
}
