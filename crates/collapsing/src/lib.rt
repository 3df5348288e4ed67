// Collapsing a short edge on a net in the middle of an operation: the work of collapse_edge past its checks. Nothing here asks for rows in
// order: an edge that has no pair, is long, or has a start whose fan is open is left alone, and a row that isn't there stops the steps.
#![tactic(auto)]

ghost use Rattle.std.specs.Prelude.{◌≡◌, true, [], ◌*◌, ◌<◌, ◌≤◌, ◌^◌, length, drop};
ghost use Rattle.numbers.specs.Numbers.{halfedge_number, vertex_number};
ghost use Rattle.numbers.specs.Next.{next};
ghost use Rattle.rows.specs.Halfedges.{lent_halfedges};
ghost use Rattle.rows.specs.Triples.{lent_triples};
ghost use Rattle.steps.specs.Steps.{middle, begin, run_after, InUse, VerticesIn};
ghost use Rattle.rings.specs.Ring.{ring};
ghost use Rattle.spinning.specs.Spin.{Around, spun};
ghost use Rattle.collapsing.specs.Collapse.{close, about, with_list, short_at, tried, collapse_at};

use judging::Tolerance;
use numbers::{Halfedge, Vertex};
use refused::Refusal;
use spinning::Ends;
use steps::Stop;

// After the loop: the last update, from `start` on, the edge's triangle taken out, and what has folded there.
fn close(
    rows: &mut [i32],
    positions: &mut [u64],
    halfedges: usize,
    vertices: usize,
    start: Halfedge,
    v: Vertex,
    e: Halfedge,
) -> Result<(), Stop>
    requires { ((halfedge_number e < halfedges) × (halfedge_number start < halfedges)) × ((vertex_number v < 2 ^ 31) × (InUse halfedges rows.old × VerticesIn vertices positions.old)) }
    ensures { middle rows.new positions.new (run_after vertices result) ≡ close halfedges (vertex_number v) (halfedge_number e) (spun (begin rows.old positions.old vertices) (halfedge_number start)) }
{
    let to = e.next().next();
    walks::update_step(rows, halfedges, v, start, to)?;
    triangles::collapse_step(rows, halfedges, e)?;
    folds::fold_step(rows, positions, halfedges, vertices, start)
}

// With the list: the start is lost, the partner's triangle taken out, then the loop about the start, from `first` on.
fn about(
    rows: &mut [i32],
    positions: &mut [u64],
    vertices: &mut usize,
    references: &[i32],
    list: &[u32],
    ends: Ends,
    v: Vertex,
    first: Halfedge,
) -> Result<(), Stop>
    requires { Around ends references.now list.now × (((ends.halfedges ≤ lent_halfedges rows.old) × (ends.capacity ≤ lent_triples positions.old)) × ((vertices.old ≤ ends.capacity) × ((halfedge_number first < ends.halfedges) × (vertex_number v < 2 ^ 31)))) }
    ensures step { middle rows.new positions.new (run_after vertices.new result) ≡ about ends.halfedges ends.capacity ends.props references.now (vertex_number v) (halfedge_number ends.edge) (halfedge_number ends.partner) (halfedge_number first) list.now (begin rows.old positions.old vertices.old) }
    ensures within { vertices.new ≤ ends.capacity }
{
    let e = ends.edge;
    let p = ends.partner;
    let halfedges = ends.halfedges;
    folds::lose_step(rows, positions, *vertices, e)?;
    triangles::collapse_step(rows, halfedges, p)?;
    let start = spinning::spin(rows, positions, vertices, references, list, ends, first)?;
    close(rows, positions, halfedges, *vertices, start, v, e)
}

// Lists the neighbours of the kept vertex, from `from` on, and goes on with the list: a walk that never ends stops the steps.
fn listed_about(
    rows: &mut [i32],
    positions: &mut [u64],
    vertices: &mut usize,
    references: &[i32],
    list: &mut [u32],
    ends: Ends,
    v: Vertex,
    first: Halfedge,
    from: Halfedge,
) -> Result<(), Stop>
    requires { Around ends references.now [] × (((ends.halfedges ≤ lent_halfedges rows.old) × (ends.capacity ≤ lent_triples positions.old)) × ((vertices.old ≤ ends.capacity) × (((halfedge_number first < ends.halfedges) × (halfedge_number from < ends.halfedges)) × ((vertex_number v < 2 ^ 31) × (ends.halfedges ≤ length list.old))))) }
    ensures step { middle rows.new positions.new (run_after vertices.new result) ≡ with_list ends.halfedges ends.capacity ends.props references.now (vertex_number v) (halfedge_number ends.edge) (halfedge_number ends.partner) (halfedge_number first) (begin rows.old positions.old vertices.old) (ring ends.halfedges (next (next (halfedge_number ends.partner))) rows.old ends.halfedges (halfedge_number from)) }
    ensures within { vertices.new ≤ ends.capacity }
    ensures beyond { drop ends.halfedges list.new ≡ drop ends.halfedges list.old }
{
    let p = ends.partner;
    let to = p.next().next();
    match rings::list_ring(rows, list, ends.halfedges, from, to) {
        Some(n) => about(
            rows,
            positions,
            vertices,
            references,
            &list[..n],
            ends,
            v,
            first,
        ),
        None => Err(Stop::Stopped),
    }
}

// Collapses an edge that was judged short.
fn short_step(
    rows: &mut [i32],
    positions: &mut [u64],
    vertices: &mut usize,
    references: &[i32],
    list: &mut [u32],
    ends: Ends,
    v: Vertex,
) -> Result<(), Stop>
    requires { Around ends references.now [] × (((ends.halfedges ≤ lent_halfedges rows.old) × (ends.capacity ≤ lent_triples positions.old)) × ((vertices.old ≤ ends.capacity) × ((vertex_number v < 2 ^ 31) × (ends.halfedges ≤ length list.old)))) }
    ensures step { middle rows.new positions.new (run_after vertices.new result) ≡ short_at ends.halfedges ends.capacity ends.props references.now (vertex_number v) (halfedge_number ends.edge) (halfedge_number ends.partner) (begin rows.old positions.old vertices.old) }
    ensures within { vertices.new ≤ ends.capacity }
    ensures beyond { drop ends.halfedges list.new ≡ drop ends.halfedges list.old }
{
    let e = ends.edge;
    let p = ends.partner;
    let first = walks::onward(rows, ends.halfedges, p).ok_or(Stop::Stopped)?;
    let from = walks::onward(rows, ends.halfedges, e).ok_or(Stop::Stopped)?;
    listed_about(
        rows, positions, vertices, references, list, ends, v, first, from,
    )
}

// Tries to collapse the edge e: the work of collapse_edge past its checks. Ok: the edge went. NoRoom, Stopped: the steps were refused.
// Else nothing was written, since e has no pair (Dead), has a start whose fan is open (OpenFan), or is long (Long).
pub fn collapse_step(
    rows: &mut [i32],
    positions: &mut [u64],
    vertices: &mut usize,
    references: &[i32],
    list: &mut [u32],
    halfedges: usize,
    capacity: usize,
    props: bool,
    e: Halfedge,
    tolerance: Tolerance,
) -> Result<(), Refusal>
    requires { ((halfedge_number e < halfedges) × InUse halfedges rows.old) × (((vertices.old ≤ capacity) × VerticesIn capacity positions.old) × ((props ≡ true → halfedges ≤ 3 * lent_triples references.now) × (halfedges ≤ length list.old))) }
    ensures step { tried result rows.new positions.new vertices.new ≡ collapse_at halfedges capacity props references.now tolerance (halfedge_number e) (begin rows.old positions.old vertices.old) }
    ensures within { vertices.new ≤ capacity }
    ensures beyond { drop halfedges list.new ≡ drop halfedges list.old }
{
    let short = judging::judge(rows, positions, halfedges, *vertices, tolerance, e)?;
    let ends = Ends {
        halfedges,
        capacity,
        props,
        edge: e,
        partner: short.partner,
    };
    short_step(rows, positions, vertices, references, list, ends, short.end)?;
    Ok(())
}
