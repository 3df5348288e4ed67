// Forming a loop: both ends of an edge are copied and the net is joined the other way across two edges. The step of form_loop;
// its entry is the crate formloop.
#![tactic(auto)]

ghost use Rattle.std.specs.Prelude.{◌≡◌, List, ℕ, ◌<◌, ◌≤◌, ◌^◌, ℤ};
ghost use Rattle.numbers.specs.Numbers.{halfedge_number, vertex_number};
ghost use Rattle.steps.specs.Steps.{middle, begin, run_after, InUse, VerticesIn};
ghost use Rattle.loops.specs.Loops.{append, cross_at, cross, loop_at};
ghost use Rattle.loops.specs.Edges.{edges_of, EdgesIn};

use numbers::{Halfedge, Vertex};
use steps::Stop;

// The half-edges of two edges: a and b, and their partners p and q.
#[derive(Clone, Copy)]
struct Edges {
    a: Halfedge,
    b: Halfedge,
    p: Halfedge,
    q: Halfedge,
}

// Appends a copy of the position of v, where there is room.
pub fn append_copy(
    positions: &mut [u64],
    vertices: &mut usize,
    capacity: usize,
    v: Vertex,
) -> Result<(), Stop>
    requires { (vertex_number v < vertices.old) × ((vertices.old ≤ capacity) × VerticesIn capacity positions.old) }
    ensures step { (h : List ℤ) → middle h positions.new (run_after vertices.new result) ≡ append capacity (vertex_number v) (begin h positions.old vertices.old) }
    ensures within { (vertices.old ≤ vertices.new) × (vertices.new ≤ capacity) }
{
    let used = *vertices;
    if capacity <= used {
        return Err(Stop::NoRoom);
    }
    let p = rows::triples::position_of(positions, v);
    rows::triples::append_position(positions, used, p);
    *vertices = used + 1;
    Ok(())
}

// Both sides updated to the new vertices v and w, the partners exchanged, and what has folded at b taken out.
fn cross_at(
    rows: &mut [i32],
    positions: &mut [u64],
    halfedges: usize,
    vertices: usize,
    v: Vertex,
    w: Vertex,
    x: Edges,
) -> Result<(), Stop>
    requires { EdgesIn halfedges (edges_of x) × (((vertex_number v < 2 ^ 31) × (vertex_number w < 2 ^ 31)) × (InUse halfedges rows.old × VerticesIn vertices positions.old)) }
    ensures { middle rows.new positions.new (run_after vertices result) ≡ cross_at halfedges (vertex_number v) (vertex_number w) (edges_of x) (begin rows.old positions.old vertices) }
{
    walks::update_step(rows, halfedges, v, x.p, x.q)?;
    walks::update_step(rows, halfedges, w, x.b, x.a)?;
    pairing::pair_rows(rows, x.a, x.q);
    pairing::pair_rows(rows, x.b, x.p);
    folds::fold_step(rows, positions, halfedges, vertices, x.b)
}

// The same where both partners are there.
fn cross(
    rows: &mut [i32],
    positions: &mut [u64],
    halfedges: usize,
    vertices: usize,
    v: Vertex,
    w: Vertex,
    a: Halfedge,
    b: Halfedge,
) -> Result<(), Stop>
    requires { ((halfedge_number a < halfedges) × (halfedge_number b < halfedges)) × (((vertex_number v < 2 ^ 31) × (vertex_number w < 2 ^ 31)) × (InUse halfedges rows.old × VerticesIn vertices positions.old)) }
    ensures { middle rows.new positions.new (run_after vertices result) ≡ cross halfedges (vertex_number v) (vertex_number w) (halfedge_number a) (halfedge_number b) (begin rows.old positions.old vertices) }
{
    let p = steps::pair_of(rows, a, halfedges)?;
    let q = steps::pair_of(rows, b, halfedges)?;
    let x = Edges { a, b, p, q };
    cross_at(rows, positions, halfedges, vertices, v, w, x)
}

// The step of form_loop.
pub fn loop_step(
    rows: &mut [i32],
    positions: &mut [u64],
    vertices: &mut usize,
    halfedges: usize,
    capacity: usize,
    a: Halfedge,
    b: Halfedge,
) -> Result<(), Stop>
    requires { ((halfedge_number a < halfedges) × (halfedge_number b < halfedges)) × (InUse halfedges rows.old × ((vertices.old ≤ capacity) × VerticesIn capacity positions.old)) }
    ensures step { middle rows.new positions.new (run_after vertices.new result) ≡ loop_at halfedges capacity (halfedge_number a) (halfedge_number b) (begin rows.old positions.old vertices.old) }
    ensures within { (vertices.old ≤ vertices.new) × (vertices.new ≤ capacity) }
{
    let v = numbers::vertex_appended(*vertices);
    let w = numbers::vertex_appended(*vertices + 1);
    let start = steps::start_of(rows, a, *vertices)?;
    append_copy(positions, vertices, capacity, start)?;
    let end = steps::end_of(rows, a, *vertices)?;
    append_copy(positions, vertices, capacity, end)?;
    cross(rows, positions, halfedges, *vertices, v, w, a, b)
}
