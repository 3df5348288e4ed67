// How an edge is judged before a collapse writes anything: whether it is short, and what is at its rows. Nothing here asks for rows in order.
#![tactic(auto)]

ghost use Rattle.std.specs.Prelude.{◌≡◌, ◌<◌, ◌^◌};
ghost use Rattle.numbers.specs.Numbers.{halfedge_number, vertex_number};
ghost use Rattle.rows.specs.Triples.{lent_triples, triple};
ghost use Rattle.floats.specs.Short.{length_said};
ghost use Rattle.steps.specs.Steps.{InUse, VerticesIn};
ghost use Rattle.judging.specs.Judge.{vector, between, judged, judge};

use floats::Vec3;
use numbers::{Halfedge, Vertex};
use refused::Refusal;

// What short means: an edge that ends before first_new_vert is held against tol, another against epsilon.
#[derive(Clone, Copy)]
pub struct Tolerance {
    pub first_new_vert: i32,
    pub tol: f64,
    pub epsilon: f64,
}

// An edge that is short: its partner, and the vertex where it ends.
#[derive(Clone, Copy)]
pub struct Short {
    pub partner: Halfedge,
    pub end: Vertex,
}

// The position of v as a vector.
fn place(positions: &[u64], v: Vertex) -> Vec3
    requires { vertex_number v < lent_triples positions.now }
    ensures { result ≡ vector (triple positions.now (vertex_number v)) }
{
    let b = rows::triples::position_of(positions, v);
    Vec3::of_bits(b.x, b.y, b.z)
}

// The short test between the positions of u and v, of which v is the end.
fn between(positions: &[u64], tolerance: Tolerance, u: Vertex, v: Vertex) -> Result<(), Refusal>
    requires { (vertex_number u < lent_triples positions.now) × ((vertex_number v < lent_triples positions.now) × (vertex_number v < 2 ^ 31)) }
    ensures { length_said result ≡ between positions.now tolerance (vertex_number u) (vertex_number v) }
{
    let from = place(positions, u);
    let to = place(positions, v);
    let end = v.number() as i32;
    let first = tolerance.first_new_vert;
    floats::short_test(from, to, end, first, tolerance.tol, tolerance.epsilon)
}

// Whether the edge is short, before anything is written. Else it has no pair: Dead; it is long; the fan of its start is open; or a row isn't
// there: Stopped.
pub fn judge(
    rows: &[i32],
    positions: &[u64],
    halfedges: usize,
    vertices: usize,
    tolerance: Tolerance,
    e: Halfedge,
) -> Result<Short, Refusal>
    requires { (halfedge_number e < halfedges) × (InUse halfedges rows.now × VerticesIn vertices positions.now) }
    ensures { judged result ≡ judge halfedges vertices rows.now positions.now tolerance (halfedge_number e) }
{
    if !edgetests::is_paired(rows, e) {
        return Err(Refusal::Dead);
    }
    let partner = rows::halfedges::pair_of(rows, e, halfedges).ok_or(Refusal::Stopped)?;
    let start = rows::halfedges::start_of(rows, e, vertices).ok_or(Refusal::Stopped)?;
    let end = rows::halfedges::end_of(rows, e, vertices).ok_or(Refusal::Stopped)?;
    if !edgetests::is_paired(rows, partner.next()) {
        return Err(Refusal::OpenFan);
    }
    between(positions, tolerance, start, end)?;
    Ok(Short { partner, end })
}
