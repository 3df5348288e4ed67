// A net that grows in the middle of an operation: its half-edge rows, and with them normals and references, are appended too.
#![tactic(auto)]

ghost use Rattle.std.specs.Prelude.{◌≡◌, true, false, cond, List, ℕ, ◌+◌, ◌*◌, ◌/◌, ◌<◌, ◌≤◌, ◌^◌, ℤ, IfOk};
ghost use Rattle.numbers.specs.Numbers.{halfedge_number, vertex_number};
ghost use Rattle.rows.specs.Triples.{lent_triples, triple, put_triple, reference, put_reference};
ghost use Rattle.steps.specs.Steps.{Middle, middle, begin, run_after, refused, InUse};
ghost use Rattle.growth.specs.Growth.{growing, grown_after, so_far, beginning, Fits, FacesFit, VerticesFit, More, add, join, face, beside, relabel, copy_round};

use numbers::{Halfedge, Vertex};
use steps::Stop;

// What there can be: half-edges and vertices, and whether triangles have normals, and references.
#[derive(Clone, Copy)]
pub struct Limits {
    pub halfedges: usize,
    pub vertices: usize,
    pub normals: bool,
    pub references: bool,
}

// The half-edges and vertices in use.
#[derive(Clone, Copy)]
pub struct Extent {
    pub halfedges: usize,
    pub vertices: usize,
}

// Appends a triangle beside h, where there is room: its third row takes the partner of h, its second row h.
fn add_triangle(
    rows: &mut [i32],
    halfedges: &mut usize,
    limits: Limits,
    a: Vertex,
    b: Vertex,
    h: Halfedge,
    e: Halfedge,
) -> Result<(), Stop>
    requires { ((halfedge_number h < halfedges.old) × (halfedge_number e < halfedges.old)) × (((vertex_number a < 2 ^ 31) × (vertex_number b < 2 ^ 31)) × Fits limits halfedges.old rows.old) }
    ensures step { (p : List ℕ) (m : ℕ) (n : List ℕ) (f : List ℤ) → growing (middle rows.new p (run_after m result)) halfedges.new n f ≡ join halfedges.old (halfedge_number h) (add limits (vertex_number a) (vertex_number b) (halfedge_number h) (halfedge_number e) (growing (begin rows.old p m) halfedges.old n f)) }
    ensures within { (halfedges.old ≤ halfedges.new) × Fits limits halfedges.new rows.new }
    ensures added { IfOk result (λ x. halfedges.old + 3 ≤ halfedges.new) }
{
    let used = *halfedges;
    if limits.halfedges <= used {
        return Err(Stop::NoRoom);
    }
    rows::halfedges::append_triangle(rows, used, a, b, h, e);
    *halfedges = used + 3;
    let q = steps::pair_of(rows, h, used + 3)?;
    pairing::pair_rows(rows, numbers::halfedge_appended(used + 2), q);
    pairing::pair_rows(rows, numbers::halfedge_appended(used + 1), h);
    Ok(())
}

// Triangle u gets the normal of t, where there are normals.
fn add_normal(normals: &mut [u64], there: bool, t: usize, u: usize)
    requires { there ≡ true → (t < lent_triples normals.old) × (u < lent_triples normals.old) }
    ensures { normals.new ≡ cond there (put_triple u (triple normals.old t) normals.old) normals.old }
{
    if !there {
        return;
    }
    let n = rows::triples::normal_of(normals, t);
    rows::triples::append_normal(normals, u, n);
}

// Triangle u gets the reference of t, where there are references.
fn add_reference(references: &mut [i32], there: bool, t: usize, u: usize)
    requires { there ≡ true → (t < lent_triples references.old) × (u < lent_triples references.old) }
    ensures { references.new ≡ cond there (put_reference u (reference references.old t) references.old) references.old }
{
    if !there {
        return;
    }
    let r = rows::triples::reference_of(references, t);
    rows::triples::append_reference(references, u, r);
}

// Triangle u gets what t has.
fn add_face(normals: &mut [u64], references: &mut [i32], limits: Limits, t: usize, u: usize)
    requires { FacesFit limits normals.old references.old × ((t < limits.halfedges / 3) × (u < limits.halfedges / 3)) }
    ensures { (m : Middle) (k : ℕ) → refused m ≡ false → growing m k normals.new references.new ≡ face limits t u (growing m k normals.old references.old) }
{
    add_normal(normals, limits.normals, t, u);
    add_reference(references, limits.references, t, u);
}

// A triangle beside h: its rows, its partners, and what its face has.
pub fn beside_step(
    rows: &mut [i32],
    normals: &mut [u64],
    references: &mut [i32],
    halfedges: &mut usize,
    limits: Limits,
    a: Vertex,
    b: Vertex,
    h: Halfedge,
    e: Halfedge,
) -> Result<(), Stop>
    requires { ((halfedge_number h < halfedges.old) × (halfedge_number e < halfedges.old)) × (((vertex_number a < 2 ^ 31) × (vertex_number b < 2 ^ 31)) × (Fits limits halfedges.old rows.old × FacesFit limits normals.old references.old)) }
    ensures step { (p : List ℕ) (m : ℕ) → growing (middle rows.new p (run_after m result)) halfedges.new normals.new references.new ≡ beside limits (vertex_number a) (vertex_number b) (halfedge_number h) (halfedge_number e) (growing (begin rows.old p m) halfedges.old normals.old references.old) }
    ensures within { (halfedges.old ≤ halfedges.new) × Fits limits halfedges.new rows.new }
    ensures added { IfOk result (λ x. halfedges.old + 3 ≤ halfedges.new) }
{
    let used = *halfedges;
    add_triangle(rows, halfedges, limits, a, b, h, e)?;
    add_face(normals, references, limits, h.number() / 3, used / 3);
    Ok(())
}

// Sets v on the fan of h: on the start of each half-edge and on the end of its partner, once round.
pub fn relabel_step(rows: &mut [i32], halfedges: usize, v: Vertex, h: Halfedge) -> Result<(), Stop>
    requires { (halfedge_number h < halfedges) × ((vertex_number v < 2 ^ 31) × InUse halfedges rows.old) }
    ensures { (p : List ℕ) (n : ℕ) → middle rows.new p (run_after n result) ≡ relabel halfedges (vertex_number v) (halfedge_number h) (begin rows.old p n) }
{
    let p = steps::pair_of(rows, h, halfedges)?;
    let Some(q) = walks::move_on(rows, halfedges, v, p) else {
        return Err(Stop::Stopped);
    };
    walks::update_step(rows, halfedges, v, q, p)
}

// A copy of v, set on the fan of h.
pub fn copy_round(
    rows: &mut [i32],
    positions: &mut [u64],
    used: &mut Extent,
    limits: Limits,
    v: Vertex,
    h: Halfedge,
) -> Result<(), Stop>
    requires { ((halfedge_number h < used.old.halfedges) × (vertex_number v < used.old.vertices)) × (Fits limits used.old.halfedges rows.old × VerticesFit limits used.old.vertices positions.old) }
    ensures step { (n : List ℕ) (f : List ℤ) → so_far rows.new positions.new n f (grown_after used.new result) ≡ copy_round limits (vertex_number v) (halfedge_number h) (beginning rows.old positions.old n f used.old) }
    ensures within { (used.new.halfedges ≡ used.old.halfedges) × (More used.old used.new × (Fits limits used.new.halfedges rows.new × VerticesFit limits used.new.vertices positions.new)) }
{
    let copy = numbers::vertex_appended(used.vertices);
    loops::append_copy(positions, &mut used.vertices, limits.vertices, v)?;
    relabel_step(rows, used.halfedges, copy, h)
}
