// Deduping an edge: the step of dedupe_edge.
#![tactic(auto)]

ghost use Rattle.std.specs.Prelude.{◌≡◌, List, ℕ, ◌<◌, ℤ, IfOk};
ghost use Rattle.numbers.specs.Numbers.{halfedge_number, vertex_number};
ghost use Rattle.searches.specs.Seek.{seek};
ghost use Rattle.growth.specs.Growth.{so_far, grown_after, beginning, Fits, VerticesFit, Fitting, More};
ghost use Rattle.dedupe.specs.Dedupe.{stood, Stands, at_first, copy_end, second, at_second, dedupe_from, dedupe_at};

use growth::{Extent, Limits};
use numbers::{Halfedge, Vertex};
use searches::Sought;
use steps::Stop;

// The search about the end, from c on: what is inserted where it meets another half-edge from the start s. It then stands at the place
// that is returned.
fn first(
    rows: &mut [i32],
    positions: &mut [u64],
    normals: &mut [u64],
    references: &mut [i32],
    used: &mut Extent,
    limits: Limits,
    s: Vertex,
    v: Vertex,
    c: Halfedge,
    e: Halfedge,
) -> Result<Halfedge, Stop>
    requires { ((halfedge_number c < used.old.halfedges) × ((halfedge_number e < used.old.halfedges) × ((vertex_number s < used.old.vertices) × (vertex_number v < used.old.vertices)))) × Fitting limits (beginning rows.old positions.old normals.old references.old used.old) }
    ensures step { Stands rows.new positions.new normals.new references.new used.new result (at_first limits (vertex_number v) (halfedge_number e) (beginning rows.old positions.old normals.old references.old used.old) (seek used.old.halfedges (vertex_number s) (halfedge_number e) rows.old used.old.halfedges (halfedge_number c))) }
    ensures within { More used.old used.new × Fitting limits (beginning rows.new positions.new normals.new references.new used.new) }
    ensures place { IfOk result (λ h. halfedge_number h < used.new.halfedges) }
{
    match searches::seek(rows, used.halfedges, s, c, e) {
        Sought::Met(h) => inserting::insert(
            rows, positions, normals, references, used, limits, v, h, e,
        ),
        Sought::Round(h) => Ok(h),
        Sought::Missing => Err(Stop::Stopped),
    }
}

// Where the search holds the edge, even after inserting, the end vertex is copied.
fn copy_end(
    rows: &mut [i32],
    positions: &mut [u64],
    used: &mut Extent,
    limits: Limits,
    v: Vertex,
    place: Halfedge,
    e: Halfedge,
) -> Result<(), Stop>
    requires { ((halfedge_number place < used.old.halfedges) × (vertex_number v < used.old.vertices)) × (Fits limits used.old.halfedges rows.old × VerticesFit limits used.old.vertices positions.old) }
    ensures step { (n : List ℕ) (f : List ℤ) → so_far rows.new positions.new n f (grown_after used.new result) ≡ copy_end limits (vertex_number v) (halfedge_number e) (stood (beginning rows.old positions.old n f used.old) (halfedge_number place)) }
    ensures within { More used.old used.new × (Fits limits used.new.halfedges rows.new × VerticesFit limits used.new.vertices positions.new) }
{
    if place == e {
        return growth::copy_round(rows, positions, used, limits, v, place.next());
    }
    Ok(())
}

// The search about the start, from c on until the partner p: connected, or the start's fan gets a copy of the END.
fn about_start(
    rows: &mut [i32],
    positions: &mut [u64],
    used: &mut Extent,
    limits: Limits,
    v: Vertex,
    c: Halfedge,
    p: Halfedge,
) -> Result<(), Stop>
    requires { ((halfedge_number c < used.old.halfedges) × (vertex_number v < used.old.vertices)) × (Fits limits used.old.halfedges rows.old × VerticesFit limits used.old.vertices positions.old) }
    ensures step { (n : List ℕ) (f : List ℤ) → so_far rows.new positions.new n f (grown_after used.new result) ≡ at_second limits (vertex_number v) (beginning rows.old positions.old n f used.old) (seek used.old.halfedges (vertex_number v) (halfedge_number p) rows.old used.old.halfedges (halfedge_number c)) }
    ensures within { More used.old used.new × (Fits limits used.new.halfedges rows.new × VerticesFit limits used.new.vertices positions.new) }
{
    match searches::seek(rows, used.halfedges, v, c, p) {
        Sought::Met(_) => Ok(()),
        Sought::Round(h) => growth::copy_round(rows, positions, used, limits, v, h.next()),
        Sought::Missing => Err(Stop::Stopped),
    }
}

// The step about the start, where the partner of the edge is there.
fn second(
    rows: &mut [i32],
    positions: &mut [u64],
    used: &mut Extent,
    limits: Limits,
    v: Vertex,
    e: Halfedge,
) -> Result<(), Stop>
    requires { ((halfedge_number e < used.old.halfedges) × (vertex_number v < used.old.vertices)) × (Fits limits used.old.halfedges rows.old × VerticesFit limits used.old.vertices positions.old) }
    ensures step { (n : List ℕ) (f : List ℤ) → so_far rows.new positions.new n f (grown_after used.new result) ≡ second limits (vertex_number v) (halfedge_number e) (beginning rows.old positions.old n f used.old) }
    ensures within { More used.old used.new × (Fits limits used.new.halfedges rows.new × VerticesFit limits used.new.vertices positions.new) }
{
    let p = steps::pair_of(rows, e, used.halfedges)?;
    let c = steps::pair_of(rows, p.next(), used.halfedges)?;
    about_start(rows, positions, used, limits, v, c, p)
}

// Both searches, where the edge's start s and end v are there, and c behind it.
fn dedupe_from(
    rows: &mut [i32],
    positions: &mut [u64],
    normals: &mut [u64],
    references: &mut [i32],
    used: &mut Extent,
    limits: Limits,
    s: Vertex,
    v: Vertex,
    c: Halfedge,
    e: Halfedge,
) -> Result<(), Stop>
    requires { ((halfedge_number c < used.old.halfedges) × ((halfedge_number e < used.old.halfedges) × ((vertex_number s < used.old.vertices) × (vertex_number v < used.old.vertices)))) × Fitting limits (beginning rows.old positions.old normals.old references.old used.old) }
    ensures step { so_far rows.new positions.new normals.new references.new (grown_after used.new result) ≡ dedupe_from limits (vertex_number s) (vertex_number v) (halfedge_number c) (halfedge_number e) (beginning rows.old positions.old normals.old references.old used.old) }
    ensures within { More used.old used.new × Fitting limits (beginning rows.new positions.new normals.new references.new used.new) }
{
    let place = first(
        rows, positions, normals, references, used, limits, s, v, c, e,
    )?;
    copy_end(rows, positions, used, limits, v, place, e)?;
    second(rows, positions, used, limits, v, e)
}

// The step of dedupe_edge.
pub fn dedupe_step(
    rows: &mut [i32],
    positions: &mut [u64],
    normals: &mut [u64],
    references: &mut [i32],
    used: &mut Extent,
    limits: Limits,
    e: Halfedge,
) -> Result<(), Stop>
    requires { (halfedge_number e < used.old.halfedges) × Fitting limits (beginning rows.old positions.old normals.old references.old used.old) }
    ensures step { so_far rows.new positions.new normals.new references.new (grown_after used.new result) ≡ dedupe_at limits (halfedge_number e) (beginning rows.old positions.old normals.old references.old used.old) }
    ensures within { More used.old used.new × Fitting limits (beginning rows.new positions.new normals.new references.new used.new) }
{
    let s = steps::start_of(rows, e, used.vertices)?;
    let v = steps::end_of(rows, e, used.vertices)?;
    let c = steps::pair_of(rows, e.next(), used.halfedges)?;
    dedupe_from(
        rows, positions, normals, references, used, limits, s, v, c, e,
    )
}
