// Why a row is not in order: the first of document 01's clauses that it breaks, and the other row that this concerns. The entry
// explain_row, for the row that answer 3 names and for any other.
#![tactic(auto)]

ghost use Rattle.std.specs.Prelude.{◌≡◌, ◌<◌, ◌^◌, pos};
ghost use Rattle.laws.specs.Integers.{eq_z};
ghost use Rattle.numbers.specs.Numbers.{halfedge_number};
ghost use Rattle.rows.specs.Halfedges.{pair_of, lent_halfedges};
ghost use Rattle.net.specs.Net.{net};
ghost use Rattle.rowtests.specs.Order.{apart3};
ghost use Rattle.steps.specs.Steps.{InUse};
ghost use Rattle.explain.specs.Explain.{Three, explain_said, clause_said, triangle_clause, partner_clause, row_clause, explain_row};

use net::Counts;
use numbers::Halfedge;
use refused::Refusal;

pub mod answer;

// The clause that a row breaks first, with the other row where there is one.
#[derive(Clone, Copy)]
pub enum Broken {
    NoPartner,
    NotBack(Halfedge),
    NoVertex,
    Unpaired(Halfedge),
    NotJoined(Halfedge),
    NotMirrored(Halfedge),
    StartsAlike,
    PartlyDead(Halfedge),
}

// The pair of p is h.
fn points_back(rows: &[i32], halfedges: usize, p: Halfedge, h: Halfedge) -> bool
    requires { ((halfedge_number p < halfedges) × (halfedge_number h < halfedges)) × InUse halfedges rows.now }
    ensures { result ≡ eq_z (pair_of rows.now (halfedge_number p)) (pos (halfedge_number h)) }
{
    rows::halfedges::pair_of(rows, p, halfedges) == Some(h)
}

// The three rows start at different vertices.
fn are_apart(rows: &[i32], h: Halfedge, j: Halfedge, k: Halfedge) -> bool
    requires { Three rows.now (halfedge_number h) (halfedge_number j) (halfedge_number k) }
    ensures { result ≡ apart3 rows.now (halfedge_number h) (halfedge_number j) (halfedge_number k) }
{
    !edgetests::same_start(rows, h, j)
        & !edgetests::same_start(rows, j, k)
        & !edgetests::same_start(rows, k, h)
}

// Clauses 4 to 7, of h with its partner p; j and k are the other half-edges of its triangle.
fn triangle_clause(
    rows: &[i32],
    h: Halfedge,
    j: Halfedge,
    k: Halfedge,
    p: Halfedge,
) -> Option<Broken>
    requires { ((halfedge_number h < 2 ^ 31) × (halfedge_number p < lent_halfedges rows.now)) × Three rows.now (halfedge_number h) (halfedge_number j) (halfedge_number k) }
    ensures { clause_said result ≡ triangle_clause rows.now (halfedge_number h) (halfedge_number j) (halfedge_number k) (halfedge_number p) }
{
    if !edgetests::is_paired(rows, j) {
        return Some(Broken::Unpaired(j));
    }
    if !edgetests::is_paired(rows, k) {
        return Some(Broken::Unpaired(k));
    }
    if !edgetests::is_joined(rows, h, j) {
        return Some(Broken::NotJoined(j));
    }
    if !edgetests::is_mirrored(rows, h, p) {
        return Some(Broken::NotMirrored(p));
    }
    if are_apart(rows, h, j, k) {
        return None;
    }
    Some(Broken::StartsAlike)
}

// Clauses 2 and 3 before them.
fn partner_clause(
    rows: &[i32],
    halfedges: usize,
    vertices: usize,
    h: Halfedge,
    j: Halfedge,
    k: Halfedge,
    p: Halfedge,
) -> Option<Broken>
    requires { ((halfedge_number h < halfedges) × (halfedge_number p < halfedges)) × (InUse halfedges rows.now × Three rows.now (halfedge_number h) (halfedge_number j) (halfedge_number k)) }
    ensures { clause_said result ≡ partner_clause vertices rows.now (halfedge_number h) (halfedge_number j) (halfedge_number k) (halfedge_number p) }
{
    if !points_back(rows, halfedges, p, h) {
        return Some(Broken::NotBack(p));
    }
    if !edgetests::is_within(rows, h, vertices) {
        return Some(Broken::NoVertex);
    }
    triangle_clause(rows, h, j, k, p)
}

// The first clause that h breaks: dead, partly dead, or the clauses in their order.
fn row_clause(
    rows: &[i32],
    halfedges: usize,
    vertices: usize,
    h: Halfedge,
    j: Halfedge,
    k: Halfedge,
) -> Option<Broken>
    requires { (halfedge_number h < halfedges) × (InUse halfedges rows.now × Three rows.now (halfedge_number h) (halfedge_number j) (halfedge_number k)) }
    ensures { clause_said result ≡ row_clause halfedges vertices rows.now (halfedge_number h) (halfedge_number j) (halfedge_number k) }
{
    let this = edgetests::is_empty(rows, h);
    let next = edgetests::is_empty(rows, j);
    if this & next & edgetests::is_empty(rows, k) {
        return None;
    }
    if this {
        if next {
            return Some(Broken::PartlyDead(k));
        }
        return Some(Broken::PartlyDead(j));
    }
    let Some(p) = rows::halfedges::pair_of(rows, h, halfedges) else {
        return Some(Broken::NoPartner);
    };
    partner_clause(rows, halfedges, vertices, h, j, k, p)
}

// The entry explain_row: the clause that the row breaks first, none where it is in order.
pub fn explain_row(
    counts: Counts,
    halfedges: &[i32],
    positions: &[u64],
    normals: &[u64],
    references: &[i32],
    properties: &[u64],
    row: i32,
) -> Result<Option<Broken>, Refusal>
    ensures { explain_said result ≡ explain_row counts (net halfedges.now positions.now normals.now references.now properties.now) row }
{
    if !net::shaped(
        counts, halfedges, positions, normals, references, properties,
    ) {
        return Err(Refusal::Shape);
    }
    let h = refused::halfedge_given(row, counts.halfedges)?;
    let second = h.next();
    Ok(row_clause(
        halfedges,
        counts.halfedges,
        counts.vertices,
        h,
        second,
        second.next(),
    ))
}
