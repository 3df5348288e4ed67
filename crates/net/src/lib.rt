// A net as it is lent: five arrays, and the counts of what is in use. What the counts must be, and room for more.
#![tactic(auto)]

ghost use Rattle.std.specs.Prelude.{◌≡◌, min};
ghost use Rattle.net.specs.Net.{net};
ghost use Rattle.net.specs.Counts.{triangle_capacity_over, halfedge_capacity_over, vertex_capacity_over, property_capacity_over, is_shaped, is_long, spare_holds, none_or_all, triangles_for, lent_properties};

// How many rows of each array are in use, and how many numbers a property row has.
#[derive(Clone, Copy)]
pub struct Counts {
    pub halfedges: usize,
    pub vertices: usize,
    pub normals: usize,
    pub references: usize,
    pub properties: usize,
    pub num_prop: usize,
}

const MOST_TRIANGLES: usize = 1_000_000;

const MOST_VERTICES: usize = 1_000_000;

const MOST_NUM_PROP: usize = 32;

const MOST_PROPERTIES: usize = 3_000_000;

// References and normals limit the triangles only where some are in use.
fn triangles_for(used: usize, lent: usize) -> usize
    ensures { result ≡ triangles_for used lent }
{
    if used == 0 { MOST_TRIANGLES } else { lent }
}

// How many triangles there can be: the least over half-edges and non-empty references and normals.
pub fn triangle_capacity(
    counts: Counts,
    halfedges: &[i32],
    normals: &[u64],
    references: &[i32],
) -> usize
    ensures { result ≡ triangle_capacity_over counts halfedges.now normals.now references.now }
{
    let by_halfedges = (rows::halfedges::lent(halfedges) / 3).min(MOST_TRIANGLES);
    let by_references = triangles_for(counts.references, rows::triples::lent(references));
    let by_normals = triangles_for(counts.normals, rows::triples::lent(normals));
    by_halfedges.min(by_references.min(by_normals))
}

// How many half-edges there can be: three for each triangle.
pub fn halfedge_capacity(
    counts: Counts,
    halfedges: &[i32],
    normals: &[u64],
    references: &[i32],
) -> usize
    ensures { result ≡ halfedge_capacity_over counts halfedges.now normals.now references.now }
{
    3 * triangle_capacity(counts, halfedges, normals, references)
}

// How many vertices there can be.
pub fn vertex_capacity(positions: &[u64]) -> usize
    ensures { result ≡ vertex_capacity_over positions.now }
{
    rows::triples::lent(positions).min(MOST_VERTICES)
}

// How many property rows are lent: a row with no number in it takes no room.
fn lent_properties(num_prop: usize, properties: &[u64]) -> usize
    ensures { result ≡ lent_properties num_prop properties.now }
{
    if num_prop == 0 {
        return MOST_PROPERTIES;
    }
    properties.len() / num_prop
}

// How many property rows there can be.
pub fn property_capacity(counts: Counts, properties: &[u64]) -> usize
    ensures { result ≡ property_capacity_over counts properties.now }
{
    lent_properties(counts.num_prop, properties).min(MOST_PROPERTIES)
}

// References and normals have no row or one for each triangle.
fn none_or_all(used: usize, all: usize) -> bool
    ensures { result ≡ none_or_all used all }
{
    (used == 0) | (used == all)
}

// Whether nothing calls for answer 1.
pub fn shaped(
    counts: Counts,
    halfedges: &[i32],
    positions: &[u64],
    normals: &[u64],
    references: &[i32],
    properties: &[u64],
) -> bool
    ensures { result ≡ is_shaped counts (net halfedges.now positions.now normals.now references.now properties.now) }
{
    (counts.halfedges % 3 == 0)
        & (counts.halfedges <= halfedge_capacity(counts, halfedges, normals, references))
        & (counts.vertices <= vertex_capacity(positions))
        & (counts.num_prop <= MOST_NUM_PROP)
        & (counts.properties <= property_capacity(counts, properties))
        & none_or_all(counts.references, counts.halfedges / 3)
        & none_or_all(counts.normals, counts.halfedges / 3)
}

// Whether a work buffer or list is not too short.
pub fn long_enough(length: usize, needed: usize) -> bool
    ensures { result ≡ is_long length needed }
{
    needed <= length
}

// Whether a spare's half-edge and position rows hold those in use.
pub fn spare_fits(counts: Counts, halfedges: &[i32], positions: &[u64]) -> bool
    ensures { result ≡ spare_holds counts halfedges.now positions.now }
{
    (counts.halfedges <= rows::halfedges::lent(halfedges))
        & (counts.vertices <= rows::triples::lent(positions))
}
