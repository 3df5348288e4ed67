// Rows of three numbers: positions and face normals as bit patterns, and face references.
ghost use Rattle.std.specs.Prelude.{◌≡◌, ◌<◌, ◌≤◌, length};
ghost use Rattle.numbers.specs.Numbers.{vertex_number};
ghost use Rattle.rows.specs.Triples.{lent_triples, triple, put_triple, reference, put_reference, over_triples, zero_triples, zero_references, same_face};

use numbers::Vertex;

// The bit patterns of x, y and z.
#[derive(Clone, Copy, PartialEq, Eq)]
pub struct Bits3 {
    pub x: u64,
    pub y: u64,
    pub z: u64,
}

// A face reference: mesh_id, coplanar_id and face_id.
#[derive(Clone, Copy, PartialEq, Eq)]
pub struct Reference {
    pub mesh: i32,
    pub coplanar: i32,
    pub face: i32,
}

// How many rows are lent.
pub fn lent<T>(rows: &[T]) -> usize
    ensures { result ≡ lent_triples rows.now }
{
    rows.len() / 3
}

// The position of v.
pub fn position_of(rows: &[u64], v: Vertex) -> Bits3
    requires { vertex_number v < lent_triples rows.now }
    ensures { result ≡ triple rows.now (vertex_number v) }
{
    bits_at(rows, v.number())
}

// The normal of triangle t.
pub fn normal_of(rows: &[u64], t: usize) -> Bits3
    requires { t < lent_triples rows.now }
    ensures { result ≡ triple rows.now t }
{
    bits_at(rows, t)
}

fn bits_at(rows: &[u64], row: usize) -> Bits3
    requires { row < lent_triples rows.now }
    ensures { result ≡ triple rows.now row }
{
    let i = 3 * row;
    Bits3 {
        x: rows[i],
        y: rows[i + 1],
        z: rows[i + 2],
    }
}

// Writes a row of bit patterns at the front of those lent.
fn put_front(free: &mut [u64], p: Bits3)
    requires { 3 ≤ length free.old }
    ensures { free.new ≡ put_triple 0 p free.old }
{
    free[0] = p.x;
    free[1] = p.y;
    free[2] = p.z;
}

// Puts p into a row: the tail from there on is lent to be written.
fn put_at(rows: &mut [u64], row: usize, p: Bits3)
    requires { row < lent_triples rows.old }
    ensures { rows.new ≡ put_triple row p rows.old }
{
    let i = 3 * row;
    put_front(&mut rows[i..], p);
}

// Sets the position of v.
pub fn set_position(rows: &mut [u64], v: Vertex, p: Bits3)
    requires { vertex_number v < lent_triples rows.old }
    ensures { rows.new ≡ put_triple (vertex_number v) p rows.old }
{
    put_at(rows, v.number(), p);
}

// Appends a position behind `used` vertices.
pub fn append_position(rows: &mut [u64], used: usize, p: Bits3) -> Vertex
    requires { used < lent_triples rows.old }
    ensures { (rows.new ≡ put_triple used p rows.old) × (vertex_number result ≡ used) }
{
    put_at(rows, used, p);
    numbers::vertex_appended(used)
}

// Appends a normal behind `used` triangles.
pub fn append_normal(rows: &mut [u64], used: usize, p: Bits3)
    requires { used < lent_triples rows.old }
    ensures { rows.new ≡ put_triple used p rows.old }
{
    put_at(rows, used, p);
}

// The reference of triangle t.
pub fn reference_of(rows: &[i32], t: usize) -> Reference
    requires { t < lent_triples rows.now }
    ensures { result ≡ reference rows.now t }
{
    let i = 3 * t;
    Reference {
        mesh: rows[i],
        coplanar: rows[i + 1],
        face: rows[i + 2],
    }
}

// Triangles t and u have the same face: all three numbers of their references agree.
pub fn same_reference(rows: &[i32], t: usize, u: usize) -> bool
    requires { (t < lent_triples rows.now) × (u < lent_triples rows.now) }
    ensures { result ≡ same_face (reference rows.now t) (reference rows.now u) }
{
    reference_of(rows, t) == reference_of(rows, u)
}

// Writes a reference at the front of the free rows.
fn put_reference_front(free: &mut [i32], r: Reference)
    requires { 3 ≤ length free.old }
    ensures { free.new ≡ put_reference 0 r free.old }
{
    free[0] = r.mesh;
    free[1] = r.coplanar;
    free[2] = r.face;
}

// Appends a reference behind `used` triangles: the tail from there on is lent to be written.
pub fn append_reference(rows: &mut [i32], used: usize, r: Reference)
    requires { used < lent_triples rows.old }
    ensures { rows.new ≡ put_reference used r rows.old }
{
    let i = 3 * used;
    put_reference_front(&mut rows[i..], r);
}

// Lays the first n rows of `from` over `to`: the rows in use to a spare, and back.
pub fn copy(from: &[u64], to: &mut [u64], n: usize)
    requires { (n ≤ lent_triples from.now) × (n ≤ lent_triples to.old) }
    ensures { to.new ≡ over_triples n from.now to.old }
{
    stretches::copy(from, to, 3 * n);
}

// Zeroes rows a up to b.
pub fn zero(rows: &mut [u64], a: usize, b: usize)
    requires { (a ≤ b) × (b ≤ lent_triples rows.old) }
    ensures { rows.new ≡ zero_triples a b rows.old }
{
    stretches::fill(rows, 0, 3 * a, 3 * b);
}

// Zeroes references a up to b.
pub fn zero_references(rows: &mut [i32], a: usize, b: usize)
    requires { (a ≤ b) × (b ≤ lent_triples rows.old) }
    ensures { rows.new ≡ zero_references a b rows.old }
{
    stretches::fill(rows, 0, 3 * a, 3 * b);
}
