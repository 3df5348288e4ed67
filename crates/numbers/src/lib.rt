// The three kinds of number that a net's rows hold, and the rule of next.
//
// The number inside is private to this crate. So one is made here alone: where a row's number is read, and at three places
// besides, a caller's number after its test, a scan's counter and the number of an appended row.
#![tactic(auto)]

ghost use Rattle.std.specs.Prelude.{◌≡◌, true, ◌<◌, pos};
ghost use Rattle.std.specs.Int.Signed.{le_z};
ghost use Rattle.numbers.specs.Numbers.{halfedge_number, vertex_number, prop_row_number, names, is_named, placed, halfedge_named, vertex_named, prop_row_named};
ghost use Rattle.numbers.specs.Next.{next, next_answer, next_said, tri_answer, tri_said, most_halfedges};

#[derive(Clone, Copy, PartialEq, Eq)]
pub struct Halfedge(usize);

#[derive(Clone, Copy, PartialEq, Eq)]
pub struct Vertex(usize);

#[derive(Clone, Copy, PartialEq, Eq)]
pub struct PropRow(usize);

// A signed number that is 0 or more.
fn known(x: i32) -> usize
    requires { le_z (pos 0) x ≡ true }
    ensures { x ≡ pos result }
{
    x as usize
}

// A signed number as one of 0..limit.
fn place_of(x: i32, limit: usize) -> Option<usize>
    ensures { placed result ≡ names x limit }
{
    if x < 0 {
        return None;
    }
    let i = known(x);
    if i < limit { Some(i) } else { None }
}

// A row's number is one of 0..limit.
pub fn is_within(x: i32, limit: usize) -> bool
    ensures { result ≡ is_named (names x limit) }
{
    place_of(x, limit).is_some()
}

// The number that a row holds, read as a half-edge.
pub fn halfedge_read(x: i32, rows: usize) -> Option<Halfedge>
    ensures { halfedge_named result ≡ names x rows }
{
    Some(Halfedge(place_of(x, rows)?))
}

// A row's number that is 0 or more, as a half-edge.
pub fn halfedge_known(x: i32) -> Halfedge
    requires { le_z (pos 0) x ≡ true }
    ensures { x ≡ pos (halfedge_number result) }
{
    Halfedge(known(x))
}

// A row's number that is 0 or more, as a vertex.
pub fn vertex_known(x: i32) -> Vertex
    requires { le_z (pos 0) x ≡ true }
    ensures { x ≡ pos (vertex_number result) }
{
    Vertex(known(x))
}

// A row's number that is 0 or more is one of 0..limit.
pub fn is_below(x: i32, limit: usize) -> bool
    requires { le_z (pos 0) x ≡ true }
    ensures { result ≡ is_named (names x limit) }
{
    known(x) < limit
}

// The number that a row holds, read as a vertex.
pub fn vertex_read(x: i32, rows: usize) -> Option<Vertex>
    ensures { vertex_named result ≡ names x rows }
{
    Some(Vertex(place_of(x, rows)?))
}

// The number that a row holds, read as a property row.
pub fn prop_row_read(x: i32, rows: usize) -> Option<PropRow>
    ensures { prop_row_named result ≡ names x rows }
{
    Some(PropRow(place_of(x, rows)?))
}

// A scan's counter as a half-edge.
pub fn halfedge_counted(i: usize) -> Halfedge
    ensures { halfedge_number result ≡ i }
{
    Halfedge(i)
}

// The row appended behind `used` half-edges.
pub fn halfedge_appended(used: usize) -> Halfedge
    ensures { halfedge_number result ≡ used }
{
    Halfedge(used)
}

// The row appended behind `used` vertices.
pub fn vertex_appended(used: usize) -> Vertex
    ensures { vertex_number result ≡ used }
{
    Vertex(used)
}

impl Halfedge {
    pub fn number(self) -> usize
        ensures { result ≡ halfedge_number self }
    {
        self.0
    }

    // The next half-edge of its triangle.
    pub fn next(self) -> Halfedge
        requires { halfedge_number self < most_halfedges }
        ensures { halfedge_number result ≡ next (halfedge_number self) }
    {
        let h = self.0;
        if (h + 1) % 3 == 0 {
            Halfedge(h - 2)
        } else {
            Halfedge(h + 1)
        }
    }
}

impl Vertex {
    pub fn number(self) -> usize
        ensures { result ≡ vertex_number self }
    {
        self.0
    }
}

impl PropRow {
    pub fn number(self) -> usize
        ensures { result ≡ prop_row_number self }
    {
        self.0
    }
}

// The two numbers that have no next, since it would be no i32: one more than MOST, two less than LEAST.
const MOST: i32 = 2147483647;

const LEAST: i32 = -2147483647;

// The entry next_halfedge, on every i32: the next number, where there is one.
pub fn next_halfedge(h: i32) -> Option<i32>
    ensures { next_said result ≡ next_answer h }
{
    if h == MOST {
        return None;
    }
    if h == LEAST {
        return None;
    }
    let up = h + 1;
    if up % 3 == 0 {
        return Some(h - 2);
    }
    Some(up)
}

// The entry tri_of, on every i32: the triangle's three numbers from the given one on, where each has a next.
pub fn tri_of(h: i32) -> Option<(i32, i32, i32)>
    ensures { tri_said result ≡ tri_answer h }
{
    let second = next_halfedge(h)?;
    let third = next_halfedge(second)?;
    Some((h, second, third))
}
