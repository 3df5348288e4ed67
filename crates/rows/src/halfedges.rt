// Half-edge rows of four numbers each: start, end, pair and prop.
ghost use Rattle.std.specs.Prelude.{◌≡◌, true, ◌+◌, ◌<◌, ◌≤◌, ◌^◌, pos, length, set};
ghost use Rattle.numbers.specs.Numbers.{names, halfedge_number, vertex_number, prop_row_number, halfedge_named, vertex_named, prop_row_named};
ghost use Rattle.rows.specs.Halfedges.{start_of, end_of, pair_of, prop_of, start, end, pair, prop, set_column, none, is_started, is_paired, empty_row, lent_halfedges, rows_from, append_row, append_triangle, over_rows, zero_rows, width};

use numbers::{Halfedge, PropRow, Vertex};

// How wide a row is, and where in it each column stands.
pub const WIDTH: usize = 4;

pub const START: usize = 0;

pub const END: usize = 1;

pub const PAIR: usize = 2;

pub const PROP: usize = 3;

// The four numbers of a row as they stand there.
#[derive(Clone, Copy, PartialEq, Eq)]
pub struct Row {
    pub start: i32,
    pub end: i32,
    pub pair: i32,
    pub prop: i32,
}

// How many rows are lent.
pub fn lent(rows: &[i32]) -> usize
    ensures { result ≡ lent_halfedges rows.now }
{
    rows.len() / WIDTH
}

// The vertex where h starts, among `vertices`.
pub fn start_of(rows: &[i32], h: Halfedge, vertices: usize) -> Option<Vertex>
    requires { halfedge_number h < lent_halfedges rows.now }
    ensures { vertex_named result ≡ names (start_of rows.now (halfedge_number h)) vertices }
{
    let i = WIDTH * h.number() + START;
    numbers::vertex_read(rows[i], vertices)
}

// The vertex where h ends, among `vertices`.
pub fn end_of(rows: &[i32], h: Halfedge, vertices: usize) -> Option<Vertex>
    requires { halfedge_number h < lent_halfedges rows.now }
    ensures { vertex_named result ≡ names (end_of rows.now (halfedge_number h)) vertices }
{
    let i = WIDTH * h.number() + END;
    numbers::vertex_read(rows[i], vertices)
}

// The partner of h, among `halfedges`.
pub fn pair_of(rows: &[i32], h: Halfedge, halfedges: usize) -> Option<Halfedge>
    requires { halfedge_number h < lent_halfedges rows.now }
    ensures { halfedge_named result ≡ names (pair_of rows.now (halfedge_number h)) halfedges }
{
    let i = WIDTH * h.number() + PAIR;
    numbers::halfedge_read(rows[i], halfedges)
}

// The vertex where h starts, which is 0 or more.
pub fn start_known(rows: &[i32], h: Halfedge) -> Vertex
    requires { (halfedge_number h < lent_halfedges rows.now) × (is_started rows.now (halfedge_number h) ≡ true) }
    ensures { start_of rows.now (halfedge_number h) ≡ pos (vertex_number result) }
{
    let i = WIDTH * h.number() + START;
    numbers::vertex_known(rows[i])
}

// The partner of h, which has one.
pub fn pair_known(rows: &[i32], h: Halfedge) -> Halfedge
    requires { (halfedge_number h < lent_halfedges rows.now) × (is_paired rows.now (halfedge_number h) ≡ true) }
    ensures { pair_of rows.now (halfedge_number h) ≡ pos (halfedge_number result) }
{
    let i = WIDTH * h.number() + PAIR;
    numbers::halfedge_known(rows[i])
}

// The property row of h, among `properties`.
pub fn prop_of(rows: &[i32], h: Halfedge, properties: usize) -> Option<PropRow>
    requires { halfedge_number h < lent_halfedges rows.now }
    ensures { prop_row_named result ≡ names (prop_of rows.now (halfedge_number h)) properties }
{
    let i = WIDTH * h.number() + PROP;
    numbers::prop_row_read(rows[i], properties)
}

// Writes a number that a signed one can hold.
fn put(rows: &mut [i32], i: usize, n: usize)
    requires { (i < length rows.old) × (n < 2 ^ 31) }
    ensures { rows.new ≡ set rows.old i (pos n) }
{
    rows[i] = n as i32;
}

// Writes −1.
fn put_none(rows: &mut [i32], i: usize)
    requires { i < length rows.old }
    ensures { rows.new ≡ set rows.old i none }
{
    rows[i] = -1;
}

// Writes the vertex where h starts.
pub fn set_start(rows: &mut [i32], h: Halfedge, v: Vertex)
    requires { (halfedge_number h < lent_halfedges rows.old) × (vertex_number v < 2 ^ 31) }
    ensures { rows.new ≡ set_column start (halfedge_number h) (pos (vertex_number v)) rows.old }
{
    put(rows, WIDTH * h.number() + START, v.number());
}

// Writes the vertex where h ends.
pub fn set_end(rows: &mut [i32], h: Halfedge, v: Vertex)
    requires { (halfedge_number h < lent_halfedges rows.old) × (vertex_number v < 2 ^ 31) }
    ensures { rows.new ≡ set_column end (halfedge_number h) (pos (vertex_number v)) rows.old }
{
    put(rows, WIDTH * h.number() + END, v.number());
}

// Writes the partner of h.
pub fn set_pair(rows: &mut [i32], h: Halfedge, p: Halfedge)
    requires { (halfedge_number h < lent_halfedges rows.old) × (halfedge_number p < 2 ^ 31) }
    ensures { rows.new ≡ set_column pair (halfedge_number h) (pos (halfedge_number p)) rows.old }
{
    put(rows, WIDTH * h.number() + PAIR, p.number());
}

// Writes the property row of h.
pub fn set_prop(rows: &mut [i32], h: Halfedge, p: PropRow)
    requires { (halfedge_number h < lent_halfedges rows.old) × (prop_row_number p < 2 ^ 31) }
    ensures { rows.new ≡ set_column prop (halfedge_number h) (pos (prop_row_number p)) rows.old }
{
    put(rows, WIDTH * h.number() + PROP, p.number());
}

// Empties start, end and pair of h, and keeps its prop.
pub fn empty(rows: &mut [i32], h: Halfedge)
    requires { halfedge_number h < lent_halfedges rows.old }
    ensures { rows.new ≡ empty_row (halfedge_number h) rows.old }
{
    let i = WIDTH * h.number();
    put_none(rows, i + START);
    put_none(rows, i + END);
    put_none(rows, i + PAIR);
}

// Empties the prop of h.
pub fn empty_prop(rows: &mut [i32], h: Halfedge)
    requires { halfedge_number h < lent_halfedges rows.old }
    ensures { rows.new ≡ set_column prop (halfedge_number h) none rows.old }
{
    put_none(rows, WIDTH * h.number() + PROP);
}

// Gives h the prop of g, whatever it is.
pub fn copy_prop(rows: &mut [i32], g: Halfedge, h: Halfedge)
    requires { (halfedge_number g < lent_halfedges rows.old) × (halfedge_number h < lent_halfedges rows.old) }
    ensures { rows.new ≡ set_column prop (halfedge_number h) (prop_of rows.old (halfedge_number g)) rows.old }
{
    let i = WIDTH * g.number() + PROP;
    let j = WIDTH * h.number() + PROP;
    let p = rows[i];
    rows[j] = p;
}

// The part that starts at row h.
pub fn from_row(rows: &[i32], h: Halfedge) -> &[i32]
    requires { halfedge_number h < lent_halfedges rows.now }
    ensures { result.now ≡ rows_from (halfedge_number h) rows.now }
{
    let i = WIDTH * h.number();
    &rows[i..]
}

// Writes a row at the front of the free rows.
fn put_front(free: &mut [i32], row: Row)
    requires { width ≤ length free.old }
    ensures { free.new ≡ append_row 0 row free.old }
{
    free[START] = row.start;
    free[END] = row.end;
    free[PAIR] = row.pair;
    free[PROP] = row.prop;
}

// Appends a row: the tail from the rows in use on is lent to be written.
pub fn append(rows: &mut [i32], used: usize, row: Row) -> Halfedge
    requires { used < lent_halfedges rows.old }
    ensures { (rows.new ≡ append_row used row rows.old) × (halfedge_number result ≡ used) }
{
    let i = WIDTH * used;
    put_front(&mut rows[i..], row);
    numbers::halfedge_appended(used)
}

// Appends three rows without partners: from a to b, on to where h starts, and back. Two take the prop of e, the third that of h.
pub fn append_triangle(
    rows: &mut [i32],
    used: usize,
    a: Vertex,
    b: Vertex,
    h: Halfedge,
    e: Halfedge,
)
    requires { ((halfedge_number h < used) × (halfedge_number e < used)) × ((used + 3 ≤ lent_halfedges rows.old) × ((vertex_number a < 2 ^ 31) × (vertex_number b < 2 ^ 31))) }
    ensures { rows.new ≡ append_triangle used (vertex_number a) (vertex_number b) (halfedge_number h) (halfedge_number e) rows.old }
{
    let i = WIDTH * h.number() + START;
    let j = WIDTH * h.number() + PROP;
    let k = WIDTH * e.number() + PROP;
    let outside = rows[i];
    let third = rows[j];
    let prop = rows[k];
    let from = a.number() as i32;
    let to = b.number() as i32;
    append(
        rows,
        used,
        Row {
            start: from,
            end: to,
            pair: -1,
            prop,
        },
    );
    append(
        rows,
        used + 1,
        Row {
            start: to,
            end: outside,
            pair: -1,
            prop,
        },
    );
    append(
        rows,
        used + 2,
        Row {
            start: outside,
            end: from,
            pair: -1,
            prop: third,
        },
    );
}

// Lays the first n rows of `from` over `to`: the rows in use to a spare, and back.
pub fn copy(from: &[i32], to: &mut [i32], n: usize)
    requires { (n ≤ lent_halfedges from.now) × (n ≤ lent_halfedges to.old) }
    ensures { to.new ≡ over_rows n from.now to.old }
{
    stretches::copy(from, to, WIDTH * n);
}

// Zeroes rows a up to b.
pub fn zero(rows: &mut [i32], a: usize, b: usize)
    requires { (a ≤ b) × (b ≤ lent_halfedges rows.old) }
    ensures { rows.new ≡ zero_rows a b rows.old }
{
    stretches::fill(rows, 0, WIDTH * a, WIDTH * b);
}
