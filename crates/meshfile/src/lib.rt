// Form 1 of the mesh file, read from a text into lent half-edge and position rows. The text is checked as a whole before
// anything is written: a file that is refused leaves the rows as they were.
#![tactic(auto)]

ghost use Rattle.std.specs.Prelude.{◌≡◌, ℕ, ◌*◌, ◌/◌, ◌<◌, ◌≤◌, List, length};
ghost use Rattle.digits.specs.Steps.{Got};
ghost use Rattle.digits.specs.Told.{value_got};
ghost use Rattle.rows.specs.Halfedges as H;
ghost use Rattle.rows.specs.Halfedges.{append_row};
ghost use Rattle.rows.specs.Triples.{put_triple};
ghost use Rattle.meshfile.specs.Steps.{count_step, position_step, halfedge_step, header_of, lines_of, taken, body_of, found};
ghost use Rattle.meshfile.specs.Told.{header_told, outline, passed_told, checked_told, Within, laid, reading, mesh_said, read_mesh};

use rows::halfedges::{self, Row};
use rows::triples::{self, Bits3};
use std::cmp;

// How many vertices and triangles a file has, or may have: of half-edges, three times as many.
#[derive(Clone, Copy)]
pub struct Size {
    pub vertices: usize,
    pub triangles: usize,
}

// Why a file is refused: it has more than it may have, or this is the first bad line.
#[derive(Clone, Copy)]
pub enum MeshError {
    TooLarge,
    BadLine(usize),
}

// The number of a bad line.
#[derive(Clone, Copy)]
struct BadLine(usize);

impl From<BadLine> for MeshError {
    ghost use Rattle.meshfile.specs.declared.MeshError.TheVariants as E;

    ghost from_gives = { λ line e. e ≡ E.BadLine line.0 };

    fn from(line: BadLine) -> MeshError {
        MeshError::BadLine(line.0)
    }
}

// A good file's size, and where its positions and its rows begin.
#[derive(Clone, Copy)]
struct Checked<'a> {
    size: Size,
    positions: &'a [u8],
    halfedges: &'a [u8],
}

const MOST_VERTICES: usize = 256;

const MOST_TRIANGLES: usize = 256;

// What stands on a line of its own and goes to a row of `width` numbers.
trait Record: Copy {
    type Cell: Copy;

    ghost width: { ℕ };

    ghost step: { List ℕ → Got Self };

    ghost put: { ℕ → Self → List Self.Cell → List Self.Cell };

    // Reads a line.
    fn read(rest: &[u8]) -> Option<(Self, &[u8])>
        ensures { value_got result ≡ step rest.now };

    // Puts the record behind the rows in use.
    fn append(self, rows: &mut [Self::Cell], used: usize)
        requires { used < length rows.old / width }
        ensures { rows.new ≡ put used self rows.old };
}

impl Record for Bits3 {
    type Cell = u64;

    ghost width = { 3 };

    ghost step = { position_step };

    ghost put = { put_triple };

    #[tactic(auto, unfolding(crate::specs::Steps::position_step))]
    fn read(rest: &[u8]) -> Option<(Bits3, &[u8])> {
        let rest = digits::word(rest, b"p=")?;
        let (x, rest) = digits::hex_then(rest, b',')?;
        let (y, rest) = digits::hex_then(rest, b',')?;
        let (z, rest) = digits::hex_then(rest, b'\n')?;
        Some((Bits3 { x, y, z }, rest))
    }

    fn append(self, rows: &mut [u64], used: usize) {
        triples::append_position(rows, used, self);
    }
}

impl Record for Row {
    type Cell = i32;

    ghost width = { H.width };

    ghost step = { halfedge_step };

    ghost put = { append_row };

    #[tactic(auto, unfolding(crate::specs::Steps::halfedge_step))]
    fn read(rest: &[u8]) -> Option<(Row, &[u8])> {
        let rest = digits::word(rest, b"h=")?;
        let (start, rest) = digits::number_then(rest, b',')?;
        let (end, rest) = digits::number_then(rest, b',')?;
        let (pair, rest) = digits::number_then(rest, b',')?;
        let (prop, rest) = digits::number_then(rest, b'\n')?;
        Some((
            Row {
                start,
                end,
                pair,
                prop,
            },
            rest,
        ))
    }

    fn append(self, rows: &mut [i32], used: usize) {
        halfedges::append(rows, used, self);
    }
}

// A word, a count and the end of the line.
#[tactic(auto, unfolding(crate::specs::Steps::count_step))]
fn count_line<'a>(rest: &'a [u8], word: &[u8]) -> Option<(usize, &'a [u8])>
    ensures { value_got result ≡ count_step word.now rest.now }
{
    digits::count_then(digits::word(rest, word)?, b'\n')
}

// The three first lines.
#[tactic(auto, unfolding(crate::specs::Steps::header_of))]
fn first_lines(text: &[u8]) -> Result<(Size, &[u8]), BadLine>
    ensures { header_told result ≡ header_of text.now }
{
    let rest = digits::word(text, b"form=1\n").ok_or(BadLine(1))?;
    let (vertices, rest) = count_line(rest, b"verts=").ok_or(BadLine(2))?;
    let (triangles, rest) = count_line(rest, b"tris=").ok_or(BadLine(3))?;
    Ok((
        Size {
            vertices,
            triangles,
        },
        rest,
    ))
}

// Passes n records, of which the first stands on `line`.
fn pass<R: Record>(rest: &[u8], n: usize, line: usize) -> Result<&[u8], BadLine>
    requires few { n ≤ 768 }
    requires near { line ≤ 1024 }
    ensures { passed_told result ≡ outline (lines_of R.step n line rest.now) }
{
    let mut rest = rest;
    for i in 0..n {
        let Some((_, next)) = R::read(rest) else {
            return Err(BadLine(line + i));
        };
        rest = next;
    }
    Ok(rest)
}

// Checks the positions and rows, and that nothing follows.
fn check_body(rest: &[u8], size: Size) -> Result<Checked<'_>, MeshError>
    requires vertices { size.vertices ≤ 256 }
    requires triangles { size.triangles ≤ 256 }
    ensures told { checked_told result ≡ body_of size.vertices size.triangles rest.now }
    ensures within { Within size result }
{
    let halfedges = pass::<Bits3>(rest, size.vertices, 4)?;
    let end = pass::<Row>(halfedges, 3 * size.triangles, 4 + size.vertices)?;
    if end.is_empty() {
        Ok(Checked {
            size,
            positions: rest,
            halfedges,
        })
    } else {
        Err(MeshError::BadLine(4 + size.vertices + 3 * size.triangles))
    }
}

// Checks a whole file.
fn check_file(text: &[u8], limits: Size) -> Result<Checked<'_>, MeshError>
    requires vertices { limits.vertices ≤ 256 }
    requires triangles { limits.triangles ≤ 256 }
    ensures told { checked_told result ≡ found limits text.now }
    ensures within { Within limits result }
{
    let (size, rest) = first_lines(text)?;
    if (limits.vertices < size.vertices) | (limits.triangles < size.triangles) {
        return Err(MeshError::TooLarge);
    }
    check_body(rest, size)
}

// Writes n records.
fn fill<R: Record>(rest: &[u8], n: usize, rows: &mut [R::Cell])
    requires { n ≤ length rows.old / R.width }
    ensures { rows.new ≡ laid R.put 0 (taken R.step n rest.now) rows.old }
{
    let mut rest = rest;
    for i in 0..n {
        let Some((record, next)) = R::read(rest) else {
            return;
        };
        record.append(rows, i);
        rest = next;
    }
}

// The entry read: a file's positions and rows go to the front of the lent arrays. At most 256 vertices and 768 half-edges, and
// no more than the arrays hold.
pub fn read(text: &[u8], halfedges: &mut [i32], positions: &mut [u64]) -> Result<Size, MeshError>
    ensures { reading (mesh_said result) halfedges.new positions.new ≡ read_mesh text.now halfedges.old positions.old }
{
    let limits = Size {
        vertices: cmp::min(MOST_VERTICES, triples::lent(positions)),
        triangles: cmp::min(MOST_TRIANGLES, halfedges::lent(halfedges) / 3),
    };
    let file = check_file(text, limits)?;
    fill::<Bits3>(file.positions, file.size.vertices, positions);
    fill::<Row>(file.halfedges, 3 * file.size.triangles, halfedges);
    Ok(file.size)
}
