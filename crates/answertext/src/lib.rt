// Each kind of answer, and the arrays and buffers that a call leaves, put on a page.
#![tactic(auto, using(texts::proofs::Puts::puts_then), unfolding(texts::specs::Put::puts))]

ghost use Rattle.calltext.specs.Page.{Puts};
ghost use Rattle.answertext.specs.Said.{answer_said, row_said, lengths_said, next_said, corners_said, split_said, owners_said, vertices_said, grown_said, collapsed_said, spares_said, buffers_said, visits_said, arrays_said};

use calltext::show::{Page, Showable};

// An answer's number alone.
pub fn answer(page: &mut Page, entry: &[u8], number: u32)
    ensures { Puts (answer_said entry.now number) page.old page.new }
{
    page.number(entry, number);
    page.end();
}

// An answer and a row.
pub fn row(page: &mut Page, entry: &[u8], number: u32, row: usize)
    ensures { Puts (row_said entry.now number row) page.old page.new }
{
    page.number(entry, number);
    page.value(b" row=", row);
    page.end();
}

// An answer, and a squared length and a limit as bit patterns.
pub fn lengths(page: &mut Page, entry: &[u8], number: u32, length: u64, limit: u64)
    ensures { Puts (lengths_said entry.now number length limit) page.old page.new }
{
    page.number(entry, number);
    page.value(b" squared_length=", length);
    page.value(b" limit=", limit);
    page.end();
}

// An answer and the next number.
pub fn next(page: &mut Page, entry: &[u8], number: u32, next: i32)
    ensures { Puts (next_said entry.now number next) page.old page.new }
{
    page.number(entry, number);
    page.value(b" next=", next);
    page.end();
}

// An answer and the three numbers of a triangle.
pub fn corners(page: &mut Page, entry: &[u8], number: u32, first: i32, second: i32, third: i32)
    ensures { Puts (corners_said entry.now number first second third) page.old page.new }
{
    page.number(entry, number);
    page.value(b" first=", first);
    page.value(b" second=", second);
    page.value(b" third=", third);
    page.end();
}

// An answer, a row, the vertices added and the steps.
pub fn split(page: &mut Page, entry: &[u8], number: u32, row: usize, added: usize, steps: usize)
    ensures { Puts (split_said entry.now number row added steps) page.old page.new }
{
    page.number(entry, number);
    page.value(b" row=", row);
    page.value(b" added=", added);
    page.value(b" steps=", steps);
    page.end();
}

// An answer and how many are listed.
pub fn owners(page: &mut Page, entry: &[u8], number: u32, count: usize)
    ensures { Puts (owners_said entry.now number count) page.old page.new }
{
    page.number(entry, number);
    page.value(b" count=", count);
    page.end();
}

// An answer, a row and the vertices in use.
pub fn vertices(page: &mut Page, entry: &[u8], number: u32, row: usize, vertices: usize)
    ensures { Puts (vertices_said entry.now number row vertices) page.old page.new }
{
    page.number(entry, number);
    page.value(b" row=", row);
    page.value(b" vertices=", vertices);
    page.end();
}

// An answer, a row, the half-edges and the vertices in use.
pub fn grown(
    page: &mut Page,
    entry: &[u8],
    number: u32,
    row: usize,
    halfedges: usize,
    vertices: usize,
)
    ensures { Puts (grown_said entry.now number row halfedges vertices) page.old page.new }
{
    page.number(entry, number);
    page.value(b" row=", row);
    page.value(b" halfedges=", halfedges);
    page.value(b" vertices=", vertices);
    page.end();
}

// An answer, a row, the vertices in use, a squared length and a limit.
pub fn collapsed(
    page: &mut Page,
    entry: &[u8],
    number: u32,
    row: usize,
    vertices: usize,
    length: u64,
    limit: u64,
)
    ensures { Puts (collapsed_said entry.now number row vertices length limit) page.old page.new }
{
    page.number(entry, number);
    page.value(b" row=", row);
    page.value(b" vertices=", vertices);
    page.value(b" squared_length=", length);
    page.value(b" limit=", limit);
    page.end();
}

// The spares as they are left.
pub fn spares(page: &mut Page, spare_halfedges: &[i32], spare_positions: &[u64])
    ensures { Puts (spares_said spare_halfedges.now spare_positions.now) page.old page.new }
{
    page.list(b"spare_halfedges", spare_halfedges);
    page.list(b"spare_positions", spare_positions);
}

// A work buffer and a list as they are left.
pub fn buffers<T: Showable>(page: &mut Page, work: &[T], list: &[u32])
    ensures { Puts (buffers_said T.pieces work.now list.now) page.old page.new }
{
    page.list(b"work", work);
    page.list(b"list", list);
}

// A work buffer and a visit list as they are left.
pub fn visits(page: &mut Page, work: &[u32], visit: &[u32])
    ensures { Puts (visits_said work.now visit.now) page.old page.new }
{
    page.list(b"work", work);
    page.list(b"visit", visit);
}

// The five arrays as they are left.
pub fn arrays(
    page: &mut Page,
    halfedges: &[i32],
    positions: &[u64],
    normals: &[u64],
    references: &[i32],
    properties: &[u64],
)
    ensures { Puts (arrays_said halfedges.now positions.now normals.now references.now properties.now) page.old page.new }
{
    page.list(b"halfedges", halfedges);
    page.list(b"positions", positions);
    page.list(b"normals", normals);
    page.list(b"references", references);
    page.list(b"properties", properties);
}
