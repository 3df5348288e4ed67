// The duplicates of a net, listed with a table: while a fan is walked, the least of its half-edges that ends at each vertex. So each fan
// is walked twice, or three times where it has duplicates, however many half-edges it has.
#![tactic(auto)]

ghost use Rattle.std.specs.Prelude.{◌≡◌, false, cond, ℕ, ◌+◌, ◌<◌, ◌≤◌, length, get_or, drop};
ghost use Rattle.numbers.specs.Next.{most_halfedges};
ghost use Rattle.numbers.specs.Numbers.{halfedge_number, names};
ghost use Rattle.rows.specs.Halfedges.{end_of, lent_halfedges};
ghost use Rattle.steps.specs.Steps.{InUse};
ghost use Rattle.searches.specs.Duplicates.{fan};
ghost use Rattle.duplicates.specs.Scan.{entries, push_all, picked, scan, found};
ghost use Rattle.tables.specs.Table.{table, lesser, enter, enter_all, is_over, clear_at, clear_all, is_done, table_row};

use duplicates::fans::Fan;
use numbers::Halfedge;

// Of what stands at a vertex and c, the less.
fn lesser(x: usize, c: usize) -> usize
    requires { c < most_halfedges }
    ensures { result ≡ lesser x c }
{
    if (x == 0) | (c < x) {
        return c + 1;
    }
    x
}

// Marks c, and enters it at its end. Whether one was entered there before.
fn enter(rows: &[i32], work: &mut [u32], vertices: usize, twice: bool, c: Halfedge) -> bool
    requires { ((halfedge_number c < lent_halfedges rows.now) × (halfedge_number c < most_halfedges)) × ((halfedge_number c < length work.old) × (vertices ≤ length work.old)) }
    ensures { table work.new result ≡ enter vertices rows.now (halfedge_number c) (table work.old twice) }
{
    let k = c.number();
    workentries::see(work, k);
    let Some(end) = rows::halfedges::end_of(rows, c, vertices) else {
        return twice;
    };
    let v = end.number();
    let x = workentries::entry_at(work, v);
    workentries::place(work, v, lesser(x, k));
    twice | (x != 0)
}

// Enters the fan of i. Whether some vertex was entered twice.
fn enter_fan(rows: &[i32], work: &mut [u32], halfedges: usize, vertices: usize, i: Halfedge) -> bool
    requires { (halfedge_number i < halfedges) × (InUse halfedges rows.now × ((halfedges ≤ length work.old) × (vertices ≤ length work.old))) }
    ensures { table work.new result ≡ enter_all vertices rows.now (fan halfedges rows.now (halfedge_number i)) (table work.old false) }
{
    let mut twice = false;
    for c in Fan::of(rows, halfedges, i) {
        twice = enter(rows, work, vertices, twice, c);
    }
    twice
}

// c is not the least at its end.
fn is_over(rows: &[i32], work: &[u32], vertices: usize, c: Halfedge) -> bool
    requires { ((halfedge_number c < lent_halfedges rows.now) × (halfedge_number c < most_halfedges)) × (vertices ≤ length work.now) }
    ensures { result ≡ is_over vertices rows.now work.now (halfedge_number c) }
{
    let Some(end) = rows::halfedges::end_of(rows, c, vertices) else {
        return false;
    };
    workentries::entry_at(work, end.number()) != c.number() + 1
}

// Takes back what c has entered.
fn clear(rows: &[i32], work: &mut [u32], vertices: usize, c: Halfedge)
    requires { (halfedge_number c < lent_halfedges rows.now) × (vertices ≤ length work.old) }
    ensures { work.new ≡ clear_at (names (end_of rows.now (halfedge_number c)) vertices) work.old }
{
    let Some(end) = rows::halfedges::end_of(rows, c, vertices) else {
        return;
    };
    workentries::place(work, end.number(), 0);
}

// Takes back what the fan of i has entered.
fn clear_fan(rows: &[i32], work: &mut [u32], halfedges: usize, vertices: usize, i: Halfedge)
    requires { (halfedge_number i < halfedges) × (InUse halfedges rows.now × (vertices ≤ length work.old)) }
    ensures { work.new ≡ clear_all vertices rows.now (fan halfedges rows.now (halfedge_number i)) work.old }
{
    for c in Fan::of(rows, halfedges, i) {
        clear(rows, work, vertices, c);
    }
}

// A walk has met h, or h has not both start and end.
fn is_done(rows: &[i32], work: &[u32], h: Halfedge) -> bool
    requires { (halfedge_number h < lent_halfedges rows.now) × (halfedge_number h < length work.now) }
    ensures { result ≡ is_done rows.now (halfedge_number h) work.now }
{
    workentries::is_walked(work, h)
        | !(edgetests::is_started(rows, h) & edgetests::is_ended(rows, h))
}

// The fan of h, where some vertex was entered twice: those that are not the least at their end are listed behind the entries. How many
// entries there are then.
fn push_if_twice(
    rows: &[i32],
    work: &[u32],
    list: &mut [u32],
    halfedges: usize,
    vertices: usize,
    capacity: usize,
    count: usize,
    twice: bool,
    h: Halfedge,
) -> usize
    requires { (halfedge_number h < halfedges) × (InUse halfedges rows.now × ((vertices ≤ length work.now) × (capacity ≤ length list.old))) }
    ensures { entries list.new result ≡ cond twice (push_all capacity (picked (is_over vertices rows.now work.now) (fan halfedges rows.now (halfedge_number h))) (entries list.old count)) (entries list.old count) }
{
    if !twice {
        return count;
    }
    duplicates::push_fan(rows, list, halfedges, capacity, count, h, |c| {
        is_over(rows, work, vertices, c)
    })
}

// Walks the fan of h, where it is not done: marks it, and lists its duplicates behind the entries. How many there are then.
fn table_row(
    rows: &[i32],
    work: &mut [u32],
    list: &mut [u32],
    halfedges: usize,
    vertices: usize,
    capacity: usize,
    count: usize,
    h: Halfedge,
) -> usize
    requires { (halfedge_number h < halfedges) × (InUse halfedges rows.now × (((halfedges ≤ length work.old) × (vertices ≤ length work.old)) × (capacity ≤ length list.old))) }
    ensures { scan work.new (entries list.new result) ≡ table_row halfedges vertices capacity rows.now (halfedge_number h) (scan work.old (entries list.old count)) }
{
    if is_done(rows, work, h) {
        return count;
    }
    let twice = enter_fan(rows, work, halfedges, vertices, h);
    let n = push_if_twice(
        rows, work, list, halfedges, vertices, capacity, count, twice, h,
    );
    clear_fan(rows, work, halfedges, vertices, h);
    n
}

// Lists the duplicates from the front of the list on, as many as the capacity allows. How many are listed. The work buffer reads zero.
fn table_rows(
    rows: &[i32],
    work: &mut [u32],
    list: &mut [u32],
    halfedges: usize,
    vertices: usize,
    capacity: usize,
) -> usize
    requires { InUse halfedges rows.now × (((halfedges ≤ capacity) × (vertices ≤ capacity)) × (((capacity ≤ length work.old) × (capacity ≤ length list.old)) × ((k : ℕ) → k < capacity → get_or work.old k 0 ≡ 0))) }
    ensures { (entries list.new result ≡ found halfedges vertices capacity rows.now list.old) × (drop capacity work.new ≡ drop capacity work.old) }
{
    let mut count = 0;
    for i in 0..halfedges {
        let h = numbers::halfedge_counted(i);
        count = table_row(rows, work, list, halfedges, vertices, capacity, count, h);
    }
    count
}

// Lists the duplicates from the front of the list on, as many as the capacity allows. How many are listed. Of the work buffer and the
// list no more than the capacity is written. Where it has no room for a table, each fan is walked again for each of its half-edges.
pub fn list_duplicates(
    rows: &[i32],
    work: &mut [u32],
    list: &mut [u32],
    halfedges: usize,
    vertices: usize,
    capacity: usize,
) -> usize
    requires { InUse halfedges rows.now × ((halfedges ≤ capacity) × ((capacity ≤ length work.old) × (capacity ≤ length list.old))) }
    ensures { (entries list.new result ≡ found halfedges vertices capacity rows.now list.old) × (drop capacity work.new ≡ drop capacity work.old) }
{
    if capacity < vertices {
        return duplicates::list_duplicates(rows, work, list, halfedges, vertices, capacity);
    }
    stretches::fill(work, 0, 0, capacity);
    table_rows(rows, work, list, halfedges, vertices, capacity)
}
