// The duplicates of a net, listed: for each fan, in the order of its walk, the half-edges for which a smaller one of the fan ends at the
// same vertex. The rows need not be in order.
#![tactic(auto)]

ghost use Rattle.std.specs.Prelude.{◌≡◌, Bool, cond, ◌&&◌, ℕ, ◌<◌, ◌≤◌, ltb, length, get_or, drop};
ghost use Rattle.numbers.specs.Next.{most_halfedges};
ghost use Rattle.numbers.specs.Numbers.{halfedge_number, halfedge_named, names, is_named};
ghost use Rattle.rows.specs.Halfedges.{end_of, lent_halfedges};
ghost use Rattle.steps.specs.Steps.{InUse};
ghost use Rattle.searches.specs.Duplicates.{fan, ends_alike, is_duplicate};
ghost use Rattle.duplicates.specs.Scan.{entries, push, push_all, picked, is_passed, mark_all, scan, scan_row, found};

pub mod fans;

use fans::Fan;
pub use fans::turn_on;
use numbers::Halfedge;

// The end of h is one of `vertices`.
fn ends_in(rows: &[i32], vertices: usize, h: Halfedge) -> bool
    requires { halfedge_number h < lent_halfedges rows.now }
    ensures { result ≡ is_named (names (end_of rows.now (halfedge_number h)) vertices) }
{
    rows::halfedges::end_of(rows, h, vertices).is_some()
}

// d is smaller than c and ends at the same vertex.
fn outranks(rows: &[i32], vertices: usize, d: Halfedge, c: Halfedge) -> bool
    requires { (halfedge_number d < lent_halfedges rows.now) × (halfedge_number c < lent_halfedges rows.now) }
    ensures { result ≡ ltb (halfedge_number d) (halfedge_number c) && ends_alike vertices rows.now (halfedge_number c) (halfedge_number d) }
{
    let smaller = d.number() < c.number();
    let alike = ends_in(rows, vertices, c) & edgetests::same_end(rows, d, c);
    smaller & alike
}

// Whether a smaller one of the fan of i ends where c does.
fn is_duplicate(rows: &[i32], halfedges: usize, vertices: usize, i: Halfedge, c: Halfedge) -> bool
    requires { (halfedge_number i < halfedges) × ((halfedge_number c < halfedges) × InUse halfedges rows.now) }
    ensures { result ≡ is_duplicate vertices rows.now (fan halfedges rows.now (halfedge_number i)) (halfedge_number c) }
{
    for d in Fan::of(rows, halfedges, i) {
        if outranks(rows, vertices, d, c) {
            return true;
        }
    }
    false
}

// Puts h behind the entries, where it is to be listed and the capacity is not reached. How many there are then.
pub fn push_if(list: &mut [u32], capacity: usize, count: usize, there: bool, h: Halfedge) -> usize
    requires { (capacity ≤ length list.old) × (halfedge_number h < most_halfedges) }
    ensures { entries list.new result ≡ cond there (push capacity (halfedge_number h) (entries list.old count)) (entries list.old count) }
{
    if !there {
        return count;
    }
    if capacity <= count {
        return count;
    }
    list[count] = h.number() as u32;
    count + 1
}

// Lists those of the fan of i that are to be listed behind the entries. How many there are then.
pub fn push_fan<F: Fn(Halfedge) -> bool>(
    rows: &[i32],
    list: &mut [u32],
    halfedges: usize,
    capacity: usize,
    count: usize,
    i: Halfedge,
    listed: F,
) -> usize
    requires fan { (halfedge_number i < halfedges) × (InUse halfedges rows.now × (capacity ≤ length list.old)) }
    requires test { (c : _) → halfedge_number c < halfedges → F.pre listed c }
    ensures { (test : ℕ → Bool) → ((c : _) (r : Bool) → F.post listed c r → r ≡ test (halfedge_number c)) → entries list.new result ≡ push_all capacity (picked test (fan halfedges rows.now (halfedge_number i))) (entries list.old count) }
{
    let mut n = count;
    for c in Fan::of(rows, halfedges, i) {
        n = push_if(list, capacity, n, listed(c), c);
    }
    n
}

const MARKED: u32 = 1;

// Marks the fan of i.
fn mark_fan(rows: &[i32], work: &mut [u32], halfedges: usize, i: Halfedge)
    requires { (halfedge_number i < halfedges) × (InUse halfedges rows.now × (halfedges ≤ length work.old)) }
    ensures { work.new ≡ mark_all (fan halfedges rows.now (halfedge_number i)) work.old }
{
    for c in Fan::of(rows, halfedges, i) {
        work[c.number()] = MARKED;
    }
}

// A walk has met h, or h has not both start and end.
fn is_passed(rows: &[i32], work: &[u32], h: Halfedge) -> bool
    requires { (halfedge_number h < lent_halfedges rows.now) × (halfedge_number h < length work.now) }
    ensures { result ≡ is_passed rows.now (halfedge_number h) work.now }
{
    let k = h.number();
    (work[k] != 0) | !(edgetests::is_started(rows, h) & edgetests::is_ended(rows, h))
}

// Walks the fan of h, where it is not passed over: marks it, and lists its duplicates behind the entries. How many there are then.
fn scan_row(
    rows: &[i32],
    work: &mut [u32],
    list: &mut [u32],
    halfedges: usize,
    vertices: usize,
    capacity: usize,
    count: usize,
    h: Halfedge,
) -> usize
    requires { (halfedge_number h < halfedges) × (InUse halfedges rows.now × ((halfedges ≤ length work.old) × (capacity ≤ length list.old))) }
    ensures { scan work.new (entries list.new result) ≡ scan_row halfedges vertices capacity rows.now (halfedge_number h) (scan work.old (entries list.old count)) }
{
    if is_passed(rows, work, h) {
        return count;
    }
    mark_fan(rows, work, halfedges, h);
    push_fan(rows, list, halfedges, capacity, count, h, |c| {
        is_duplicate(rows, halfedges, vertices, h, c)
    })
}

// Lists the duplicates from the front of the list on, as many as the capacity allows. How many are listed. Nothing is marked yet.
fn scan_rows(
    rows: &[i32],
    work: &mut [u32],
    list: &mut [u32],
    halfedges: usize,
    vertices: usize,
    capacity: usize,
) -> usize
    requires { InUse halfedges rows.now × ((halfedges ≤ length work.old) × ((capacity ≤ length list.old) × ((k : ℕ) → k < halfedges → get_or work.old k 0 ≡ 0))) }
    ensures { (entries list.new result ≡ found halfedges vertices capacity rows.now list.old) × (drop halfedges work.new ≡ drop halfedges work.old) }
{
    let mut count = 0;
    for i in 0..halfedges {
        let h = numbers::halfedge_counted(i);
        count = scan_row(rows, work, list, halfedges, vertices, capacity, count, h);
    }
    count
}

// Lists the duplicates from the front of the list on, as many as the capacity allows. How many are listed. Of the work buffer and the
// list no more than the capacity is written.
pub fn list_duplicates(
    rows: &[i32],
    work: &mut [u32],
    list: &mut [u32],
    halfedges: usize,
    vertices: usize,
    capacity: usize,
) -> usize
    requires { InUse halfedges rows.now × ((halfedges ≤ capacity) × ((capacity ≤ length work.old) × (capacity ≤ length list.old))) }
    ensures { (entries list.new result ≡ found halfedges vertices capacity rows.now list.old) × (drop capacity work.new ≡ drop capacity work.old) }
{
    stretches::fill(work, 0, 0, halfedges);
    scan_rows(rows, work, list, halfedges, vertices, capacity)
}
