// Taking two triangles out that have folded onto each other: the step of remove_if_folded, whose entry is the crate removefolded.
// e is the edge and f its partner; e1, e2 and f1, f2 are the second and third rows of their triangles.
#![tactic(auto)]

ghost use Rattle.std.specs.Prelude.{◌≡◌, List, ℕ, ◌<◌};
ghost use Rattle.numbers.specs.Next.{next};
ghost use Rattle.numbers.specs.Numbers.{halfedge_number};
ghost use Rattle.rows.specs.Halfedges.{lent_halfedges};
ghost use Rattle.steps.specs.Steps.{middle, begin, run_after, InUse, VerticesIn};
ghost use Rattle.folds.specs.Folds.{lose, lose_folded, has_pair, outer_paired, join, gone_row, gone_rows, take_out, fold_at, fold};
ghost use Rattle.folds.specs.Triangles.{rows_of, RowsIn};

use numbers::Halfedge;
use rows::triples::Bits3;
use steps::Stop;

const NAN: u64 = 0x7FF8_0000_0000_0000;

// The rows of the two triangles.
#[derive(Clone, Copy)]
struct Folded {
    e: Halfedge,
    e1: Halfedge,
    e2: Halfedge,
    f: Halfedge,
    f1: Halfedge,
    f2: Halfedge,
}

// The step that loses the start of h: nothing where that is below 0; it stops where that is beyond the vertices.
pub fn lose_step(
    rows: &[i32],
    positions: &mut [u64],
    vertices: usize,
    h: Halfedge,
) -> Result<(), Stop>
    requires { (halfedge_number h < lent_halfedges rows.now) × VerticesIn vertices positions.old }
    ensures { middle rows.now positions.new (run_after vertices result) ≡ lose (halfedge_number h) (begin rows.now positions.old vertices) }
{
    match rows::halfedges::start_of(rows, h, vertices) {
        Some(v) => {
            let nan = Bits3 {
                x: NAN,
                y: NAN,
                z: NAN,
            };
            rows::triples::set_position(positions, v, nan);
            Ok(())
        }
        None if edgetests::is_started(rows, h) => Err(Stop::Stopped),
        None => Ok(()),
    }
}

// h is paired with p.
fn is_pair(rows: &[i32], halfedges: usize, h: Halfedge, p: Halfedge) -> bool
    requires { (halfedge_number h < halfedges) × InUse halfedges rows.now }
    ensures { result ≡ has_pair halfedges rows.now (halfedge_number h) (halfedge_number p) }
{
    rows::halfedges::pair_of(rows, h, halfedges) == Some(p)
}

// The step that loses what a fold loses: three starts where the triangles meet twice, else one.
fn lose_folded(
    rows: &[i32],
    positions: &mut [u64],
    vertices: usize,
    first: bool,
    second: bool,
    t: Folded,
) -> Result<(), Stop>
    requires { RowsIn (lent_halfedges rows.now) (rows_of t) × VerticesIn vertices positions.old }
    ensures { middle rows.now positions.new (run_after vertices result) ≡ lose_folded first second (rows_of t).e (rows_of t).e1 (rows_of t).e2 (rows_of t).f1 (begin rows.now positions.old vertices) }
{
    if !first {
        return lose_step(rows, positions, vertices, t.f1);
    }
    if !second {
        return lose_step(rows, positions, vertices, t.e1);
    }
    lose_step(rows, positions, vertices, t.e)?;
    lose_step(rows, positions, vertices, t.e1)?;
    lose_step(rows, positions, vertices, t.e2)
}

// a and d are paired, and b and c.
fn join_rows(rows: &mut [i32], halfedges: usize, a: Halfedge, b: Halfedge, c: Halfedge, d: Halfedge)
    requires { ((halfedge_number a < halfedges) × ((halfedge_number b < halfedges) × ((halfedge_number c < halfedges) × (halfedge_number d < halfedges)))) × InUse halfedges rows.old }
    ensures { rows.new ≡ outer_paired (halfedge_number a) (halfedge_number b) (halfedge_number c) (halfedge_number d) rows.old }
{
    pairing::pair_rows(rows, a, d);
    pairing::pair_rows(rows, b, c);
}

// The step that pairs the outer partners: of e1 and f2, and of e2 and f1. It stops where one of them isn't there.
fn join_step(rows: &mut [i32], halfedges: usize, t: Folded) -> Result<(), Stop>
    requires { RowsIn halfedges (rows_of t) × InUse halfedges rows.old }
    ensures { (p : List ℕ) (n : ℕ) → middle rows.new p (run_after n result) ≡ join halfedges (rows_of t).e1 (rows_of t).e2 (rows_of t).f1 (rows_of t).f2 (begin rows.old p n) }
{
    let a = steps::pair_of(rows, t.e1, halfedges)?;
    let b = steps::pair_of(rows, t.e2, halfedges)?;
    let c = steps::pair_of(rows, t.f1, halfedges)?;
    let d = steps::pair_of(rows, t.f2, halfedges)?;
    join_rows(rows, halfedges, a, b, c, d);
    Ok(())
}

// Empties a row, its prop too.
fn clear_row(rows: &mut [i32], h: Halfedge)
    requires { halfedge_number h < lent_halfedges rows.old }
    ensures { rows.new ≡ gone_row (halfedge_number h) rows.old }
{
    rows::halfedges::empty(rows, h);
    rows::halfedges::empty_prop(rows, h);
}

// Empties three rows, their props too.
fn clear_rows(rows: &mut [i32], e: Halfedge, e1: Halfedge, e2: Halfedge)
    requires { (halfedge_number e < lent_halfedges rows.old) × ((halfedge_number e1 < lent_halfedges rows.old) × (halfedge_number e2 < lent_halfedges rows.old)) }
    ensures { rows.new ≡ gone_rows (halfedge_number e) (halfedge_number e1) (halfedge_number e2) rows.old }
{
    clear_row(rows, e);
    clear_row(rows, e1);
    clear_row(rows, e2);
}

// Takes the two triangles out.
fn take_out(
    rows: &mut [i32],
    positions: &mut [u64],
    halfedges: usize,
    vertices: usize,
    first: bool,
    second: bool,
    t: Folded,
) -> Result<(), Stop>
    requires { RowsIn halfedges (rows_of t) × (InUse halfedges rows.old × VerticesIn vertices positions.old) }
    ensures { middle rows.new positions.new (run_after vertices result) ≡ take_out halfedges first second (rows_of t) (begin rows.old positions.old vertices) }
{
    lose_folded(rows, positions, vertices, first, second, t)?;
    join_step(rows, halfedges, t)?;
    clear_rows(rows, t.e, t.e1, t.e2);
    clear_rows(rows, t.f, t.f1, t.f2);
    Ok(())
}

// Takes the two triangles out where they have folded: they have the same opposite vertex and meet again.
fn fold_at(
    rows: &mut [i32],
    positions: &mut [u64],
    halfedges: usize,
    vertices: usize,
    e: Halfedge,
    f: Halfedge,
) -> Result<(), Stop>
    requires { ((halfedge_number e < halfedges) × (halfedge_number f < halfedges)) × (InUse halfedges rows.old × VerticesIn vertices positions.old) }
    ensures { middle rows.new positions.new (run_after vertices result) ≡ fold_at halfedges (halfedge_number e) (halfedge_number f) (begin rows.old positions.old vertices) }
{
    let e1 = e.next();
    let e2 = e1.next();
    let f1 = f.next();
    let f2 = f1.next();
    let first = is_pair(rows, halfedges, e1, f2);
    let second = is_pair(rows, halfedges, e2, f1);
    if !(edgetests::same_end(rows, e1, f1) & (first | second)) {
        return Ok(());
    }
    let t = Folded {
        e,
        e1,
        e2,
        f,
        f1,
        f2,
    };
    take_out(rows, positions, halfedges, vertices, first, second, t)
}

// The step of remove_if_folded: nothing at an edge without pair, or where its second row's pair is −1.
pub fn fold_step(
    rows: &mut [i32],
    positions: &mut [u64],
    halfedges: usize,
    vertices: usize,
    e: Halfedge,
) -> Result<(), Stop>
    requires { (halfedge_number e < halfedges) × (InUse halfedges rows.old × VerticesIn vertices positions.old) }
    ensures { middle rows.new positions.new (run_after vertices result) ≡ fold halfedges (halfedge_number e) (begin rows.old positions.old vertices) }
{
    if !edgetests::is_paired(rows, e) | edgetests::is_unpaired(rows, e.next()) {
        return Ok(());
    }
    let f = steps::pair_of(rows, e, halfedges)?;
    fold_at(rows, positions, halfedges, vertices, e, f)
}
