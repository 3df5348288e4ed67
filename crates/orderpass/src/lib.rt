// The first pass of splitting pinched vertices, over a net that is sound: the half-edges are put into the order of their visits, each fan
// walked once. It writes only the work buffer. None is for a fan that does not close, which cannot come here.
#![tactic(auto)]

ghost use Rattle.std.specs.Prelude.{◌≡◌, ℕ, ◌+◌, ◌<◌, ◌≤◌, ◌^◌, length, get_or, Option};
ghost use Rattle.numbers.specs.Numbers.{halfedge_number, vertex_number};
ghost use Rattle.net.specs.Sound.{turn};
ghost use Rattle.turning.specs.Walk.{walk};
ghost use Rattle.splitting.specs.inner.Needs.{SoundRows};
ghost use Rattle.ordering.specs.inner.Order.{order, order_fan, order_row, order_rows};
ghost use Rattle.ordering.specs.inner.Needs.{FanOrder, RowOrder};
ghost use Rattle.orderpass.specs.inner.Given.{Gives};

use numbers::{Halfedge, Vertex};
use splitting::Visited;

// The fan of i, which starts at v, put into the order: one more copy, but for the first fan there.
fn order_fan(
    rows: &[i32],
    work: &mut [u32],
    halfedges: usize,
    i: Halfedge,
    v: Vertex,
    before: Visited,
) -> Option<Visited>
    requires closes { FanOrder halfedges rows.now work.old (halfedge_number i) before.steps }
    requires inside { halfedges + vertex_number v < length work.old }
    requires small { halfedges + vertex_number v < 2 ^ 31 }
    requires few { before.added < 2 ^ 31 }
    ensures { Gives result work.new (order_fan halfedges (halfedge_number i) (vertex_number v) (walk (turn rows.now) halfedges (halfedge_number i) (halfedge_number i)) (order work.old before.added before.steps)) }
{
    let first = workentries::mark_vertex(work, halfedges, v);
    let steps = fanwalks::order_fan(rows, work, halfedges, i, first, before.steps)?;
    let added = if first {
        before.added
    } else {
        before.added + 1
    };
    Some(Visited { added, steps })
}

// Half-edge i and its fan, where that was not walked before.
fn order_row(
    rows: &[i32],
    work: &mut [u32],
    halfedges: usize,
    vertices: usize,
    i: Halfedge,
    before: Visited,
) -> Option<Visited>
    requires { RowOrder halfedges vertices rows.now work.old (halfedge_number i) before.added before.steps }
    ensures { Gives result work.new (order_row halfedges vertices rows.now (halfedge_number i) (order work.old before.added before.steps)) }
{
    if workentries::is_walked(work, i) {
        return Some(before);
    }
    match rows::halfedges::start_of(rows, i, vertices) {
        Some(v) => order_fan(rows, work, halfedges, i, v, before),
        None => Some(before),
    }
}

// All fans put into the order, over a cleared work buffer.
pub fn order_rows(
    rows: &[i32],
    work: &mut [u32],
    halfedges: usize,
    vertices: usize,
) -> Option<Visited>
    requires sound { SoundRows halfedges vertices rows.now }
    requires long { halfedges + vertices ≤ length work.old }
    requires clear { (k : ℕ) → k < halfedges + vertices → get_or work.old k 0 ≡ 0 }
    ensures { Gives result work.new (order_rows halfedges vertices rows.now halfedges (order work.old 0 0)) }
{
    let mut visited = Visited { added: 0, steps: 0 };
    for i in 0..halfedges {
        let h = numbers::halfedge_counted(i);
        visited = order_row(rows, work, halfedges, vertices, h, visited)?;
    }
    Some(visited)
}
