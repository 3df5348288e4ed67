// Walks about a vertex: what splitting pinched vertices does to one fan. A walk makes at most as many turns as there are half-edges,
// and stops at home.
#![tactic(auto)]

ghost use Rattle.std.specs.Prelude.{◌≡◌, ◌+◌, ◌<◌, ◌^◌, length, Option, Some};
ghost use Rattle.numbers.specs.Numbers.{halfedge_number, vertex_number};
ghost use Rattle.rows.specs.Triples.{lent_triples, triple, put_triple};
ghost use Rattle.net.specs.Sound.{partner, turn, Live};
ghost use Rattle.turning.specs.Walk.{walk};
ghost use Rattle.splitting.specs.inner.Needs.{Round};
ghost use Rattle.splitting.specs.Steps.{relabel, relabel_walk};
ghost use Rattle.ordering.specs.inner.Order.{order_walk};
ghost use Rattle.ordering.specs.inner.Needs.{FanOrder};

use numbers::{Halfedge, Vertex};

// The partner of a live half-edge, which is there.
fn partner_of(rows: &[i32], h: Halfedge, halfedges: usize) -> Halfedge
    requires round { Round halfedges rows.now }
    requires live { Live halfedges rows.now (halfedge_number h) }
    ensures there { halfedge_number result ≡ partner rows.now (halfedge_number h) }
    ensures in_use { halfedge_number result < halfedges }
{
    rows::halfedges::pair_known(rows, h)
}

// One turn about the start of a live half-edge.
fn turn_of(rows: &[i32], h: Halfedge, halfedges: usize) -> Halfedge
    requires round { Round halfedges rows.now }
    requires live { Live halfedges rows.now (halfedge_number h) }
    ensures turned { halfedge_number result ≡ turn rows.now (halfedge_number h) }
    ensures in_use { halfedge_number result < halfedges }
{
    partner_of(rows, h, halfedges).next()
}

// Puts the half-edges of the fan of i into the order, from place `steps` on: the place behind them, or None where the fan does not close,
// which cannot come here.
pub fn order_fan(
    rows: &[i32],
    work: &mut [u32],
    halfedges: usize,
    i: Halfedge,
    first: bool,
    steps: usize,
) -> Option<usize>
    requires { FanOrder halfedges rows.now work.old (halfedge_number i) steps }
    ensures ordered { work.new ≡ order_walk first (halfedge_number i) steps (walk (turn rows.now) halfedges (halfedge_number i) (halfedge_number i)) work.old }
    ensures behind { result ≡ Some (steps + length (walk (turn rows.now) halfedges (halfedge_number i) (halfedge_number i))) }
{
    let home = i.number();
    let mut c = i;
    for k in steps..steps + halfedges {
        c = turn_of(rows, c, halfedges);
        let here = c.number();
        workentries::see(work, here);
        if here == home {
            workentries::place(work, k, workentries::last_entry(first, here));
            return Some(k + 1);
        }
        workentries::place(work, k, here);
    }
    None
}

// Sets x on the start of c and the end of its partner.
fn relabel_at(rows: &mut [i32], halfedges: usize, c: Halfedge, x: Vertex)
    requires round { Round halfedges rows.old }
    requires live { Live halfedges rows.old (halfedge_number c) }
    requires small { vertex_number x < 2 ^ 31 }
    ensures { rows.new ≡ relabel (vertex_number x) (halfedge_number c) rows.old }
{
    let p = partner_of(rows, c, halfedges);
    rows::halfedges::set_start(rows, c, x);
    rows::halfedges::set_end(rows, p, x);
}

// Sets x on every start in the fan of i and on the end of every partner.
fn relabel_fan(rows: &mut [i32], halfedges: usize, i: Halfedge, x: Vertex)
    requires round { Round halfedges rows.old }
    requires live { Live halfedges rows.old (halfedge_number i) }
    requires small { vertex_number x < 2 ^ 31 }
    ensures { rows.new ≡ relabel_walk (vertex_number x) (walk (turn rows.old) halfedges (halfedge_number i) (halfedge_number i)) rows.old }
{
    let mut c = i;
    for _ in 0..halfedges {
        c = turn_of(rows, c, halfedges);
        relabel_at(rows, halfedges, c, x);
        if c == i {
            return;
        }
    }
}

// The fan of i gets a copy of v, appended behind `used` vertices.
pub fn copy_fan(
    rows: &mut [i32],
    positions: &mut [u64],
    halfedges: usize,
    used: usize,
    i: Halfedge,
    v: Vertex,
)
    requires round { Round halfedges rows.old }
    requires live { Live halfedges rows.old (halfedge_number i) }
    requires read { vertex_number v < lent_triples positions.old }
    requires room { used < lent_triples positions.old }
    requires small { used < 2 ^ 31 }
    ensures relabelled { rows.new ≡ relabel_walk used (walk (turn rows.old) halfedges (halfedge_number i) (halfedge_number i)) rows.old }
    ensures copied { positions.new ≡ put_triple used (triple positions.old (vertex_number v)) positions.old }
{
    let p = rows::triples::position_of(positions, v);
    let x = rows::triples::append_position(positions, used, p);
    relabel_fan(rows, halfedges, i, x);
}
