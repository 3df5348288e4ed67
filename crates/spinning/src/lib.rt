// The loop of a collapse about the start of its edge. A neighbour that is listed already forms a loop and cuts the list to its place.
// Nothing here asks for rows in order.
#![tactic(auto)]

ghost use Rattle.std.specs.Prelude.{◌≡◌, ◌<◌, ◌≤◌, length, Err, IfOk, IfErr};
ghost use Rattle.numbers.specs.Numbers.{halfedge_number};
ghost use Rattle.rows.specs.Halfedges.{lent_halfedges};
ghost use Rattle.rows.specs.Triples.{lent_triples};
ghost use Rattle.steps.specs.Steps.{middle, begin, run_after, InUse, VerticesIn};
ghost use Rattle.rings.specs.Ring.{AllIn};
ghost use Rattle.spinning.specs.Spin.{turned, net_after, Ready, fixed, Around, turn_at, turn_once, spun, spin};

use numbers::Halfedge;
use steps::Stop;

// What stays the same while the loop turns: the half-edges in use, the vertex capacity, whether props are carried, the edge and its
// partner.
#[derive(Clone, Copy)]
pub struct Ends {
    pub halfedges: usize,
    pub capacity: usize,
    pub props: bool,
    pub edge: Halfedge,
    pub partner: Halfedge,
}

// One turn: the loop is out; it goes on to a half-edge; or a loop was formed, and the list is cut.
#[derive(Clone, Copy)]
pub enum Turn {
    Out,
    On(Halfedge),
    Formed(Halfedge, usize),
}

// A turn at h: on to its partner, or, where an entry of the list ends where h does, a loop is formed with the first of them.
fn turn_at(
    rows: &mut [i32],
    positions: &mut [u64],
    vertices: &mut usize,
    list: &[u32],
    ends: Ends,
    h: Halfedge,
) -> Result<Turn, Stop>
    requires { ((halfedge_number h < ends.halfedges) × InUse ends.halfedges rows.old) × (((vertices.old ≤ ends.capacity) × VerticesIn ends.capacity positions.old) × AllIn ends.halfedges list.now) }
    ensures goes { IfOk result (λ t. (turned t (begin rows.new positions.new vertices.new) ≡ turn_at ends.halfedges ends.capacity list.now (length list.now) (halfedge_number h) (begin rows.old positions.old vertices.old)) × Ready ends.halfedges (length list.now) t) }
    ensures stops { IfErr result (λ stop. middle rows.new positions.new (run_after vertices.new (Err stop)) ≡ net_after (turn_at ends.halfedges ends.capacity list.now (length list.now) (halfedge_number h) (begin rows.old positions.old vertices.old))) }
    ensures within { vertices.new ≤ ends.capacity }
{
    let halfedges = ends.halfedges;
    let Some(q) = rows::halfedges::pair_of(rows, h, halfedges) else {
        return Ok(Turn::Out);
    };
    let Some(k) = rings::find(rows, list, halfedges, h) else {
        return Ok(Turn::On(q));
    };
    let g = rings::entry(list, k);
    loops::loop_step(rows, positions, vertices, halfedges, ends.capacity, g, h)?;
    Ok(Turn::Formed(q, k))
}

// One turn of the loop about the start.
fn turn_once(
    rows: &mut [i32],
    positions: &mut [u64],
    vertices: &mut usize,
    references: &[i32],
    list: &[u32],
    ends: Ends,
    at: Halfedge,
) -> Result<Turn, Stop>
    requires { Around ends references.now list.now × (((ends.halfedges ≤ lent_halfedges rows.old) × (ends.capacity ≤ lent_triples positions.old)) × ((vertices.old ≤ ends.capacity) × (halfedge_number at < ends.halfedges))) }
    ensures goes { IfOk result (λ t. (turned t (begin rows.new positions.new vertices.new) ≡ turn_once (fixed ends references.now list.now) (length list.now) (halfedge_number at) (begin rows.old positions.old vertices.old)) × Ready ends.halfedges (length list.now) t) }
    ensures stops { IfErr result (λ stop. middle rows.new positions.new (run_after vertices.new (Err stop)) ≡ net_after (turn_once (fixed ends references.now list.now) (length list.now) (halfedge_number at) (begin rows.old positions.old vertices.old))) }
    ensures within { vertices.new ≤ ends.capacity }
{
    let e = ends.edge;
    if at == e.next().next() {
        return Ok(Turn::Out);
    }
    let p = ends.partner;
    let h = at.next();
    carrying::carry_prop(rows, references, ends.halfedges, ends.props, e, p, h);
    turn_at(rows, positions, vertices, list, ends, h)
}

// The loop about the start, from `first` on, over all of the list: where the last update begins. Moves are counted anew after each loop
// formed; the steps stop where none is left but the loop stands short of its end.
pub fn spin(
    rows: &mut [i32],
    positions: &mut [u64],
    vertices: &mut usize,
    references: &[i32],
    list: &[u32],
    ends: Ends,
    first: Halfedge,
) -> Result<Halfedge, Stop>
    requires { Around ends references.now list.now × (((ends.halfedges ≤ lent_halfedges rows.old) × (ends.capacity ≤ lent_triples positions.old)) × ((vertices.old ≤ ends.capacity) × (halfedge_number first < ends.halfedges))) }
    ensures goes { IfOk result (λ start. (spun (begin rows.new positions.new vertices.new) (halfedge_number start) ≡ spin (length list.now) (fixed ends references.now list.now) ends.halfedges (halfedge_number first) (length list.now) (halfedge_number first) (begin rows.old positions.old vertices.old)) × (halfedge_number start < ends.halfedges)) }
    ensures stops { IfErr result (λ stop. middle rows.new positions.new (run_after vertices.new (Err stop)) ≡ (spin (length list.now) (fixed ends references.now list.now) ends.halfedges (halfedge_number first) (length list.now) (halfedge_number first) (begin rows.old positions.old vertices.old)).middle) }
    ensures within { vertices.new ≤ ends.capacity }
{
    let mut at = first;
    let mut start = first;
    let mut list = list;
    let mut left = ends.halfedges;
    while 0 < left {
        match turn_once(rows, positions, vertices, references, list, ends, at)? {
            Turn::Out => {
                return Ok(start);
            }
            Turn::On(q) => {
                at = q;
                left -= 1;
            }
            Turn::Formed(q, k) => {
                at = q;
                start = q;
                list = &list[..k];
                left = ends.halfedges;
            }
        }
    }
    if at == ends.edge.next().next() {
        Ok(start)
    } else {
        Err(Stop::Stopped)
    }
}
