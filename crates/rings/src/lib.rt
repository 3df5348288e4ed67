// The ring of a vertex that a collapse keeps: its neighbours are listed, and the list is searched. Nothing here asks for rows in order.
#![tactic(auto)]

ghost use Rattle.std.specs.Prelude.{◌≡◌, ◌<◌, ◌≤◌, length, get_or, drop};
ghost use Rattle.numbers.specs.Numbers.{halfedge_number};
ghost use Rattle.numbers.specs.Next.{most_halfedges};
ghost use Rattle.rows.specs.Halfedges.{end_of};
ghost use Rattle.steps.specs.Steps.{InUse};
ghost use Rattle.rings.specs.Ring.{listing, AllIn, ListedIn, ring, hit, find};

use numbers::Halfedge;

// Lists the neighbours of the vertex where `from` ends: from each half-edge its next, then on to the partner, until `to`. How many were
// listed, or None where the walk never ends.
pub fn list_ring(
    rows: &[i32],
    list: &mut [u32],
    halfedges: usize,
    from: Halfedge,
    to: Halfedge,
) -> Option<usize>
    requires { (halfedge_number from < halfedges) × (InUse halfedges rows.now × (halfedges ≤ length list.old)) }
    ensures { (listing result list.new ≡ ring halfedges (halfedge_number to) rows.now halfedges (halfedge_number from)) × (ListedIn halfedges result list.new × (drop halfedges list.new ≡ drop halfedges list.old)) }
{
    let mut at = from;
    for n in 0..halfedges {
        if at == to {
            return Some(n);
        }
        let h = at.next();
        list[n] = h.number() as u32;
        let Some(p) = rows::halfedges::pair_of(rows, h, halfedges) else {
            return Some(n + 1);
        };
        at = p;
    }
    if at == to { Some(halfedges) } else { None }
}

// The half-edge at place k of the list.
pub fn entry(list: &[u32], k: usize) -> Halfedge
    requires { (k < length list.now) × (get_or list.now k 0 < most_halfedges) }
    ensures { halfedge_number result ≡ get_or list.now k 0 }
{
    numbers::halfedge_counted(list[k] as usize)
}

// The place of the first entry of the list that ends where h does.
pub fn find(rows: &[i32], list: &[u32], halfedges: usize, h: Halfedge) -> Option<usize>
    requires { (halfedge_number h < halfedges) × (InUse halfedges rows.now × AllIn halfedges list.now) }
    ensures { hit result ≡ find rows.now (end_of rows.now (halfedge_number h)) list.now 0 (length list.now) }
{
    list.iter().position(|&g| {
        let listed = numbers::halfedge_counted(g as usize);
        edgetests::same_end(rows, h, listed)
    })
}
