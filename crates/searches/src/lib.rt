// Searches about a vertex, over rows that need not be in order. A search stands at half-edges that end there, goes from each to the
// partner of its next, and stops the moment it meets one that starts at the vertex sought, or comes back round.
#![tactic(auto)]

ghost use Rattle.std.specs.Prelude.{◌≡◌, suc, ◌<◌, ◌^◌};
ghost use Rattle.numbers.specs.Numbers.{halfedge_number, vertex_number};
ghost use Rattle.steps.specs.Steps.{InUse};
ghost use Rattle.searches.specs.Seek.{place_of, seek};
ghost use Rattle.searches.specs.Duplicates.{again, still};

use numbers::{Halfedge, Vertex};

// Where a search stops: at a half-edge that starts at the vertex sought; back round; or it cannot go on, since a row isn't there or the
// walk never ends.
#[derive(Clone, Copy)]
pub enum Sought {
    Met(Halfedge),
    Round(Halfedge),
    Missing,
}

// Searches from `first` for a half-edge that starts at v, until it comes back to `home`.
pub fn seek(rows: &[i32], halfedges: usize, v: Vertex, first: Halfedge, home: Halfedge) -> Sought
    requires { (halfedge_number first < halfedges) × ((vertex_number v < 2 ^ 31) × InUse halfedges rows.now) }
    ensures { place_of result ≡ seek halfedges (vertex_number v) (halfedge_number home) rows.now halfedges (halfedge_number first) }
{
    let mut at = first;
    let mut left = halfedges;
    let place = 'fan: loop {
        if at == home {
            break 'fan Sought::Round(at);
        }
        if rows::corners::starts_at(rows, at, v) {
            break 'fan Sought::Met(at);
        }
        if left == 0 {
            break 'fan Sought::Missing;
        }
        match rows::halfedges::pair_of(rows, at.next(), halfedges) {
            Some(p) => {
                at = p;
                left -= 1;
            }
            None => {
                break 'fan Sought::Missing;
            }
        }
    };
    place
}

// Turns from e on: whether another of its fan ends where e does. At most one turn more than there are half-edges.
fn meets_again(rows: &[i32], halfedges: usize, e: Halfedge) -> bool
    requires { (halfedge_number e < halfedges) × InUse halfedges rows.now }
    ensures { result ≡ again halfedges rows.now (halfedge_number e) (suc halfedges) (halfedge_number e) }
{
    let mut at = e;
    let mut left = halfedges + 1;
    let met = 'fan: loop {
        if left == 0 {
            break 'fan false;
        }
        let Some(p) = rows::halfedges::pair_of(rows, at, halfedges) else {
            break 'fan false;
        };
        at = p.next();
        if at == e {
            break 'fan false;
        }
        if edgetests::same_end(rows, at, e) {
            break 'fan true;
        }
        left -= 1;
    };
    met
}

// Whether another half-edge of the fan of e still ends where e does.
pub fn still_duplicated(rows: &[i32], halfedges: usize, e: Halfedge) -> bool
    requires { (halfedge_number e < halfedges) × InUse halfedges rows.now }
    ensures { result ≡ still halfedges rows.now (halfedge_number e) }
{
    edgetests::is_started(rows, e) & edgetests::is_ended(rows, e) & meets_again(rows, halfedges, e)
}
