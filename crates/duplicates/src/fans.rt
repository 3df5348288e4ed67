// The fan of a half-edge as it is walked: itself, then at most as many turns as there are half-edges, until it is met again or no partner
// leads on.
ghost use Rattle.std.specs.Prelude.{◌≡◌, ◌<◌};
ghost use Rattle.std.specs.Iterator.{YieldsFirstBy, item_count};
ghost use Rattle.numbers.specs.Numbers.{halfedge_number, halfedge_named};
ghost use Rattle.steps.specs.Steps.{InUse};
ghost use Rattle.searches.specs.Duplicates.{fan};
ghost use Rattle.duplicates.specs.Scan.{turn_on};
ghost use Rattle.duplicates.specs.Fans.{rest, Walks};

use numbers::Halfedge;

// A walk from `home` that is at a half-edge, if it is not over, with so many turns left.
#[derive(Drop)]
pub struct Fan<'a> {
    rows: &'a [i32],
    halfedges: usize,
    home: Halfedge,
    left: usize,
    at: Option<Halfedge>,
}

impl<'a> Fan<'a> {
    // The fan of i.
    pub fn of(rows: &'a [i32], halfedges: usize, i: Halfedge) -> Fan<'a>
        requires { (halfedge_number i < halfedges) × InUse halfedges rows.now }
        ensures { (rest result ≡ fan halfedges rows.now (halfedge_number i)) × Walks result }
    {
        Fan {
            rows,
            halfedges,
            home: i,
            left: halfedges,
            at: Some(i),
        }
    }
}

// Where the walk from `home` goes on from c, with so many turns left.
pub fn turn_on(
    rows: &[i32],
    halfedges: usize,
    home: Halfedge,
    left: usize,
    c: Halfedge,
) -> Option<Halfedge>
    requires { (halfedge_number c < halfedges) × InUse halfedges rows.now }
    ensures { halfedge_named result ≡ turn_on halfedges rows.now (halfedge_number home) left (halfedge_number c) }
{
    if left == 0 {
        return None;
    }
    let p = rows::halfedges::pair_of(rows, c, halfedges)?;
    let q = p.next();
    if q == home {
        return None;
    }
    Some(q)
}

impl<'a> Iterator for Fan<'a> {
    type Item = Halfedge;

    ghost can_next = { Walks };

    ghost next_gives = { YieldsFirstBy halfedge_number rest };

    ghost remaining = { item_count rest };

    fn next(&mut self) -> Option<Halfedge> {
        let c = self.at?;
        self.at = turn_on(self.rows, self.halfedges, self.home, self.left, c);
        self.left = self.left.saturating_sub(1);
        Some(c)
    }
}
