// Soundness of a net: triangle by triangle, the least row that is not in order; and the entry check_net.
#![tactic(auto)]

ghost use Rattle.std.specs.Prelude.{◌≡◌, ◌+◌, ◌%◌, ◌<◌, ◌≤◌};
ghost use Rattle.numbers.specs.Next.{most_halfedges};
ghost use Rattle.numbers.specs.Numbers.{halfedge_named};
ghost use Rattle.rows.specs.Halfedges.{lent_halfedges};
ghost use Rattle.net.specs.Net.{net};
ghost use Rattle.soundness.specs.Check.{sound_or, check_net, check_said};
ghost use Rattle.refused.specs.Refused.{plain_said};
ghost use Rattle.rowtests.specs.Order.{least_out};

use net::Counts;
use numbers::Halfedge;
use refused::Refusal;

// The least row that is not in order.
pub fn first_out(rows: &[i32], halfedges: usize, vertices: usize) -> Option<Halfedge>
    requires { (halfedges % 3 ≡ 0) × ((halfedges ≤ lent_halfedges rows.now) × (halfedges ≤ most_halfedges)) }
    ensures { halfedge_named result ≡ least_out halfedges vertices rows.now }
{
    if quickpass::is_sound(rows, halfedges, vertices) {
        return None;
    }
    for k in 0..halfedges / 3 {
        let t = 3 * k;
        let tri = rows::halfedges::from_row(rows, numbers::halfedge_counted(t));
        if let Some(h) = rowtests::check_triangle(tri, rows, t, halfedges, vertices) {
            return Some(h);
        }
    }
    None
}

// Whether every row is in order: else the least that is not.
pub fn check_rows(rows: &[i32], halfedges: usize, vertices: usize) -> Result<(), Refusal>
    requires { (halfedges % 3 ≡ 0) × ((halfedges ≤ lent_halfedges rows.now) × (halfedges ≤ most_halfedges)) }
    ensures { plain_said result ≡ sound_or (least_out halfedges vertices rows.now) }
{
    match first_out(rows, halfedges, vertices) {
        Some(h) => Err(Refusal::Unsound(h)),
        None => Ok(()),
    }
}

// The entry check_net: sound, a shape that does not fit, or the least row that is not in order.
pub fn check_net(
    counts: Counts,
    halfedges: &[i32],
    positions: &[u64],
    normals: &[u64],
    references: &[i32],
    properties: &[u64],
) -> Result<(), Refusal>
    ensures { check_said result ≡ check_net counts (net halfedges.now positions.now normals.now references.now properties.now) }
{
    if !net::shaped(
        counts, halfedges, positions, normals, references, properties,
    ) {
        return Err(Refusal::Shape);
    }
    check_rows(halfedges, counts.halfedges, counts.vertices)
}
