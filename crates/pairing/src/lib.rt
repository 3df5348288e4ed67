// Pairing two half-edges: the step that surgery takes, and the entry pair_up.
#![tactic(auto)]

ghost use Rattle.std.specs.Prelude.{◌≡◌, ◌<◌, ◌≤◌};
ghost use Rattle.numbers.specs.Next.{most_halfedges};
ghost use Rattle.numbers.specs.Numbers.{halfedge_number, names};
ghost use Rattle.rows.specs.Halfedges.{lent_halfedges};
ghost use Rattle.net.specs.Net.{net};
ghost use Rattle.pairing.specs.Pairing.{paired, pair_named, pair_up, pair_said};

use net::Counts;
use numbers::Halfedge;
use refused::Refusal;

// Each of two half-edges becomes the other's partner.
pub fn pair_rows(rows: &mut [i32], a: Halfedge, b: Halfedge)
    requires { ((halfedge_number a < lent_halfedges rows.old) × (halfedge_number b < lent_halfedges rows.old)) × ((halfedge_number a < most_halfedges) × (halfedge_number b < most_halfedges)) }
    ensures { rows.new ≡ paired (halfedge_number a) (halfedge_number b) rows.old }
{
    rows::halfedges::set_pair(rows, a, b);
    rows::halfedges::set_pair(rows, b, a);
}

// Pairs the half-edges that two of a caller's numbers name.
fn pair_given(rows: &mut [i32], halfedges: usize, first: i32, second: i32) -> Result<(), Refusal>
    requires { (halfedges ≤ lent_halfedges rows.old) × (halfedges ≤ most_halfedges) }
    ensures { (pair_said result, rows.new) ≡ pair_named rows.old (names first halfedges) (names second halfedges) }
{
    let a = refused::halfedge_given(first, halfedges)?;
    let b = refused::halfedge_given(second, halfedges)?;
    pair_rows(rows, a, b);
    Ok(())
}

// The entry pair_up.
pub fn pair_up(
    counts: Counts,
    halfedges: &mut [i32],
    positions: &[u64],
    normals: &[u64],
    references: &[i32],
    properties: &[u64],
    first: i32,
    second: i32,
) -> Result<(), Refusal>
    ensures { (pair_said result, halfedges.new) ≡ pair_up counts (net halfedges.old positions.now normals.now references.now properties.now) first second }
{
    if !net::shaped(
        counts, halfedges, positions, normals, references, properties,
    ) {
        return Err(Refusal::Shape);
    }
    pair_given(halfedges, counts.halfedges, first, second)
}
