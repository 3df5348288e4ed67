// The owner scan: the entry orbit_owners, for nets that need not be sound. It walks each fan that has an eligible half-edge once, from
// its least one, tests that every pair points back, the pairs on its way as it walks, and lists those least ones.
#![tactic(auto)]

ghost use Rattle.std.specs.Prelude.{◌≡◌, ℕ, ◌<◌, ◌≤◌, eqb, length, get_or};
ghost use Rattle.numbers.specs.Next.{most_halfedges};
ghost use Rattle.net.specs.Net.{net};
ghost use Rattle.ownertests.specs.Tests.{those_below};
ghost use Rattle.ownertests.specs.inner.Needs.{InUse};
ghost use Rattle.owners.specs.Scan.{owners_outcome, listed, scan, orbit_owners, owners_said};

use fanmarks::OWNER;
use net::Counts;
use ownertests::Eligible;
use refused::Refusal;

// Lists the half-edges that are marked as owners, rising. How many they are.
fn list_owners(work: &[u8], list: &mut [u32], halfedges: usize) -> usize
    requires { (halfedges ≤ length work.now) × ((halfedges ≤ length list.old) × (halfedges ≤ most_halfedges)) }
    ensures { (list.new ≡ listed (those_below (λ (g : ℕ). eqb (get_or work.now g 0) 2) halfedges) list.old)
        × (result ≡ length (those_below (λ (g : ℕ). eqb (get_or work.now g 0) 2) halfedges)) }
{
    let mut count = 0;
    for i in 0..halfedges {
        if work[i] == OWNER {
            list[count] = i as u32;
            count += 1;
        }
    }
    count
}

// The scan past the checks.
fn find_owners(
    rows: &[i32],
    work: &mut [u8],
    list: &mut [u32],
    halfedges: usize,
    eligible: Eligible,
) -> Result<usize, Refusal>
    requires { InUse halfedges rows.now × ((halfedges ≤ length work.old) × (halfedges ≤ length list.old)) }
    ensures { owners_outcome (owners_said result) work.new list.new ≡ scan eligible halfedges rows.now work.old list.old }
{
    stretches::fill(work, 0, 0, halfedges);
    if !fanmarks::has_owners(rows, work, halfedges, eligible) {
        stretches::fill(work, 0, 0, halfedges);
        return Err(Refusal::NoOwners);
    }
    let count = list_owners(work, list, halfedges);
    stretches::fill(work, 0, 0, halfedges);
    Ok(count)
}

// The entry orbit_owners: how many are listed.
pub fn orbit_owners(
    counts: Counts,
    halfedges: &[i32],
    positions: &[u64],
    normals: &[u64],
    references: &[i32],
    properties: &[u64],
    work: &mut [u8],
    list: &mut [u32],
    eligible: Eligible,
) -> Result<usize, Refusal>
    ensures { owners_outcome (owners_said result) work.new list.new ≡ orbit_owners eligible counts (net halfedges.now positions.now normals.now references.now properties.now) work.old list.old }
{
    if !net::shaped(
        counts, halfedges, positions, normals, references, properties,
    ) {
        return Err(Refusal::Shape);
    }
    if !(net::long_enough(work.len(), counts.halfedges)
        & net::long_enough(list.len(), counts.halfedges))
    {
        return Err(Refusal::ShortBuffer);
    }
    find_owners(halfedges, work, list, counts.halfedges, eligible)
}
