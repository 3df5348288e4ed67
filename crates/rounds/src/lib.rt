// Deduping all edges: the rounds of dedupe_edges. A round lists the duplicates of every fan and then
// dedupes those that still are.
#![tactic(auto)]

ghost use Rattle.std.specs.Prelude.{◌≡◌, ℕ, ◌<◌, ◌≤◌, length, get_or, take, drop};
ghost use Rattle.numbers.specs.Numbers.{halfedge_number};
ghost use Rattle.growth.specs.Growth.{so_far, grown_after, beginning, Fitting, More};
ghost use Rattle.rounds.specs.Rounds.{fix, each, made_as, round, ended_as, rounds};

use growth::{Extent, Limits};
use numbers::Halfedge;
use steps::Stop;

// One entry of the list: deduped, where it is still duplicated.
fn fix(
    rows: &mut [i32],
    positions: &mut [u64],
    normals: &mut [u64],
    references: &mut [i32],
    used: &mut Extent,
    limits: Limits,
    e: Halfedge,
) -> Result<(), Stop>
    requires { (halfedge_number e < used.old.halfedges) × Fitting limits (beginning rows.old positions.old normals.old references.old used.old) }
    ensures step { so_far rows.new positions.new normals.new references.new (grown_after used.new result) ≡ fix limits (halfedge_number e) (beginning rows.old positions.old normals.old references.old used.old) }
    ensures within { More used.old used.new × Fitting limits (beginning rows.new positions.new normals.new references.new used.new) }
{
    if !searches::still_duplicated(rows, used.halfedges, e) {
        return Ok(());
    }
    dedupe::dedupe_step(rows, positions, normals, references, used, limits, e)
}

// The entries of the list, in its order.
fn each(
    rows: &mut [i32],
    positions: &mut [u64],
    normals: &mut [u64],
    references: &mut [i32],
    list: &[u32],
    used: &mut Extent,
    limits: Limits,
    count: usize,
) -> Result<(), Stop>
    requires { (count ≤ length list.now) × (((k : ℕ) → k < count → get_or list.now k 0 < used.old.halfedges) × Fitting limits (beginning rows.old positions.old normals.old references.old used.old)) }
    ensures step { so_far rows.new positions.new normals.new references.new (grown_after used.new result) ≡ each limits (take count list.now) (beginning rows.old positions.old normals.old references.old used.old) }
    ensures within { More used.old used.new × Fitting limits (beginning rows.new positions.new normals.new references.new used.new) }
{
    for d in &list[..count] {
        let e = numbers::halfedge_counted(*d as usize);
        fix(rows, positions, normals, references, used, limits, e)?;
    }
    Ok(())
}

// One round: whether it found no duplicate, and so ends the rounds.
fn round(
    rows: &mut [i32],
    positions: &mut [u64],
    normals: &mut [u64],
    references: &mut [i32],
    work: &mut [u32],
    list: &mut [u32],
    used: &mut Extent,
    limits: Limits,
) -> Result<bool, Stop>
    requires { ((limits.halfedges ≤ length work.old) × (limits.halfedges ≤ length list.old)) × Fitting limits (beginning rows.old positions.old normals.old references.old used.old) }
    ensures step { made_as rows.new positions.new normals.new references.new used.new result ≡ round limits (beginning rows.old positions.old normals.old references.old used.old) }
    ensures within { More used.old used.new × Fitting limits (beginning rows.new positions.new normals.new references.new used.new) }
    ensures beyond { (drop limits.halfedges work.new ≡ drop limits.halfedges work.old) × (drop limits.halfedges list.new ≡ drop limits.halfedges list.old) }
{
    let count = tables::list_duplicates(
        rows,
        work,
        list,
        used.halfedges,
        used.vertices,
        limits.halfedges,
    );
    if count == 0 {
        return Ok(true);
    }
    each(
        rows, positions, normals, references, list, used, limits, count,
    )?;
    Ok(false)
}

// The rounds: at most as many as there are half-edges at entry. Whether the net is clean: the last round found no duplicate, or there is
// no half-edge. Of the work buffer and the list no more than the half-edge capacity is written.
pub fn rounds(
    rows: &mut [i32],
    positions: &mut [u64],
    normals: &mut [u64],
    references: &mut [i32],
    work: &mut [u32],
    list: &mut [u32],
    used: &mut Extent,
    limits: Limits,
) -> Result<bool, Stop>
    requires { ((limits.halfedges ≤ length work.old) × (limits.halfedges ≤ length list.old)) × Fitting limits (beginning rows.old positions.old normals.old references.old used.old) }
    ensures step { ended_as rows.new positions.new normals.new references.new used.new result ≡ rounds limits used.old.halfedges (beginning rows.old positions.old normals.old references.old used.old) }
    ensures within { More used.old used.new × Fitting limits (beginning rows.new positions.new normals.new references.new used.new) }
    ensures beyond { (drop limits.halfedges work.new ≡ drop limits.halfedges work.old) × (drop limits.halfedges list.new ≡ drop limits.halfedges list.old) }
{
    for _ in 0..used.halfedges {
        if round(
            rows, positions, normals, references, work, list, used, limits,
        )? {
            return Ok(true);
        }
    }
    Ok(used.halfedges == 0)
}
