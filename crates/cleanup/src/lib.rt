// Cleaning a net up: the entry cleanup_topology. Past the checks pinched vertices are split, then duplicate edges deduped in rounds; one
// spare, taken before the split, lets put everything back.
#![tactic(auto)]

ghost use Rattle.std.specs.Prelude.{◌≡◌, ◌+◌, ◌≤◌, length, drop};
ghost use Rattle.net.specs.Net.{net};
ghost use Rattle.net.specs.Counts.{most_vertices, vertex_capacity_over};
ghost use Rattle.splitting.specs.inner.Needs.{SoundRows};
ghost use Rattle.splitting.specs.Split.{split_sound};
ghost use Rattle.splitcleared.specs.Answer.{split_said};
ghost use Rattle.steps.specs.Steps.{run_after};
ghost use Rattle.growth.specs.Growth.{so_far, grown_after, beginning, Fitting, More};
ghost use Rattle.settling.specs.Settling.{begun};
ghost use Rattle.rounds.specs.Rounds.{rounds};
ghost use Rattle.dedupeedges.specs.DedupeEdges.{left, Enough};
ghost use Rattle.cleanup.specs.Cleanup.{cleanup_said, split_run, after_split, clean_at, cleanup_topology};

use growth::{Extent, Limits};
use net::Counts;
use refused::Refusal;
use splitting::Visited;
use steps::Stop;

// How splitting went: so many vertices more are in use, or there was no room for a copy, and the free rows up to the capacity had been
// filled.
fn after_split(
    said: Result<Visited, Refusal>,
    vertices: &mut usize,
    capacity: usize,
) -> Result<(), Stop>
    requires { (split_run vertices.old capacity (split_said said)).vertices ≤ most_vertices }
    ensures { run_after vertices.new result ≡ split_run vertices.old capacity (split_said said) }
{
    match said {
        Ok(split) => {
            *vertices += split.added;
            Ok(())
        }
        Err(_) => {
            *vertices = capacity;
            Err(Stop::NoRoom)
        }
    }
}

// Splitting, then the rounds.
fn clean_step(
    rows: &mut [i32],
    positions: &mut [u64],
    normals: &mut [u64],
    references: &mut [i32],
    work: &mut [u32],
    list: &mut [u32],
    used: &mut Extent,
    limits: Limits,
) -> Result<(), Stop>
    requires sound { SoundRows used.old.halfedges used.old.vertices rows.old × (limits.vertices ≡ vertex_capacity_over positions.old) }
    requires fitting { Fitting limits (beginning rows.old positions.old normals.old references.old used.old) }
    requires long { (limits.halfedges + used.old.vertices ≤ length work.old) × (limits.halfedges ≤ length list.old) }
    ensures step { so_far rows.new positions.new normals.new references.new (grown_after used.new result) ≡ (rounds limits used.old.halfedges (after_split limits used.old.halfedges used.old.vertices normals.old references.old (split_sound used.old.halfedges used.old.vertices rows.old positions.old work.old list.old))).growing }
    ensures within { More used.old used.new × Fitting limits (beginning rows.new positions.new normals.new references.new used.new) }
    ensures beyond { (drop (limits.halfedges + used.old.vertices) work.new ≡ drop (limits.halfedges + used.old.vertices) work.old) × (drop limits.halfedges list.new ≡ drop limits.halfedges list.old) }
{
    let said = split::split_sound(rows, positions, work, list, used.halfedges, used.vertices);
    after_split(said, &mut used.vertices, limits.vertices)?;
    rounds::rounds(
        rows, positions, normals, references, work, list, used, limits,
    )?;
    Ok(())
}

// cleanup_topology past the checks: the rows in use go to the spare, splitting and the rounds work in place, and a refusal puts
// everything back.
fn clean_at(
    rows: &mut [i32],
    positions: &mut [u64],
    normals: &mut [u64],
    references: &mut [i32],
    spare_halfedges: &mut [i32],
    spare_positions: &mut [u64],
    work: &mut [u32],
    list: &mut [u32],
    limits: Limits,
    halfedges: usize,
    vertices: usize,
) -> Result<Extent, Refusal>
    requires { (SoundRows halfedges vertices rows.old × (limits.vertices ≡ vertex_capacity_over positions.old)) × (Fitting limits (begun halfedges vertices rows.old positions.old normals.old references.old) × Enough limits halfedges vertices (limits.halfedges + vertices) spare_halfedges.old spare_positions.old work.old list.old) }
    ensures { left (cleanup_said result) rows.new positions.new normals.new references.new spare_halfedges.new spare_positions.new work.new list.new ≡ clean_at limits halfedges vertices rows.old positions.old normals.old references.old spare_halfedges.old spare_positions.old work.old list.old }
{
    rows::halfedges::copy(rows, spare_halfedges, halfedges);
    rows::triples::copy(positions, spare_positions, vertices);
    let mut used = Extent {
        halfedges,
        vertices,
    };
    let went = clean_step(
        rows, positions, normals, references, work, list, &mut used, limits,
    );
    stretches::fill(work, 0, 0, limits.halfedges + vertices);
    stretches::fill(list, 0, 0, limits.halfedges);
    settling::settle_grown(
        rows,
        positions,
        normals,
        references,
        spare_halfedges,
        spare_positions,
        halfedges,
        vertices,
        limits,
        used,
        went,
    );
    settling::answer(used, went)
}

// The entry cleanup_topology: on Ok the half-edges and vertices in use afterwards.
#[tactic(auto, using(refused::proofs::Laws::refused_number), unfolding(crate::specs::Cleanup::cleanup_topology))]
pub fn cleanup_topology(
    counts: Counts,
    halfedges: &mut [i32],
    positions: &mut [u64],
    normals: &mut [u64],
    references: &mut [i32],
    properties: &[u64],
    spare_halfedges: &mut [i32],
    spare_positions: &mut [u64],
    work: &mut [u32],
    list: &mut [u32],
) -> Result<Extent, Refusal>
    ensures { left (cleanup_said result) halfedges.new positions.new normals.new references.new spare_halfedges.new spare_positions.new work.new list.new ≡ cleanup_topology counts (net halfedges.old positions.old normals.old references.old properties.now) spare_halfedges.old spare_positions.old work.old list.old }
{
    if !net::shaped(
        counts, halfedges, positions, normals, references, properties,
    ) {
        return Err(Refusal::Shape);
    }
    let limits = settling::limits_of(counts, halfedges, positions, normals, references);
    let capacity = limits.halfedges;
    if !dedupeedges::enough(
        counts,
        spare_halfedges,
        spare_positions,
        work,
        list,
        capacity,
        capacity + counts.vertices,
    ) {
        return Err(Refusal::ShortBuffer);
    }
    soundness::check_rows(halfedges, counts.halfedges, counts.vertices)?;
    clean_at(
        halfedges,
        positions,
        normals,
        references,
        spare_halfedges,
        spare_positions,
        work,
        list,
        limits,
        counts.halfedges,
        counts.vertices,
    )
}
