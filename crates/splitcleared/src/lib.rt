// Splitting pinched vertices past the checks, over a cleared work buffer. The half-edges are put into the order of their visits, each fan
// walked once. That writes only the work buffer, and finds whether every fan closes and how many vertices will be copied; so what goes by
// the order afterwards, and writes the net, cannot fail.
#![tactic(auto)]

ghost use Rattle.std.specs.Prelude.{◌≡◌, ◌+◌, ◌≤◌, length, drop};
ghost use Rattle.laws.specs.Stretches.{cleared};
ghost use Rattle.net.specs.Counts.{vertex_capacity_over};
ghost use Rattle.splitting.specs.inner.Needs.{SoundRows};
ghost use Rattle.splitting.specs.Split.{split_outcome, split_sound};
ghost use Rattle.splitcleared.specs.Answer.{split_said};

use refused::Refusal;
use splitting::Visited;

// Over a cleared work buffer: the fans are put into the order, and where the copies find room all is written, the list alone where there
// are none; else the free vertex rows are zeroed. That a fan does not close cannot come here: every fan of a sound net closes.
pub fn split_cleared(
    rows: &mut [i32],
    positions: &mut [u64],
    work: &mut [u32],
    visit: &mut [u32],
    halfedges: usize,
    vertices: usize,
) -> Result<Visited, Refusal>
    requires sound { SoundRows halfedges vertices rows.old }
    requires work_long { halfedges + vertices ≤ length work.old }
    requires visit_long { halfedges ≤ length visit.old }
    requires vertices_fit { vertices ≤ vertex_capacity_over positions.old }
    requires clear { cleared (halfedges + vertices) work.old ≡ work.old }
    ensures outcome { split_outcome (split_said result) rows.new positions.new work.old visit.new
        ≡ split_sound halfedges vertices rows.old positions.old work.old visit.old }
    ensures behind { drop (halfedges + vertices) work.new ≡ drop (halfedges + vertices) work.old }
{
    let counted = orderpass::order_rows(rows, work, halfedges, vertices).ok_or(Refusal::OpenFan)?;
    let capacity = net::vertex_capacity(positions);
    if counted.added > capacity - vertices {
        rows::triples::zero(positions, vertices, capacity);
        return Err(Refusal::NoRoom);
    }
    let nothing_copied = counted.added == 0;
    if nothing_copied {
        writepass::list_order(work, visit, counted.steps);
        return Ok(counted);
    }
    let steps = counted.steps;
    let added = writepass::write_order(rows, positions, work, visit, halfedges, vertices, steps);
    Ok(Visited { added, steps })
}
