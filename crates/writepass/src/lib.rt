// The second pass of splitting pinched vertices, over a net that is sound: it goes by the order of the visits and writes the net and the list
// of the visits, or the list alone.
#![tactic(auto)]

ghost use Rattle.std.specs.Prelude.{◌≡◌, ◌+◌, ◌<◌, ◌≤◌, length};
ghost use Rattle.ordering.specs.inner.Order.{written, write_entry, write_order, list_order};
ghost use Rattle.ordering.specs.inner.Needs.{EntryNeeds, OrderNeeds};

use workentries::COPY;

// Place k of the order, where x stands: its half-edge is listed; with the last of a fan that gets a copy, that fan is split. How many
// vertices are added then.
fn write_entry(
    rows: &mut [i32],
    positions: &mut [u64],
    visit: &mut [u32],
    halfedges: usize,
    vertices: usize,
    k: usize,
    x: usize,
    added: usize,
) -> usize
    requires { EntryNeeds halfedges vertices rows.old positions.old visit.old k x added }
    ensures { written rows.new positions.new visit.new result ≡ write_entry halfedges vertices k x (written rows.old positions.old visit.old added) }
{
    let c = x % COPY;
    visit[k] = c as u32;
    if x < COPY {
        return added;
    }
    let i = numbers::halfedge_counted(c);
    let Some(v) = rows::halfedges::start_of(rows, i, vertices) else {
        return added;
    };
    fanwalks::copy_fan(rows, positions, halfedges, vertices + added, i, v);
    added + 1
}

// The whole order, where its copies find room. How many vertices are added.
pub fn write_order(
    rows: &mut [i32],
    positions: &mut [u64],
    work: &[u32],
    visit: &mut [u32],
    halfedges: usize,
    vertices: usize,
    steps: usize,
) -> usize
    requires { OrderNeeds halfedges vertices rows.old positions.old work.now visit.old steps }
    ensures { written rows.new positions.new visit.new result ≡ write_order halfedges vertices work.now steps (written rows.old positions.old visit.old 0) }
{
    let mut added = 0;
    for k in 0..steps {
        let x = workentries::entry_at(work, k);
        added = write_entry(rows, positions, visit, halfedges, vertices, k, x, added);
    }
    added
}

// The order listed by itself: what is written where nothing is copied.
pub fn list_order(work: &[u32], visit: &mut [u32], steps: usize)
    requires read { steps ≤ length work.now }
    requires room { steps ≤ length visit.old }
    ensures { visit.new ≡ list_order work.now steps visit.old }
{
    for k in 0..steps {
        visit[k] = (workentries::entry_at(work, k) % COPY) as u32;
    }
}
