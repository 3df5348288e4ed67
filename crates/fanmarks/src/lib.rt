// The owner scan's marks: each fan that has an eligible half-edge is walked once, from its least one, which is marked as its owner, and the
// others of the fan as met. The pairs on the way are tested as it is walked, and those that no walk has met behind it.
#![tactic(auto)]

ghost use Rattle.std.specs.Prelude.{◌≡◌, true, ℕ, ◌<◌, ◌≤◌, length, get_or};
ghost use Rattle.numbers.specs.Numbers.{halfedge_number};
ghost use Rattle.rows.specs.Halfedges.{lent_halfedges};
ghost use Rattle.ownertests.specs.Tests.{all_below, met_or_back};
ghost use Rattle.ownertests.specs.inner.Needs.{InUse, Back};
ghost use Rattle.fanmarks.specs.inner.Marks.{Left, FanMarked, Stepped, Scanned, Owned};

use numbers::Halfedge;
use ownertests::Eligible;

const MET: u8 = 1;

pub const OWNER: u8 = 2;

// Walks the fan of i: marks i as its owner and the others as met. Whether it closes, over pairs that point back.
fn mark_fan(rows: &[i32], work: &mut [u8], halfedges: usize, i: Halfedge) -> bool
    requires { InUse halfedges rows.now × ((halfedge_number i < halfedges) × (halfedges ≤ length work.old)) }
    ensures { Left halfedges rows.now work.old work.new result
        × (Back halfedges rows.now → FanMarked halfedges rows.now (halfedge_number i) work.old work.new result) }
{
    let mut c = i;
    for _ in 0..halfedges {
        let Some(turn) = ownertests::turned(rows, c, halfedges) else {
            return false;
        };
        c = turn;
        let here = c.number();
        if c == i {
            work[here] = OWNER;
            return true;
        }
        work[here] = MET;
    }
    false
}

// Walks the fan of h if h is eligible and no walk has met it. Whether that goes well.
fn mark_from(
    rows: &[i32],
    work: &mut [u8],
    halfedges: usize,
    h: Halfedge,
    eligible: Eligible,
) -> bool
    requires { InUse halfedges rows.now × ((halfedge_number h < halfedges) × (halfedges ≤ length work.old)) }
    ensures { Left halfedges rows.now work.old work.new result
        × (Back halfedges rows.now → Stepped eligible halfedges rows.now (halfedge_number h) work.old work.new result) }
{
    let i = h.number();
    if work[i] != 0 {
        return true;
    }
    if !ownertests::is_eligible(rows, h, eligible) {
        return true;
    }
    mark_fan(rows, work, halfedges, h)
}

// Walks the fan of each eligible half-edge that no walk has met, rising. Whether all of them go well.
fn mark_fans(rows: &[i32], work: &mut [u8], halfedges: usize, eligible: Eligible) -> bool
    requires { InUse halfedges rows.now × ((halfedges ≤ length work.old) × ((g : ℕ) → g < halfedges → get_or work.old g 0 ≡ 0)) }
    ensures { Left halfedges rows.now work.old work.new result
        × (Back halfedges rows.now → Scanned eligible halfedges rows.now work.new result) }
{
    for i in 0..halfedges {
        let h = numbers::halfedge_counted(i);
        if !mark_from(rows, work, halfedges, h, eligible) {
            return false;
        }
    }
    true
}

// A walk has met h, or the pair of h is below 0, or is there and points back.
fn is_met_or_back(rows: &[i32], work: &[u8], h: Halfedge, halfedges: usize) -> bool
    requires { (halfedge_number h < halfedges) × ((halfedges ≤ lent_halfedges rows.now) × (halfedges ≤ length work.now)) }
    ensures { result ≡ met_or_back halfedges rows.now work.now (halfedge_number h) }
{
    let i = h.number();
    if work[i] != 0 {
        return true;
    }
    ownertests::is_paired_back(rows, h, halfedges)
}

// The pairs that no walk has tested are below 0, or are there and point back.
fn others_back(rows: &[i32], work: &[u8], halfedges: usize) -> bool
    requires { (halfedges ≤ lent_halfedges rows.now) × (halfedges ≤ length work.now) }
    ensures { result ≡ all_below (met_or_back halfedges rows.now work.now) halfedges }
{
    for i in 0..halfedges {
        let h = numbers::halfedge_counted(i);
        if !is_met_or_back(rows, work, h, halfedges) {
            return false;
        }
    }
    true
}

// Whether there are owners. If so, they are marked.
pub fn has_owners(rows: &[i32], work: &mut [u8], halfedges: usize, eligible: Eligible) -> bool
    requires { InUse halfedges rows.now × ((halfedges ≤ length work.old) × ((g : ℕ) → g < halfedges → get_or work.old g 0 ≡ 0)) }
    ensures { Owned eligible halfedges rows.now work.old work.new result }
{
    if !mark_fans(rows, work, halfedges, eligible) {
        return false;
    }
    others_back(rows, work, halfedges)
}
