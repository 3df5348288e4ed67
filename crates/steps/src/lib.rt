// Steps of an operation that may be refused in the middle: a step says by its `Result` whether it went, and `?` hands a stop on. What the
// steps before it wrote stays until the end, where one function puts back what a refusal must put back.
#![tactic(auto)]

ghost use Rattle.std.specs.Prelude.{◌≡◌, ◌<◌, ◌≤◌, IfOk, IfErr};
ghost use Rattle.numbers.specs.Numbers.{at, nothing, names, halfedge_number, vertex_number};
ghost use Rattle.rows.specs.Halfedges.{start_of, end_of, pair_of, lent_halfedges};
ghost use Rattle.rows.specs.Triples.{lent_triples};
ghost use Rattle.steps.specs.Steps.{middle, run_after, refusal_of};
ghost use Rattle.steps.specs.Settle.{settled_by};

use numbers::{Halfedge, Vertex};
use refused::Refusal;

// Why the steps stop: the next append would pass a capacity; a row isn't there, or a walk never ends.
#[derive(Clone, Copy)]
pub enum Stop {
    NoRoom,
    Stopped,
}

impl From<Stop> for Refusal {
    ghost from_gives = { λ stop refusal. refusal ≡ refusal_of stop };

    fn from(stop: Stop) -> Refusal {
        match stop {
            Stop::NoRoom => Refusal::NoRoom,
            Stop::Stopped => Refusal::Stopped,
        }
    }
}

// The partner of h: the steps stop where it isn't there.
pub fn pair_of(rows: &[i32], h: Halfedge, halfedges: usize) -> Result<Halfedge, Stop>
    requires { halfedge_number h < lent_halfedges rows.now }
    ensures there { IfOk result (λ p. (names (pair_of rows.now (halfedge_number h)) halfedges ≡ at (halfedge_number p)) × (halfedge_number p < halfedges)) }
    ensures missing { IfErr result (λ stop. (names (pair_of rows.now (halfedge_number h)) halfedges ≡ nothing) × (stop ≡ Stop.Stopped)) }
{
    rows::halfedges::pair_of(rows, h, halfedges).ok_or(Stop::Stopped)
}

// The vertex where h starts: the steps stop where it isn't there.
pub fn start_of(rows: &[i32], h: Halfedge, vertices: usize) -> Result<Vertex, Stop>
    requires { halfedge_number h < lent_halfedges rows.now }
    ensures there { IfOk result (λ v. (names (start_of rows.now (halfedge_number h)) vertices ≡ at (vertex_number v)) × (vertex_number v < vertices)) }
    ensures missing { IfErr result (λ stop. (names (start_of rows.now (halfedge_number h)) vertices ≡ nothing) × (stop ≡ Stop.Stopped)) }
{
    rows::halfedges::start_of(rows, h, vertices).ok_or(Stop::Stopped)
}

// The vertex where h ends: the steps stop where it isn't there.
pub fn end_of(rows: &[i32], h: Halfedge, vertices: usize) -> Result<Vertex, Stop>
    requires { halfedge_number h < lent_halfedges rows.now }
    ensures there { IfOk result (λ v. (names (end_of rows.now (halfedge_number h)) vertices ≡ at (vertex_number v)) × (vertex_number v < vertices)) }
    ensures missing { IfErr result (λ stop. (names (end_of rows.now (halfedge_number h)) vertices ≡ nothing) × (stop ≡ Stop.Stopped)) }
{
    rows::halfedges::end_of(rows, h, vertices).ok_or(Stop::Stopped)
}

// Ends an operation: where the steps stopped, the rows in use come back from the spare and the free rows that were filled read zero.
pub fn settle(
    rows: &mut [i32],
    positions: &mut [u64],
    spare_halfedges: &[i32],
    spare_positions: &[u64],
    halfedges: usize,
    vertices: usize,
    filled: usize,
    went: Result<(), Stop>,
)
    requires rows_lent { (halfedges ≤ lent_halfedges rows.old) × (halfedges ≤ lent_halfedges spare_halfedges.now) }
    requires positions_lent { (vertices ≤ lent_triples spare_positions.now) × ((vertices ≤ filled) × (filled ≤ lent_triples positions.old)) }
    ensures { middle rows.new positions.new (run_after filled went) ≡ settled_by halfedges vertices spare_halfedges.now spare_positions.now (middle rows.old positions.old (run_after filled went)) }
{
    if went.is_ok() {
        return;
    }
    rows::halfedges::copy(spare_halfedges, rows, halfedges);
    rows::triples::zero(positions, vertices, filled);
    rows::triples::copy(spare_positions, positions, vertices);
}
