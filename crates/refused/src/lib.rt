// Why an entry refuses: one enum for all entries, so that a check's refusal is handed on by `?`. Each contract says which of them its entry
// gives, and when.
#![tactic(auto)]

ghost use Rattle.std.specs.Prelude.{◌≡◌, ◌<◌, IfOk, IfErr};
ghost use Rattle.numbers.specs.Numbers.{at, nothing, names, halfedge_number, vertex_number};
ghost use Rattle.refused.specs.Refused.{refused, row_of};

use numbers::{Halfedge, Vertex};

#[derive(Clone, Copy)]
pub enum Refusal {
    // The counts do not fit the arrays or the bounds.
    Shape,
    ShortBuffer,
    // The least row that is not in order.
    Unsound(Halfedge),
    Number,
    Dead,
    NoRoom,
    // A row isn't there, or a walk never ends.
    Stopped,
    // The squared length and the limit.
    Long(f64, f64),
    OpenFan,
    NoOwners,
}

impl Refusal {
    // The number that the refusal has for a caller in C.
    pub fn number(self) -> u32
        ensures { result ≡ (refused self).number }
    {
        match self {
            Refusal::Shape => 1,
            Refusal::ShortBuffer => 2,
            Refusal::Unsound(_) => 3,
            Refusal::Number => 4,
            Refusal::Dead => 5,
            Refusal::NoRoom => 6,
            Refusal::Stopped => 7,
            Refusal::Long(_, _) => 8,
            Refusal::OpenFan => 9,
            Refusal::NoOwners => 10,
        }
    }

    // The row that comes with it; 0 where none comes.
    pub fn row(self) -> usize
        ensures { result ≡ row_of (refused self) }
    {
        match self {
            Refusal::Unsound(h) => h.number(),
            _ => 0,
        }
    }
}

// A caller's number as a half-edge, tested.
pub fn halfedge_given(x: i32, halfedges: usize) -> Result<Halfedge, Refusal>
    ensures taken { IfOk result (λ h. (names x halfedges ≡ at (halfedge_number h)) × (halfedge_number h < halfedges)) }
    ensures refused { IfErr result (λ r. (names x halfedges ≡ nothing) × (r ≡ Refusal.Number)) }
{
    numbers::halfedge_read(x, halfedges).ok_or(Refusal::Number)
}

// A caller's number as a vertex, tested.
pub fn vertex_given(x: i32, vertices: usize) -> Result<Vertex, Refusal>
    ensures taken { IfOk result (λ v. (names x vertices ≡ at (vertex_number v)) × (vertex_number v < vertices)) }
    ensures refused { IfErr result (λ r. (names x vertices ≡ nothing) × (r ≡ Refusal.Number)) }
{
    numbers::vertex_read(x, vertices).ok_or(Refusal::Number)
}
