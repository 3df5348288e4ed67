// What crosses the C interface: the counts, the points and the choices that a caller gives, and what next_halfedge, tri_of, short_test and pair_up
// answer, as the struct that the caller is told: the number and each value that came, 0 for one that did not. The others' answers are in rowtold,
// counttold, repairtold and explain.
#![tactic(auto)]

ghost use Rattle.std.specs.Prelude.{◌≡◌};
ghost use Rattle.numbers.specs.Next.{next_said, tri_said};
ghost use Rattle.floats.specs.Short.{length_said};
ghost use Rattle.pairing.specs.Pairing.{pair_said};
ghost use Rattle.told.specs.Told.{counts_of, vector_of, eligible_of, told, next_told, tri_told, length_told};

use floats::Vec3;
use ownertests::Eligible;
use refused::Refusal;

// How many rows of each array are in use, and how many numbers a property row has.
#[repr(C)]
#[derive(Clone, Copy)]
pub struct Used {
    pub halfedges: usize,
    pub vertices: usize,
    pub normals: usize,
    pub references: usize,
    pub properties: usize,
    pub num_prop: usize,
}

#[repr(C)]
#[derive(Clone, Copy)]
pub struct Point {
    pub x: f64,
    pub y: f64,
    pub z: f64,
}

#[repr(C)]
#[derive(Clone, Copy)]
pub struct Answer {
    pub number: u32,
}

#[repr(C)]
#[derive(Clone, Copy)]
pub struct NextAnswer {
    pub number: u32,
    pub next: i32,
}

#[repr(C)]
#[derive(Clone, Copy)]
pub struct TriAnswer {
    pub number: u32,
    pub first: i32,
    pub second: i32,
    pub third: i32,
}

// The squared length and the limit are bit patterns.
#[repr(C)]
#[derive(Clone, Copy)]
pub struct LengthAnswer {
    pub number: u32,
    pub squared_length: u64,
    pub limit: u64,
}

impl From<Used> for net::Counts {
    ghost from_gives = { λ used counts. counts ≡ counts_of used };

    fn from(used: Used) -> net::Counts {
        net::Counts {
            halfedges: used.halfedges,
            vertices: used.vertices,
            normals: used.normals,
            references: used.references,
            properties: used.properties,
            num_prop: used.num_prop,
        }
    }
}

impl From<Point> for Vec3 {
    ghost from_gives = { λ point vector. vector ≡ vector_of point };

    fn from(point: Point) -> Vec3 {
        Vec3 {
            x: point.x,
            y: point.y,
            z: point.z,
        }
    }
}

pub fn eligible_of(end_too: bool) -> Eligible
    ensures { result ≡ eligible_of end_too }
{
    if end_too {
        return Eligible::StartAndEnd;
    }
    Eligible::Start
}

impl From<Option<i32>> for NextAnswer {
    ghost from_gives = { λ said answer. answer ≡ next_told (next_said said) };

    fn from(said: Option<i32>) -> NextAnswer {
        match said {
            Some(next) => NextAnswer { number: 0, next },
            None => NextAnswer { number: 4, next: 0 },
        }
    }
}

impl From<Option<(i32, i32, i32)>> for TriAnswer {
    ghost from_gives = { λ said answer. answer ≡ tri_told (tri_said said) };

    fn from(said: Option<(i32, i32, i32)>) -> TriAnswer {
        match said {
            Some((first, second, third)) => TriAnswer {
                number: 0,
                first,
                second,
                third,
            },
            None => TriAnswer {
                number: 4,
                first: 0,
                second: 0,
                third: 0,
            },
        }
    }
}

impl From<Result<(), Refusal>> for LengthAnswer {
    ghost from_gives = { λ said answer. answer ≡ length_told (length_said said) };

    fn from(said: Result<(), Refusal>) -> LengthAnswer {
        match said {
            Ok(()) => LengthAnswer {
                number: 0,
                squared_length: 0,
                limit: 0,
            },
            Err(Refusal::Long(squared_length, limit)) => LengthAnswer {
                number: 8,
                squared_length: floats::bits_of(squared_length),
                limit: floats::bits_of(limit),
            },
            Err(refusal) => LengthAnswer {
                number: refusal.number(),
                squared_length: 0,
                limit: 0,
            },
        }
    }
}

impl From<Result<(), Refusal>> for Answer {
    ghost from_gives = { λ said answer. answer ≡ told (pair_said said) };

    fn from(said: Result<(), Refusal>) -> Answer {
        match said {
            Ok(()) => Answer { number: 0 },
            Err(refusal) => Answer {
                number: refusal.number(),
            },
        }
    }
}
