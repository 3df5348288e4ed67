// What the entries answer that carry counts, as the struct that each one's caller is told: the number and each value that came, 0 for one that
// did not.
#![tactic(auto)]

ghost use Rattle.std.specs.Prelude.{◌≡◌};
ghost use Rattle.refused.specs.Refused.{count_said};
ghost use Rattle.splitcleared.specs.Answer.{split_said};
ghost use Rattle.counttold.specs.Told.{split_told, owners_told, loop_told};

use refused::Refusal;
use splitting::Visited;

// How many vertices were added and half-edges visited.
#[repr(C)]
#[derive(Clone, Copy)]
pub struct SplitAnswer {
    pub number: u32,
    pub row: usize,
    pub added: usize,
    pub steps: usize,
}

// How many half-edges were listed.
#[repr(C)]
#[derive(Clone, Copy)]
pub struct OwnersAnswer {
    pub number: u32,
    pub count: usize,
}

// How many vertices are in use afterwards.
#[repr(C)]
#[derive(Clone, Copy)]
pub struct LoopAnswer {
    pub number: u32,
    pub row: usize,
    pub vertices: usize,
}

impl From<Result<Visited, Refusal>> for SplitAnswer {
    ghost from_gives = { λ said answer. answer ≡ split_told (split_said said) };

    fn from(said: Result<Visited, Refusal>) -> SplitAnswer {
        match said {
            Ok(visited) => SplitAnswer {
                number: 0,
                row: 0,
                added: visited.added,
                steps: visited.steps,
            },
            Err(refusal) => SplitAnswer {
                number: refusal.number(),
                row: refusal.row(),
                added: 0,
                steps: 0,
            },
        }
    }
}

impl From<Result<usize, Refusal>> for OwnersAnswer {
    ghost from_gives = { λ said answer. answer ≡ owners_told (count_said said) };

    fn from(said: Result<usize, Refusal>) -> OwnersAnswer {
        match said {
            Ok(count) => OwnersAnswer { number: 0, count },
            Err(refusal) => OwnersAnswer {
                number: refusal.number(),
                count: 0,
            },
        }
    }
}

impl From<Result<usize, Refusal>> for LoopAnswer {
    ghost from_gives = { λ said answer. answer ≡ loop_told (count_said said) };

    fn from(said: Result<usize, Refusal>) -> LoopAnswer {
        match said {
            Ok(vertices) => LoopAnswer {
                number: 0,
                row: 0,
                vertices,
            },
            Err(refusal) => LoopAnswer {
                number: refusal.number(),
                row: refusal.row(),
                vertices: 0,
            },
        }
    }
}
