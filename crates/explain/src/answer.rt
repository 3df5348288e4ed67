// What explain_row answers, as the struct that a caller in C is told: the number, the clause that the row breaks first (0: none), and the other
// row that this concerns; 0 for a value that did not come.
ghost use Rattle.std.specs.Prelude.{◌≡◌, Some};
ghost use Rattle.explain.specs.Explain.{explain_said, clause_number, other_row};
ghost use Rattle.explain.specs.Answer.{explain_told};

use crate::Broken;
use refused::Refusal;

#[repr(C)]
#[derive(Clone, Copy)]
pub struct ExplainAnswer {
    pub number: u32,
    pub clause: u32,
    pub other: usize,
}

impl Broken {
    // The number of the clause.
    pub fn clause(self) -> u32
        ensures { result ≡ clause_number (Some self) }
    {
        match self {
            Broken::NoPartner => 1,
            Broken::NotBack(_) => 2,
            Broken::NoVertex => 3,
            Broken::Unpaired(_) => 4,
            Broken::NotJoined(_) => 5,
            Broken::NotMirrored(_) => 6,
            Broken::StartsAlike => 7,
            Broken::PartlyDead(_) => 8,
        }
    }

    // The other row; 0 where there is none.
    pub fn other(self) -> usize
        ensures { result ≡ other_row self }
    {
        match self {
            Broken::NotBack(h)
            | Broken::Unpaired(h)
            | Broken::NotJoined(h)
            | Broken::NotMirrored(h)
            | Broken::PartlyDead(h) => h.number(),
            Broken::NoPartner | Broken::NoVertex | Broken::StartsAlike => 0,
        }
    }
}

impl From<Result<Option<Broken>, Refusal>> for ExplainAnswer {
    ghost from_gives = { λ said answer. answer ≡ explain_told (explain_said said) };

    fn from(said: Result<Option<Broken>, Refusal>) -> ExplainAnswer {
        match said {
            Ok(None) => ExplainAnswer {
                number: 0,
                clause: 0,
                other: 0,
            },
            Ok(Some(broken)) => ExplainAnswer {
                number: 0,
                clause: broken.clause(),
                other: broken.other(),
            },
            Err(refusal) => ExplainAnswer {
                number: refusal.number(),
                clause: 0,
                other: 0,
            },
        }
    }
}
