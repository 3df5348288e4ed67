// What the entries answer that carry a row at the most, as the struct that their caller is told: the number and the least row that is not in
// order, 0 where there is none.
#![tactic(auto)]

ghost use Rattle.std.specs.Prelude.{◌≡◌};
ghost use Rattle.refused.specs.Refused.{plain_said};
ghost use Rattle.rowtold.specs.Told.{row_told, update_told};

use refused::Refusal;

#[repr(C)]
#[derive(Clone, Copy)]
pub struct RowAnswer {
    pub number: u32,
    pub row: usize,
}

// update_vert's own.
#[repr(C)]
#[derive(Clone, Copy)]
pub struct UpdateAnswer {
    pub number: u32,
    pub row: usize,
}

impl From<Result<(), Refusal>> for RowAnswer {
    ghost from_gives = { λ said answer. answer ≡ row_told (plain_said said) };

    fn from(said: Result<(), Refusal>) -> RowAnswer {
        match said {
            Ok(()) => RowAnswer { number: 0, row: 0 },
            Err(refusal) => RowAnswer {
                number: refusal.number(),
                row: refusal.row(),
            },
        }
    }
}

impl From<Result<(), Refusal>> for UpdateAnswer {
    ghost from_gives = { λ said answer. answer ≡ update_told (plain_said said) };

    fn from(said: Result<(), Refusal>) -> UpdateAnswer {
        match said {
            Ok(()) => UpdateAnswer { number: 0, row: 0 },
            Err(refusal) => UpdateAnswer {
                number: refusal.number(),
                row: refusal.row(),
            },
        }
    }
}
