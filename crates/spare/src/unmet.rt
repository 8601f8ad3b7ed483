// Why a set of jobs gets no plan and no list.
ghost use Rattle.std.specs.Prelude.{◌≡◌};
ghost use Rattle.spare.specs.declared.unmet.NoAnswer.TheVariants.{Refused};

use model::Refusal;

// The earliest overfull window with its spare, which is refusal 11; or another refusal.
#[derive(Clone, Copy, Debug, PartialEq, Eq)]
pub enum NoAnswer {
    Overfull { start: u32, end: u32, spare: i64 },
    Refused(Refusal),
}

impl From<Refusal> for NoAnswer {
    ghost from_gives = { λ own made. made ≡ Refused own };

    fn from(own: Refusal) -> NoAnswer {
        NoAnswer::Refused(own)
    }
}
