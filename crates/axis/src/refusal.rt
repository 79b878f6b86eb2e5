// Why a call refuses what it is given.
ghost use Rattle.std.specs.Prelude.{◌≡◌};
ghost use Rattle.axis.specs.Refusal.{number};

// In the order of RULES 6: the first that applies is the one that is told.
#[derive(Clone, Copy, PartialEq, Eq)]
pub enum Refusal {
    Count,
    Spacing,
    Planes,
    Densities,
    Outside,
    EqualEnds,
    Lists,
    Room,
    Answer,
}

impl From<Refusal> for u32 {
    ghost from_gives = { λ r n. n ≡ number r };

    fn from(r: Refusal) -> u32 {
        match r {
            Refusal::Count => 1,
            Refusal::Spacing => 2,
            Refusal::Planes => 3,
            Refusal::Densities => 4,
            Refusal::Outside => 5,
            Refusal::EqualEnds => 6,
            Refusal::Lists => 7,
            Refusal::Room => 8,
            Refusal::Answer => 17,
        }
    }
}
