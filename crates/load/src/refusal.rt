// Why a line is refused.
ghost use Rattle.std.specs.Prelude.{◌≡◌};
ghost use Rattle.load.specs.Refusal.{bad_number};

use axis::refusal::Refusal;

// In the order of RULES 10.4: the first that applies is the one that is told.
#[derive(Clone, Copy, PartialEq, Eq)]
pub enum Bad {
    Long,
    Word,
    Due,
    Fields,
    Number,
    Grid(Refusal),
    Voxels,
}

impl From<Refusal> for Bad {
    ghost use Rattle.load.specs.declared.refusal.Bad.TheVariants.{Grid};

    ghost from_gives = { λ r b. b ≡ Grid r };

    fn from(r: Refusal) -> Bad {
        Bad::Grid(r)
    }
}

impl From<Bad> for u32 {
    ghost from_gives = { λ b n. n ≡ bad_number b };

    fn from(b: Bad) -> u32 {
        match b {
            Bad::Long => 20,
            Bad::Word => 21,
            Bad::Due => 22,
            Bad::Fields => 23,
            Bad::Number => 24,
            Bad::Grid(r) => u32::from(r),
            Bad::Voxels => 25,
        }
    }
}
