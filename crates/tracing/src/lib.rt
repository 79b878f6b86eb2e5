// The trace: which voxels a ray passes, how much of it lies in each, and the weighted sum.
#![tactic(auto)]

ghost use Rattle.std.specs.Prelude.{◌≡◌};
ghost use Rattle.axis.specs.Refusal.{number};
ghost use Rattle.tracing.specs.Answer.{refused};

mod accept;
pub mod calls;
pub mod device;

use axis::refusal::Refusal;

// What a trace hands back beside the two lists. Where the code is not 0 every other field is: the customer's seven numbers, as
// `answer_of` has them, and so no Result.
#[derive(Clone, Copy, Default)]
pub struct Trace {
    pub entries: usize,
    pub crossed: u64,
    pub span: u64,
    pub denominator: u64,
    pub squared: u64,
    pub sum: u64,
    pub code: u32,
}

impl From<Refusal> for Trace {
    ghost from_gives = { λ r t. t ≡ refused (number r) };

    fn from(r: Refusal) -> Trace {
        Trace {
            code: u32::from(r),
            ..Trace::default()
        }
    }
}
