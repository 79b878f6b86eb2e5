// What refuses a grid and the ends of a ray, checked in the order of RULES 6.
ghost use Rattle.std.specs.Prelude.{◌≡◌};
ghost use Rattle.axis.specs.Codes.{first};
ghost use Rattle.axis.specs.Refusal.{number_of};
ghost use Rattle.ray.specs.Codes.{grid_rows, end_rows};

use crate::{Grid, Ray};
use axis::Limits;
use axis::refusal::Refusal;

// Whether the device takes the three axes.
#[tactic(auto, using(crate::proofs::Accepted::grid_are))]
pub fn grid(m: Limits, g: Grid) -> Result<(), Refusal>
    ensures { number_of result ≡ first (grid_rows m g) }
{
    if g.map(|a| a.count_out(m)).any() {
        return Err(Refusal::Count);
    }
    if g.map(|a| a.spacing_out(m)).any() {
        return Err(Refusal::Spacing);
    }
    if g.map(|a| a.planes_out(m)).any() {
        return Err(Refusal::Planes);
    }
    Ok(())
}

// Whether the device takes the ends of a ray, and they differ.
#[tactic(auto, using(crate::proofs::Accepted::ends_are, crate::proofs::Accepted::ends_equal))]
pub fn ends(m: Limits, r: Ray) -> Result<(), Refusal>
    ensures { number_of result ≡ first (end_rows m r) }
{
    if r.p.zip(r.q).map(|(p, q)| !m.holds(p) || !m.holds(q)).any() {
        return Err(Refusal::Outside);
    }
    if r.p == r.q {
        return Err(Refusal::EqualEnds);
    }
    Ok(())
}
