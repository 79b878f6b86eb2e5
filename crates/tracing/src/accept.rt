// What is refused before the ray is traced: codes 1 to 7.
ghost use Rattle.std.specs.Prelude.{◌≡◌, ◌^◌, ◌≤◌};
ghost use Rattle.axis.specs.Codes.{first};
ghost use Rattle.axis.specs.Refusal.{number_of};
ghost use Rattle.ray.specs.Codes.{front_rows};
ghost use Rattle.ray.specs.Length.{volume, count};
ghost use Rattle.line.specs.Raised.{Small};

use axis::Limits;
use axis::refusal::Refusal;
use ray::{Grid, Lent, Ray, check};

fn voxels_of(g: Grid) -> usize
    requires { (g.x.n ≤ 2 ^ 9) × (g.y.n ≤ 2 ^ 9) × (g.z.n ≤ 2 ^ 9) }
    ensures { result ≡ count (volume g) }
{
    (g.x.n as usize) * (g.y.n as usize) * (g.z.n as usize)
}

// Whether a trace is accepted, but for code 8, which is left where it is.
pub fn front(m: Limits, g: Grid, r: Ray, lent: Lent) -> Result<(), Refusal>
    requires { Small m }
    ensures { number_of result ≡ first (front_rows m g r lent) }
{
    check::grid(m, g)?;
    if lent.densities != voxels_of(g) {
        return Err(Refusal::Densities);
    }
    check::ends(m, r)?;
    if lent.voxels != lent.parts {
        return Err(Refusal::Lists);
    }
    Ok(())
}
