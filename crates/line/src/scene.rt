// A grid and a ray told from the lower limit up.
ghost use Rattle.std.specs.Prelude.{◌≡◌, ◌+◌, ◌-◌, ◌*◌, ◌^◌, ◌≤◌};
ghost use Rattle.ray.specs.Length.{squared_of};
ghost use Rattle.line.specs.Scene.{Sized, Able, ray_of};
ghost use Rattle.line.specs.Raised.{line_of, scene_of};

use crate::line::Line;
use axis::{Axis, Limits, raised};
use ray::axes::Axes;
use ray::{Grid, Ray};

// A line for each axis.
pub type Scene = Axes<Line>;

pub fn line_of(m: Limits, a: Axis, p: i32, q: i32) -> Line
    ensures { result ≡ line_of m a p q }
{
    Line {
        p: raised(p, m.coord),
        q: raised(q, m.coord),
        b: raised(a.b, m.coord),
        d: u64::from(a.d),
        n: u64::from(a.n),
    }
}

pub fn scene_of(m: Limits, g: Grid, r: Ray) -> Scene
    ensures { result ≡ scene_of m g r }
{
    g.zip(r.p.zip(r.q)).map(|(a, (p, q))| line_of(m, a, p, q))
}

#[tactic(auto, using(crate::proofs::Sizes::two_sizes))]
fn square(a: Line) -> u64
    requires { Sized a }
    ensures value { result ≡ ((a.p - a.q) + (a.q - a.p)) * ((a.p - a.q) + (a.q - a.p)) }
    ensures upper_bound { result ≤ 2 ^ 40 }
{
    let gap = a.p.abs_diff(a.q);
    gap * gap
}

// Equation (11) without its root.
#[tactic(auto, using(crate::proofs::Units::abs_gap))]
pub fn squared_of(s: Scene) -> u64
    requires { Able s }
    ensures { result ≡ squared_of (ray_of s) }
{
    square(s.x) + square(s.y) + square(s.z)
}
