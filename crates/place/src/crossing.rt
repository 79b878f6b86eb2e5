// Between which places on the ray it is in the array, each as a fraction over the deciding axis' difference.
ghost use Rattle.std.specs.Prelude.{◌≡◌};
ghost use Rattle.line.specs.Scene.{Sized, Able};
ghost use Rattle.line.specs.Raised.{Small};
ghost use Rattle.place.specs.Deciding.{stretch_of, through_of, numbered, crossing_of};

use crate::fraction::Fraction;
use axis::Limits;
use axis::refusal::Refusal;
use line::line::Line;
use line::scene::{Scene, scene_of};
use ray::{Grid, Ray};

// A stretch of the ray, from the lesser α to the greater.
#[derive(Clone, Copy)]
pub struct Stretch {
    pub enter: Fraction,
    pub leave: Fraction,
}

// What one axis leaves of the ray: none where it does not hold a ray that stands still on it. With one tick to a unit, enter and
// leave are parts of the axis' own difference.
fn stretch_of(a: Line) -> Option<Stretch>
    requires { Sized a }
    ensures { result ≡ stretch_of a }
{
    let reach = a.reach(1);
    let den = a.factor();
    let enter = Fraction {
        num: reach.from,
        den,
    };
    let leave = Fraction { num: reach.to, den };
    if reach.held {
        Some(Stretch { enter, leave })
    } else {
        None
    }
}

// αmin and αmax.
fn through(s: Scene) -> Option<Stretch>
    requires { Able s }
    ensures { result ≡ through_of s }
{
    let x = stretch_of(s.x)?;
    let y = stretch_of(s.y)?;
    let z = stretch_of(s.z)?;
    let enter = x.enter.max(y.enter.max(z.enter));
    let leave = Fraction::WHOLE.min(x.leave.min(y.leave.min(z.leave)));
    if enter.is_below(leave) {
        Some(Stretch { enter, leave })
    } else {
        None
    }
}

pub fn across(m: Limits, g: Grid, r: Ray) -> Result<Option<Stretch>, Refusal>
    requires { Small m }
    ensures { numbered result ≡ crossing_of m g r }
{
    ray::check::grid(m, g)?;
    ray::check::ends(m, r)?;
    Ok(through(scene_of(m, g, r)))
}
