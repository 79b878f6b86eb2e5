// The calls at the limits of any device that suits the line.
ghost use Rattle.std.specs.Prelude.{◌≡◌};
ghost use Rattle.line.specs.Raised.{Small};
ghost use Rattle.place.specs.Answers.{refusal_of, place_of, told, told_of, nowhere, mark_code, points_of};

use crate::coordinate::point_at;
use crate::crossing::across;
use crate::{Mark, Place, Point, Points};
use axis::Limits;
use ray::{Grid, Ray};

pub fn place(m: Limits, g: Grid, r: Ray) -> Place
    requires small { Small m }
    ensures value { result ≡ place_of m g r }
    ensures numbers { told result ≡ told_of m g r }
{
    match across(m, g, r) {
        Err(refusal) => Place::Refused(u32::from(refusal)),
        Ok(None) => Place::Miss,
        Ok(Some(t)) => Place::Hit {
            enter: t.enter.nearest(),
            leave: t.leave.nearest(),
        },
    }
}

// No points: all six coordinates are positive zero.
fn unplaced(mark: Mark) -> Points
    ensures { result ≡ nowhere mark }
{
    let p = Point {
        x: 0.0,
        y: 0.0,
        z: 0.0,
    };
    Points {
        mark,
        enter: p,
        leave: p,
    }
}

pub fn points(m: Limits, g: Grid, r: Ray) -> Points
    requires small { Small m }
    ensures value { result ≡ points_of m g r }
    ensures code { mark_code result.mark ≡ refusal_of m g r }
{
    match across(m, g, r) {
        Err(refusal) => unplaced(Mark::Refused(u32::from(refusal))),
        Ok(None) => unplaced(Mark::Miss),
        Ok(Some(t)) => Points {
            mark: Mark::Hit,
            enter: point_at(m, r, t.enter),
            leave: point_at(m, r, t.leave),
        },
    }
}
