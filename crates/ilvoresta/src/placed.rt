// The place with its answer in a list of two.
ghost use Rattle.line.specs.Raised.{Small};
ghost use Rattle.ilvoresta.specs.Entry.{Placed};

use crate::fill::fill;
use axis::Limits;
use place::Place;
use place::device::place;
use ray::{Grid, Ray};

pub fn place_into(m: Limits, g: Grid, r: Ray, answer: &mut [f64]) -> u32
    requires { Small m }
    ensures { Placed m g r answer.old result answer.new }
{
    match place(m, g, r) {
        Place::Refused(code) => code,
        Place::Miss => fill([0.0, 0.0], answer),
        Place::Hit { enter, leave } => fill([enter, leave], answer),
    }
}
