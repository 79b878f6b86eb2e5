// The place call and the point call, at the limits of the device whose unit is a tenth of a millimetre.
ghost use Rattle.std.specs.Prelude.{◌≡◌};
ghost use Rattle.axis.specs.Codes.{tenths};
ghost use Rattle.place.specs.Answers.{refusal_of, place_of, told, told_of, mark_code, points_of};

use crate::{Place, Points, device};
use axis::Axis;
use ray::{Grid, Ray};

pub fn place(g: Grid, r: Ray) -> Place
    ensures value { result ≡ place_of tenths g r }
    ensures numbers { told result ≡ told_of tenths g r }
{
    device::place(Axis::TENTHS, g, r)
}

pub fn points(g: Grid, r: Ray) -> Points
    ensures value { result ≡ points_of tenths g r }
    ensures code { mark_code result.mark ≡ refusal_of tenths g r }
{
    device::points(Axis::TENTHS, g, r)
}
