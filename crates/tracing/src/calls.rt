// The public calls, at the limits of the device whose unit is a tenth of a millimetre. They refuse whatever they cannot take, and
// then both lists are as they were.
ghost use Rattle.axis.specs.Codes.{tenths};
ghost use Rattle.tracing.specs.Answer.{lists, Answers};

use crate::{Trace, device};
use axis::Axis;
use ray::{Grid, Ray};

// Traces one ray: fills the front of the two lent lists, and answers by RULES 5.
pub fn trace(g: Grid, r: Ray, densities: &[u16], voxels: &mut [u32], parts: &mut [u64]) -> Trace
    ensures { Answers tenths g r (lists densities.now voxels.old parts.old 0) result voxels.new parts.new }
{
    device::trace(Axis::TENTHS, g, r, densities, voxels, parts)
}

// The same behind the first `filled` places of the lists, of which it touches none.
pub fn append(
    g: Grid,
    r: Ray,
    densities: &[u16],
    voxels: &mut [u32],
    parts: &mut [u64],
    filled: usize,
) -> Trace
    ensures { Answers tenths g r (lists densities.now voxels.old parts.old filled) result voxels.new parts.new }
{
    device::append(Axis::TENTHS, g, r, densities, voxels, parts, filled)
}
