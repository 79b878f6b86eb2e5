// The walk from voxel to voxel. Every field is 64 bits wide and each turn branches on the axis that is left first: that is
// what makes it fast.
ghost use Rattle.std.specs.Prelude.{◌≡◌, ◌^◌, ◌<◌};
ghost use Rattle.ray.specs.declared.axes.Side.TheVariants.{X, Y, Z};
ghost use Rattle.walk.specs.Model.{next, over_of, stepped};

use ray::axes::{Axes, Side};

// Where the walk is since the tick t, and the ticks at which it leaves its voxel on each axis. v is the voxel's number, and 2^32 for
// each plane crossed since the walk began: in the last voxel that is the brackets of equation (9), without the planes met at αmin or
// αmax itself.
#[derive(Clone, Copy)]
pub struct Walk {
    pub leave: Axes<u64>,
    pub v: u64,
    pub t: u64,
}

// On each axis the ticks from plane to plane, and what a plane crossed adds to v.
#[derive(Clone, Copy)]
pub struct Strides {
    pub step: Axes<u64>,
    pub jump: Axes<u64>,
}

impl Walk {
    // Over a plane of one axis, at the tick u.
    fn over(self, side: Side, s: Strides, u: u64) -> Self
        requires { next s self side < 2 ^ 64 }
        ensures { result ≡ over_of s u side self }
    {
        let next = self.leave.of(side) + s.step.of(side);
        Walk {
            leave: self.leave.with(side, next),
            v: self.v.wrapping_add(s.jump.of(side)),
            t: u,
        }
    }

    // Into the next voxel: over each plane that is met first, several at a shared crossing. So the α of equation (8) come in order,
    // and no list of them is made.
    pub fn step(self, s: Strides) -> Self
        requires { (next s self X < 2 ^ 64) × (next s self Y < 2 ^ 64) × (next s self Z < 2 ^ 64) }
        ensures { result ≡ stepped s self }
    {
        let Axes { x, y, z } = self.leave;
        if x < y {
            if x < z {
                return self.over(Side::X, s, x);
            }
            if x == z {
                return self.over(Side::X, s, z).over(Side::Z, s, z);
            }
            return self.over(Side::Z, s, z);
        }
        if y < z {
            if x == y {
                return self.over(Side::X, s, y).over(Side::Y, s, y);
            }
            return self.over(Side::Y, s, y);
        }
        if y == z {
            if x == z {
                return self
                    .over(Side::X, s, z)
                    .over(Side::Y, s, z)
                    .over(Side::Z, s, z);
            }
            return self.over(Side::Y, s, z).over(Side::Z, s, z);
        }
        self.over(Side::Z, s, z)
    }
}
