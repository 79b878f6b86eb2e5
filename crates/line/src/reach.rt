// One axis against the whole array, in ticks: c ticks to a unit.
ghost use Rattle.std.specs.Prelude.{◌≡◌, ◌^◌, ◌≤◌};
ghost use Rattle.line.specs.Scene.{Sized};
ghost use Rattle.line.specs.Reach.{Reached, left_at};

use crate::line::Line;

// Where the ray comes in and goes out on the axis, and whether a still axis holds it: `Reached` fixes all three in any case.
#[derive(Clone, Copy)]
pub struct Reach {
    pub from: u64,
    pub to: u64,
    pub held: bool,
}

impl Line {
    // Equation (4) for the plane by which the ray comes in and the one by which it goes out: going up the first and the far one, going
    // down the other way round. So they are the lesser and the greater α that equation (5) takes. Units are α times |q - p| and D is
    // c |q - p|, so α times D is c times the units. A still axis leaves all of it, 0 to D.
    pub fn reach(self, c: u64) -> Reach
        requires { Sized self × (c ≤ 2 ^ 40) }
        ensures { Reached self c result }
    {
        let near = self.plane(0);
        let far = self.plane(self.n);
        let enter = self.enter(near, far);
        let leave = self.leave(near, far);
        let held = self.held(near, far);
        Reach {
            from: enter * c,
            to: leave * c,
            held,
        }
    }

    // The tick at which the ray leaves a voxel by plane i: equation (4), times D. A still axis is left by no plane, and leaves the ray
    // whole: c is D there.
    pub fn leave_tick(self, c: u64, i: u64) -> u64
        requires { Sized self × (c ≤ 2 ^ 40) × (i ≤ self.n) }
        ensures value { result ≡ left_at self c i }
        ensures upper_bound { result ≤ 2 ^ 60 }
    {
        if self.p == self.q {
            return c;
        }
        let at = self.plane(i);
        self.run(at) * c
    }
}
