// Which plane comes next, and which voxel a stretch lies in: the rounded quotients of equations (6) and (12), for planes at equal
// distances. The paper counts planes and voxels from 1, this from 0. Places are told in ticks, k to a unit of length, and so is what
// α adds to them, which is whole in ticks: so a quotient of whole numbers is the paper's.
ghost use Rattle.std.specs.Prelude.{◌≡◌, ◌*◌, ◌^◌, ◌≤◌, ◌<◌};
ghost use Rattle.line.specs.Scene.{Sized, Window, Within};
ghost use Rattle.line.specs.Beyond.{First, Stretch};
ghost use Rattle.line.specs.Quotient.{spot_of, quotient_of, back_of};

use crate::line::Line;
use std::hint::select_unpredictable;

impl Line {
    // Equation (2) at α = t / (k |q - p|), in ticks of k to a unit; a still ray is at its start throughout.
    fn spot(self, k: u64, t: u64) -> u64
        requires sized { Sized self × (k ≤ 2 ^ 41) × (t ≤ 2 ^ 61) }
        requires t_bound { self.q < self.p → t ≤ self.p * k }
        ensures value { result ≡ spot_of self k t }
        ensures upper_bound { result ≤ 2 ^ 62 }
    {
        let up = select_unpredictable(self.p < self.q, t, 0);
        let down = select_unpredictable(self.q < self.p, t, 0);
        self.p * k + up - down
    }

    // How far the place x is from the first plane, by the spacing, and rounded down: the quotient of equations (6) and (12).
    fn quotient(self, k: u64, x: u64) -> u64
        requires { Sized self × (0 < k) × (k ≤ 2 ^ 41) × (self.b * k ≤ x) }
        ensures { result ≡ quotient_of self k x }
    {
        (x - self.b * k) / (self.d * k)
    }

    // The same where `near` may be the answer. That two products tell, and then there is no division, which takes longer.
    fn quotient_near(self, k: u64, x: u64, near: u64) -> u64
        requires { Sized self × (0 < k) × (k ≤ 2 ^ 41) × (self.b * k ≤ x) × (near ≤ self.n) }
        ensures { result ≡ quotient_of self k x }
    {
        let along = x - self.b * k;
        let wide = self.d * k;
        let low = near * wide;
        if low <= along && along - low < wide {
            return near;
        }
        self.quotient(k, x)
    }

    // 1 where the ray goes down, else 0.
    fn back(self) -> u64
        ensures value { result ≡ back_of self }
        ensures upper_bound { result ≤ 1 }
    {
        u64::from(self.q < self.p)
    }

    // The first plane after the tick t, with no scan. A still axis has none, and is told 0.
    pub fn ahead(self, c: u64, t: u64) -> u64
        requires { Sized self × (c ≤ 2 ^ 40) × Window self c t }
        ensures { First self c t result }
    {
        if self.p == self.q {
            return 0;
        }
        // (6) at α = t / D, both its forms told from the first plane: D is c |q - p|, so the place is whole in ticks of c to a unit. The
        // paper counts a plane met at α itself, here it is passed. So going up, the quotient is rounded down and 1 added. Going down, it
        // is rounded up and 1 taken off, which comes to the quotient one tick further on, rounded down.
        let back = self.back();
        let x = self.spot(c, t + back);
        self.quotient(c, x) + (1 - back)
    }

    // The voxel of a stretch that no plane of the axis cuts. Whichever plane `first` is, the answer is the same; it is found sooner where
    // that is the plane ahead.
    pub fn index(self, c: u64, from: u64, next: u64, first: u64) -> u64
        requires sized { Sized self × (c ≤ 2 ^ 40) × Window self c from × (first ≤ self.n) }
        requires stretch { Stretch self c from next }
        ensures { Within self c from result }
    {
        // (13): the middle is at α = (from + next) / 2D. On a moving axis D is c |q - p|, so its place is whole in half ticks, 2c to a unit.
        let middle = self.spot(2 * c, from + next);
        // The voxel before the plane ahead, as a guess.
        let near = first.saturating_sub(1 - self.back());
        // (12), less the 1 that the paper counts from: the bracket and the spacing, both in half ticks.
        let i = self.quotient_near(2 * c, middle, near);
        // Only for a still ray in the far face, which belongs to the last voxel (RULES 2), is that one too high.
        i.min(self.n - 1)
    }
}
