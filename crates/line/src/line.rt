// One axis of a scene against the ray, in the axis' own units: a unit is α times the difference of the ends.
ghost use Rattle.std.specs.Prelude.{◌≡◌, true, ℕ, ◌+◌, ◌*◌, ◌^◌, ◌≤◌, ◌<◌, pos};
ghost use Rattle.axis.specs.Leg.{factor, run, enters, leaves, held};
ghost use Rattle.line.specs.Scene.{leg_n, slab_n, plane, Sized};

use std::hint::select_unpredictable;

// The ray goes from p to q; plane i is at b + i * d, i from 0 to n. Nothing bounds the five: `factor` and `run` take any line, and
// `scene_of` makes any.
#[derive(Clone, Copy)]
pub struct Line {
    pub p: u64,
    pub q: u64,
    pub b: u64,
    pub d: u64,
    pub n: u64,
}

impl Line {
    pub fn factor(self) -> u64
        ensures { result ≡ factor (leg_n self.p self.q) }
    {
        self.p.abs_diff(self.q).max(1)
    }

    // Equation (4) for a plane at c, in units: α times the difference of the ends, and 0 where the plane lies behind the start.
    pub fn run(self, c: u64) -> u64
        ensures { result ≡ run (leg_n self.p self.q) (pos c) }
    {
        let up = self.p < self.q;
        let from = select_unpredictable(up, self.p, c);
        let to = select_unpredictable(up, c, self.p);
        to.saturating_sub(from)
    }

    // Where the ray comes in between the planes lo and hi, whichever of them are held.
    pub fn enter(self, lo: u64, hi: u64) -> u64
        requires { lo ≤ hi }
        ensures { (rest : ℕ) → result * rest ≡ enters rest (leg_n self.p self.q) (slab_n lo hi true) }
    {
        if self.p == self.q {
            return 0;
        }
        self.run(select_unpredictable(self.p < self.q, lo, hi))
    }

    // Where it goes out of them; a still axis leaves it whole.
    pub fn leave(self, lo: u64, hi: u64) -> u64
        requires { lo ≤ hi }
        ensures { (rest : ℕ) → result * rest ≡ leaves rest (leg_n self.p self.q) (slab_n lo hi true) }
    {
        if self.p == self.q {
            return 1;
        }
        self.run(select_unpredictable(self.p < self.q, hi, lo))
    }

    // Whether the array holds the ray, where lo and hi are its first and far plane: both are its own.
    pub fn held(self, lo: u64, hi: u64) -> bool
        ensures { result ≡ held (leg_n self.p self.q) (slab_n lo hi true) }
    {
        // Not by && and ||: then the machine code asks again what enter and leave ask, and a trace of a short ray takes a tenth longer.
        if self.p == self.q {
            if lo <= self.p { self.p <= hi } else { false }
        } else {
            true
        }
    }

    // Equation (3), counted from 0.
    pub fn plane(self, i: u64) -> u64
        requires { Sized self × (i ≤ self.n) }
        ensures { result ≡ plane self i }
    {
        self.b + i * self.d
    }

    // What a plane crossed, in the way of the ray, adds to a count of planes in units of 2^32 and a voxel's number below it, where a
    // voxel of the axis counts unit. A still axis is never left; its answer is that of a ray going down.
    pub fn jump(self, unit: u64) -> u64
        requires { unit ≤ 2 ^ 32 }
        ensures value { self.p < self.q → result ≡ 2 ^ 32 + unit }
        ensures unit_value { self.q ≤ self.p → result + unit ≡ 2 ^ 32 }
    {
        if self.p < self.q {
            4294967296 + unit
        } else {
            4294967296 - unit
        }
    }
}
