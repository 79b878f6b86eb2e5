// One axis of the density volume: its numbers, its limits, and the check of both.
#![tactic(auto)]

ghost use Rattle.std.specs.Prelude.{◌≡◌, cond, eqb, pos, ◌+ℤ◌};
ghost use Rattle.axis.specs.Leg.{natural};
ghost use Rattle.axis.specs.Refusal.{number_of};
ghost use Rattle.axis.specs.Codes.{tenths, inside, beyond, planes_out, axis_code, told};

pub mod refusal;

use crate::refusal::Refusal;

// n voxels of spacing d from the first plane b on, in units of 0.1 mm. The fields say nothing of the
// limits: whoever takes an axis checks it.
#[derive(Clone, Copy)]
pub struct Axis {
    pub n: u32,
    pub d: u32,
    pub b: i32,
}

// The greatest n and d that a device takes, and how far from 0 a coordinate may lie.
#[derive(Clone, Copy)]
pub struct Limits {
    pub n: u32,
    pub d: u32,
    pub coord: u32,
}

// c + by, and 0 where that is below 0: a coordinate told from the lower limit up, so that what
// follows is whole numbers without a sign.
pub fn raised(c: i32, by: u32) -> u64
    ensures { result ≡ natural (c +ℤ pos by) }
{
    let sum = i64::from(c) + i64::from(by);
    if sum < 0 { 0 } else { sum as u64 }
}

// Whether a count or a spacing is 0 or over the most that is taken.
fn beyond(x: u32, most: u32) -> bool
    ensures { result ≡ beyond most x }
{
    x == 0 || most < x
}

impl Limits {
    // Whether a coordinate is within the limits, both ends included.
    pub fn holds(self, c: i32) -> bool
        ensures { result ≡ inside self c }
    {
        let top = i64::from(self.coord);
        let wide = i64::from(c);
        // By the magnitude it takes longer.
        -top <= wide && wide <= top
    }
}

impl Axis {
    pub const COUNT_MAX: u32 = 512;

    pub const SPACING_MAX: u32 = 4096;

    pub const COORD_MAX: u32 = 16384;

    // The limits of the device whose unit is a tenth of a millimetre.
    pub const TENTHS: Limits = Limits {
        n: Axis::COUNT_MAX,
        d: Axis::SPACING_MAX,
        coord: Axis::COORD_MAX,
    };

    // Whether n is out of range.
    pub fn count_out(self, m: Limits) -> bool
        ensures { result ≡ beyond m.n self.n }
    {
        beyond(self.n, m.n)
    }

    // Whether d is out of range.
    pub fn spacing_out(self, m: Limits) -> bool
        ensures { result ≡ beyond m.d self.d }
    {
        beyond(self.d, m.d)
    }

    // Whether the first or the far plane is outside its bounds.
    pub fn planes_out(self, m: Limits) -> bool
        ensures { result ≡ planes_out m self }
    {
        if !m.holds(self.b) {
            return true;
        }
        let far = raised(self.b, m.coord) + u64::from(self.n) * u64::from(self.d);
        let top = 2 * u64::from(m.coord);
        top < far
    }

    // Whether the axis is accepted by itself.
    pub fn check(self, m: Limits) -> Result<(), Refusal>
        ensures { number_of result ≡ axis_code m self }
    {
        if self.count_out(m) {
            return Err(Refusal::Count);
        }
        if self.spacing_out(m) {
            return Err(Refusal::Spacing);
        }
        if self.planes_out(m) {
            return Err(Refusal::Planes);
        }
        Ok(())
    }

    // The axis where the device takes it.
    pub fn checked(n: u32, d: u32, b: i32) -> Result<Axis, Refusal>
        ensures code { (told result).0 ≡ axis_code tenths (record { n = n; d = d; b = b }) }
        ensures axis { (told result).1 ≡ cond (eqb (told result).0 0) (record { n = n; d = d; b = b }) (record { n = 0; d = 0; b = pos 0 }) }
    {
        let a = Axis { n, d, b };
        a.check(Axis::TENTHS)?;
        Ok(a)
    }
}
