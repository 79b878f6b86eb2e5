// Places for drawing: where a ray enters and leaves the array, as floats.
#![tactic(auto)]

pub mod call;
mod coordinate;
mod crossing;
pub mod device;
mod fraction;

// The place call's answer: the code of a refusal, a number as `place_of` has it; a miss; or αmin and αmax.
#[derive(Clone, Copy, PartialEq)]
pub enum Place {
    Refused(u32),
    Miss,
    Hit { enter: f64, leave: f64 },
}

// A place in the array, in units of 0.1 mm: the customer names a struct of three floats.
#[derive(Clone, Copy, PartialEq)]
pub struct Point {
    pub x: f64,
    pub y: f64,
    pub z: f64,
}

// What the point call found, a refusal by its code (`mark_code`); on a miss or a refusal both points are positive zeros.
#[derive(Clone, Copy, PartialEq, Eq)]
pub enum Mark {
    Refused(u32),
    Miss,
    Hit,
}

// The point call's answer: the mark, and the entering and leaving points.
#[derive(Clone, Copy, PartialEq)]
pub struct Points {
    pub mark: Mark,
    pub enter: Point,
    pub leave: Point,
}
