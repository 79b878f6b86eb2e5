// The density volume's grid, the ray through it, what a trace is lent, and the checks of grid and ray.
#![tactic(auto)]

pub mod axes;
pub mod check;

use crate::axes::Axes;
use axis::Axis;

pub type Grid = Axes<Axis>;

// An end of a ray, in units of 0.1 mm.
pub type End = Axes<i32>;

// From p to q.
#[derive(Clone, Copy)]
pub struct Ray {
    pub p: End,
    pub q: End,
}

// The lengths of the lists that a trace is lent, and how many places of the last two are taken.
#[derive(Clone, Copy)]
pub struct Lent {
    pub densities: usize,
    pub voxels: usize,
    pub parts: usize,
    pub filled: usize,
}
