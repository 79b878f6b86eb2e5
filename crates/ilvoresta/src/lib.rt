// The entry points for the viewer, by numbers and lists. `ilvoresta_c` hands them to C under the same names, in an archive.
#![tactic(auto)]

ghost use Rattle.axis.specs.Codes.{tenths};
ghost use Rattle.tracing.specs.Answer.{lists};
ghost use Rattle.ilvoresta.specs.Entry.{grid_of, ray_of, Traced, Placed};

mod fill;
pub mod given;
mod placed;
pub mod traced;

use crate::given::{grid_of, ray_of};
use crate::placed::place_into;
use crate::traced::trace_into;
use axis::Axis;

// Returns the code. On code 0 the first places of `voxels` and `parts` hold the entries, and `answer` the six numbers; else all
// three are as they were.
pub fn ilvoresta_trace(
    nx: u32,
    ny: u32,
    nz: u32,
    dx: u32,
    dy: u32,
    dz: u32,
    bx: i32,
    by: i32,
    bz: i32,
    px: i32,
    py: i32,
    pz: i32,
    qx: i32,
    qy: i32,
    qz: i32,
    densities: &[u16],
    voxels: &mut [u32],
    parts: &mut [u64],
    answer: &mut [u64],
) -> u32
    ensures { Traced tenths (grid_of nx ny nz dx dy dz bx by bz) (ray_of px py pz qx qy qz)
        (lists densities.now voxels.old parts.old 0) answer.old result voxels.new parts.new answer.new }
{
    let g = grid_of(nx, ny, nz, dx, dy, dz, bx, by, bz);
    let r = ray_of(px, py, pz, qx, qy, qz);
    trace_into(Axis::TENTHS, g, r, densities, voxels, parts, answer)
}

// Returns the code. On code 0 `answer` holds enter and leave, or two zeros; else it is as it was.
pub fn ilvoresta_place(
    nx: u32,
    ny: u32,
    nz: u32,
    dx: u32,
    dy: u32,
    dz: u32,
    bx: i32,
    by: i32,
    bz: i32,
    px: i32,
    py: i32,
    pz: i32,
    qx: i32,
    qy: i32,
    qz: i32,
    answer: &mut [f64],
) -> u32
    ensures { Placed tenths (grid_of nx ny nz dx dy dz bx by bz) (ray_of px py pz qx qy qz) answer.old result answer.new }
{
    let g = grid_of(nx, ny, nz, dx, dy, dz, bx, by, bz);
    let r = ray_of(px, py, pz, qx, qy, qz);
    place_into(Axis::TENTHS, g, r, answer)
}
