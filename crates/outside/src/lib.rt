// The calls that C has no entry for, as C functions, for the comparisons alone (compare/driver.c): doors that a caller's
// header does not name.
#![tactic(auto)]

ghost use Rattle.axis.specs.Codes.{tenths};
ghost use Rattle.tracing.specs.Answer.{lists};
ghost use Rattle.ilvoresta.specs.Entry.{grid_of, ray_of};
ghost use Rattle.outside.specs.Doors.{Appended, Pointed};

pub mod limits;
mod put;

use crate::put::{code_in, floats_of, mark_of, put};
use ilvoresta::given::{grid_of, ray_of};
use ilvoresta::traced::six_of;
use place::call::points;
use tracing::calls::append;

// Returns the code. `answer` holds the other six numbers, after a refusal too.
#[unsafe(no_mangle)]
pub extern "C" fn outside_append(
    nx: u32,
    ny: u32,
    nz: u32,
    dx: u32,
    dy: u32,
    dz: u32,
    bx: i32,
    by: i32,
    bz: i32,
    px: i32,
    py: i32,
    pz: i32,
    qx: i32,
    qy: i32,
    qz: i32,
    densities: &[u16],
    voxels: &mut [u32],
    parts: &mut [u64],
    filled: usize,
    answer: &mut [u64],
) -> u32
    ensures { Appended tenths (grid_of nx ny nz dx dy dz bx by bz) (ray_of px py pz qx qy qz)
        (lists densities.now voxels.old parts.old filled) answer.old result voxels.new parts.new answer.new }
{
    let g = grid_of(nx, ny, nz, dx, dy, dz, bx, by, bz);
    let r = ray_of(px, py, pz, qx, qy, qz);
    let t = append(g, r, densities, voxels, parts, filled);
    put(six_of(t), answer);
    t.code
}

// Returns the code. `mark` holds 0 for a refusal, 1 for a miss, 2 for a hit, and `floats` the entering and the leaving point.
#[unsafe(no_mangle)]
pub extern "C" fn outside_points(
    nx: u32,
    ny: u32,
    nz: u32,
    dx: u32,
    dy: u32,
    dz: u32,
    bx: i32,
    by: i32,
    bz: i32,
    px: i32,
    py: i32,
    pz: i32,
    qx: i32,
    qy: i32,
    qz: i32,
    mark: &mut [u32],
    floats: &mut [f64],
) -> u32
    ensures { Pointed tenths (grid_of nx ny nz dx dy dz bx by bz) (ray_of px py pz qx qy qz) mark.old floats.old result mark.new floats.new }
{
    let g = grid_of(nx, ny, nz, dx, dy, dz, bx, by, bz);
    let r = ray_of(px, py, pz, qx, qy, qz);
    let a = points(g, r);
    put(floats_of(a), floats);
    put([mark_of(a.mark)], mark);
    code_in(a.mark)
}
