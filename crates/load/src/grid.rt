// A GRID line.
ghost use Rattle.std.specs.Prelude.{◌≡◌, List, ℕ, ◌≤◌, IfOk};
ghost use Rattle.text.specs.Split.{split};
ghost use Rattle.load.specs.Numbers.{grid_in};
ghost use Rattle.load.specs.Line.{grid_code, grid_read};
ghost use Rattle.load.specs.Read.{taking_of};
ghost use Rattle.load.specs.Refusal.{bad_number_of};
ghost use Rattle.load.specs.Sound.{Sound, Further};

use crate::refusal::Bad;
use crate::state::Load;
use axis::{Axis, Limits};
use ray::Grid;
use text::numbers::{Signed, UpTo, numbers};

// The numbers of a GRID line.
#[tactic(auto, using(crate::proofs::Fields::six_digits))]
fn grid_in(line: &[u8]) -> Option<Grid>
    ensures { result ≡ grid_in (split 9 line.now) }
{
    let mut sizes = [0u32; 6];
    let mut firsts = [0i32; 3];
    numbers(UpTo { most: 999999 }, line, 0, &mut sizes)?;
    numbers(Signed, line, 6, &mut firsts)?;
    let [nx, ny, nz, dx, dy, dz] = sizes;
    let [bx, by, bz] = firsts;
    Some(Grid {
        x: Axis {
            n: nx,
            d: dx,
            b: bx,
        },
        y: Axis {
            n: ny,
            d: dy,
            b: by,
        },
        z: Axis {
            n: nz,
            d: dz,
            b: bz,
        },
    })
}

// Whether the grid is taken: by the device, and with at most 4096 voxels.
#[tactic(auto, using(crate::proofs::Taking::voxels_small, crate::proofs::Taking::code_few, crate::proofs::Taking::code_many))]
fn check_grid(m: Limits, g: Grid) -> Result<(), Bad>
    requires { m.n ≤ 512 }
    ensures { bad_number_of result ≡ grid_code m g }
{
    ray::check::grid(m, g)?;
    if 4096 < g.x.n * g.y.n * g.z.n {
        return Err(Bad::Voxels);
    }
    Ok(())
}

#[tactic(auto, using(crate::proofs::Due::own_due, crate::proofs::Loading::sound_grid))]
pub fn take_grid(st: Load, line: &[u8]) -> Result<Load, Bad>
    requires { Sound st × (st.lines ≡ 0) }
    ensures kept { IfOk result (Further st) }
    ensures reading { (ds : List ℕ) → taking_of result ds ≡ grid_read st.limits (grid_in (split 9 line.now)) }
{
    let grid = grid_in(line).ok_or(Bad::Number)?;
    check_grid(st.limits, grid)?;
    Ok(Load {
        grid,
        lines: 1,
        left: (grid.y.n * grid.z.n) as usize,
        filled: 0,
        ..st
    })
}
