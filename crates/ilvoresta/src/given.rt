// The grid and the ray that the numbers of an entry point stand for.
ghost use Rattle.std.specs.Prelude.{◌≡◌};
ghost use Rattle.ilvoresta.specs.Entry.{grid_of, ray_of};

use axis::Axis;
use ray::{End, Grid, Ray};

pub fn grid_of(
    nx: u32,
    ny: u32,
    nz: u32,
    dx: u32,
    dy: u32,
    dz: u32,
    bx: i32,
    by: i32,
    bz: i32,
) -> Grid
    ensures { result ≡ grid_of nx ny nz dx dy dz bx by bz }
{
    let x = Axis {
        n: nx,
        d: dx,
        b: bx,
    };
    let y = Axis {
        n: ny,
        d: dy,
        b: by,
    };
    let z = Axis {
        n: nz,
        d: dz,
        b: bz,
    };
    Grid { x, y, z }
}

pub fn ray_of(px: i32, py: i32, pz: i32, qx: i32, qy: i32, qz: i32) -> Ray
    ensures { result ≡ ray_of px py pz qx qy qz }
{
    Ray {
        p: End::new(px, py, pz),
        q: End::new(qx, qy, qz),
    }
}
