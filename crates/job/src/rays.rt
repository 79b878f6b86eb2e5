// A RAY line.
ghost use Rattle.std.specs.Prelude.{◌≡◌, ◌++◌, map, ◌+◌, ◌*◌, ◌≤◌, ◌<◌, length, take};
ghost use Rattle.ray.specs.Length.{volume, part_of};
ghost use Rattle.text.specs.Split.{split};
ghost use Rattle.job.specs.Stand.{stand_of};
ghost use Rattle.job.specs.Rays.{traced, passed, cell, cells, ray_text};
ghost use Rattle.job.specs.Line.{ray_in, ray_step};
ghost use Rattle.job.specs.Sound.{Taken, room};
ghost use Rattle.job.specs.Move.{Ready, Kept, due, came_to, after};

use crate::state::{Moved, State};
use axis::Limits;
use load::refusal::Bad;
use ray::{End, Grid, Ray};
use text::numbers::{Signed, numbers};
use text::put::put_line;
use tracing::Trace;
use tracing::device::trace;

// The numbers of a RAY line.
fn ray_in(line: &[u8]) -> Option<Ray>
    ensures { result ≡ ray_in (split 9 line.now) }
{
    let mut c = [0i32; 6];
    numbers(Signed, line, 0, &mut c)?;
    let [px, py, pz, qx, qy, qz] = c;
    Some(Ray {
        p: End::new(px, py, pz),
        q: End::new(qx, qy, qz),
    })
}

// The trace of a ray through a grid that the job takes: 600 places are never too few.
fn traced_ray(
    m: Limits,
    g: Grid,
    r: Ray,
    densities: &[u16],
    voxels: &mut [u32],
    parts: &mut [u64],
) -> Trace
    requires { Taken m g (length densities.now) × (length voxels.old ≡ 600) × (length parts.old ≡ 600) }
    ensures value { (result ≡ traced m g densities.now r) × (result.entries ≤ 600) }
    ensures voxels_after { take result.entries voxels.new ≡ passed m g r }
    ensures parts_after { take result.entries parts.new ≡ map (part_of (volume g) r) (passed m g r) }
{
    trace(m, g, r, densities, voxels, parts)
}

fn put_cell(g: Grid, voxel: u32, part: u64, out: &mut [u8], at: usize) -> usize
    requires { (0 < g.x.n) × (0 < g.y.n) × (at + 89 ≤ length out.old) }
    ensures upper_bound { result ≤ at + 89 }
    ensures out_after { take result out.new ≡ take at out.old ++ cell (volume g) voxel part }
{
    let rows = voxel / g.x.n;
    let i = u64::from(voxel % g.x.n);
    let j = u64::from(rows % g.y.n);
    let k = u64::from(rows / g.y.n);
    put_line(out, at, b"CELL", &[i, j, k, part])
}

fn put_cells(g: Grid, voxels: &[u32], parts: &[u64], out: &mut [u8], at: usize) -> usize
    requires { (0 < g.x.n) × (0 < g.y.n) × (length voxels.now ≡ length parts.now) × (at + 89 * length voxels.now ≤ length out.old) }
    ensures upper_bound { result ≤ at + 89 * length voxels.now }
    ensures out_after { take result out.new ≡ take at out.old ++ cells (volume g) voxels.now parts.now }
{
    let mut to = at;
    for (voxel, part) in voxels.iter().zip(parts) {
        to = put_cell(g, *voxel, *part, out, to);
    }
    to
}

fn put_ray(m: Limits, g: Grid, r: Ray, densities: &[u16], out: &mut [u8], at: usize) -> usize
    requires { Taken m g (length densities.now) × (at + room ≤ length out.old) }
    ensures upper_bound { result ≤ at + room }
    ensures out_after { take result out.new ≡ take at out.old ++ ray_text m g densities.now r }
{
    let mut voxels: [u32; 600] = [0; 600];
    let mut parts: [u64; 600] = [0; 600];
    let t = traced_ray(m, g, r, densities, &mut voxels, &mut parts);
    let n = t.entries;
    let figures = [
        u64::from(t.code),
        n as u64,
        t.crossed,
        t.span,
        t.denominator,
        t.squared,
        t.sum,
    ];
    let to = put_line(out, at, b"RAY", &figures);
    put_cells(g, &voxels[..n], &parts[..n], out, to)
}

pub fn take_ray(st: State, line: &[u8], densities: &[u16], out: &mut [u8], at: usize) -> Moved
    requires { Ready st at (length out.old) × (due st ≡ 2) × (4096 ≤ length densities.now) }
    ensures kept { Kept st at result }
    ensures densities_after { came_to result out.new densities.now ≡ after (take at out.old) (ray_step (stand_of st densities.now) (ray_in (split 9 line.now))) }
{
    let Some(r) = ray_in(line) else {
        return st.refuse(u32::from(Bad::Number), out, at);
    };
    let load = st.load;
    let to = put_ray(
        load.limits,
        load.grid,
        r,
        &densities[..load.filled],
        out,
        at,
    );
    let mut next = st;
    next.rays += 1;
    Moved {
        state: next,
        at: to,
        going: true,
    }
}
