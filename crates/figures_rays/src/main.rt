// The rays of RULES 11, limits and codes, run: a line is what was tried, the code and the six numbers, and both lists whole, so
// that places which must stay as they were are seen.
#![tactic(auto)]

ghost use Rattle.std.specs.Prelude.{◌≤◌};

use axis::Axis;
use ray::{End, Grid, Ray};
use std::{io, iter};
use tracing::Trace;
use tracing::calls::{append, trace};

// The densities of the bench grid.
const SIX: [u16; 6] = [1, 2, 3, 4, 5, 6];

// The bench grid with another axis of x.
fn with_x(n: u32, d: u32, b: i32) -> Grid {
    Grid {
        x: Axis { n, d, b },
        y: Axis { n: 2, d: 10, b: 0 },
        z: Axis { n: 1, d: 10, b: 0 },
    }
}

fn bench_grid() -> Grid {
    with_x(3, 10, 0)
}

fn ray(p: [i32; 3], q: [i32; 3]) -> Ray {
    let [px, py, pz] = p;
    let [qx, qy, qz] = q;
    Ray {
        p: End::new(px, py, pz),
        q: End::new(qx, qy, qz),
    }
}

// Rays A, C and G of the table.
fn ray_a() -> Ray {
    ray([-10, 5, 5], [40, 5, 5])
}

fn ray_c() -> Ray {
    ray([0, 0, 5], [30, 20, 5])
}

fn ray_g() -> Ray {
    ray([-10, 10, 5], [10, -10, 5])
}

// Both lists, place by place; a place that the second lacks as 0.
fn places(rt: &impl Print, voxels: &[u32], parts: &[u64]) -> io::Result<()> {
    for (voxel, part) in voxels.iter().zip(parts.iter().chain(iter::repeat(&0))) {
        print!(rt; " {voxel}:{part}")?;
    }
    Ok(())
}

fn say(rt: &impl Print, tried: &str, a: Trace, voxels: &[u32], parts: &[u64]) -> io::Result<()> {
    let Trace {
        entries,
        crossed,
        span,
        denominator,
        squared,
        sum,
        code,
    } = a;
    print!(rt; "{tried} {code} {entries} {crossed} {span} {denominator} {squared} {sum} |")?;
    places(rt, voxels, parts)?;
    rt.print("\n")
}

// A ray with lists of V and of P places that hold 9 and 99 before.
fn run<const V: usize, const P: usize>(
    rt: &impl Print,
    tried: &str,
    g: Grid,
    r: Ray,
    densities: &[u16],
) -> io::Result<()>
    requires { (V ≤ 9) × (P ≤ 9) }
{
    let mut voxels = [9u32; V];
    let mut parts = [99u64; P];
    let a = trace(g, r, densities, &mut voxels, &mut parts);
    say(rt, tried, a, &voxels, &parts)
}

// A ray on the bench grid, with lists of N places.
fn bench<const N: usize>(rt: &impl Print, tried: &str, r: Ray) -> io::Result<()>
    requires { N ≤ 9 }
{
    run::<N, N>(rt, tried, bench_grid(), r, &SIX)
}

fn table(rt: &impl Print) -> io::Result<()> {
    bench::<5>(rt, "A", ray_a())?;
    bench::<5>(rt, "B", ray([40, 5, 5], [-10, 5, 5]))?;
    bench::<5>(rt, "C", ray_c())?;
    bench::<5>(rt, "D", ray([0, 0, 5], [20, 20, 5]))?;
    bench::<5>(rt, "E", ray([10, -10, 5], [10, 30, 5]))?;
    bench::<5>(rt, "F", ray([30, -10, 5], [30, 30, 5]))?;
    bench::<5>(rt, "G", ray_g())?;
    bench::<5>(rt, "H", ray([12, 3, 5], [17, 3, 5]))?;
    bench::<5>(rt, "I", ray([5, 5, 5], [10, 5, 5]))?;
    bench::<5>(rt, "J", ray([10, 5, 5], [5, 5, 5]))
}

// Still in the far plane of x and turned round; of z, which has one voxel; of x and y at once. Then with a place too few.
fn far_faces(rt: &impl Print) -> io::Result<()> {
    bench::<5>(rt, "F turned", ray([30, 30, 5], [30, -10, 5]))?;
    bench::<5>(rt, "far z", ray([-10, 5, 10], [40, 5, 10]))?;
    bench::<5>(rt, "far x and y", ray([30, 20, -10], [30, 20, 20]))?;
    bench::<1>(rt, "F in 1", ray([30, -10, 5], [30, 30, 5]))
}

// n 8, d 4096, b -16384, all densities 65535, corner to corner.
fn corners(rt: &impl Print) -> io::Result<()> {
    let x = Axis {
        n: 8,
        d: 4096,
        b: -16384,
    };
    let g = Grid { x, y: x, z: x };
    let r = ray([-16384; 3], [16384; 3]);
    run::<9, 9>(rt, "corner to corner", g, r, &[65535; 512])
}

// Ray C with lists of four places and of three, and a miss with none.
fn room(rt: &impl Print) -> io::Result<()> {
    bench::<4>(rt, "C in 4", ray_c())?;
    bench::<3>(rt, "C in 3", ray_c())?;
    bench::<0>(rt, "G in 0", ray_g())
}

// One refused, with lists of two places.
fn refused(rt: &impl Print, tried: &str, g: Grid, r: Ray, densities: &[u16]) -> io::Result<()> {
    run::<2, 2>(rt, tried, g, r, densities)
}

fn codes(rt: &impl Print) -> io::Result<()> {
    let a = ray_a();
    let far = ray([-10, 5, 5], [16385, 5, 5]);
    let same = ray([-10, 5, 5], [-10, 5, 5]);
    refused(rt, "n 513", with_x(513, 10, 0), a, &SIX)?;
    refused(rt, "d 4097", with_x(3, 4097, 0), a, &SIX)?;
    refused(rt, "b 16385", with_x(3, 10, 16385), a, &SIX)?;
    refused(rt, "five densities", bench_grid(), a, &SIX[..5])?;
    refused(rt, "end 16385", bench_grid(), far, &SIX)?;
    refused(rt, "equal ends", bench_grid(), same, &SIX)?;
    refused(rt, "three entries", bench_grid(), a, &SIX)?;
    refused(rt, "n 0 and all else", with_x(0, 0, 16385), far, &SIX[..5])?;
    run::<5, 4>(rt, "lists of 5 and 4", bench_grid(), a, &SIX)
}

// A ray on the bench grid behind the first places of the lists.
fn behind(
    rt: &impl Print,
    tried: &str,
    r: Ray,
    voxels: &mut [u32],
    parts: &mut [u64],
    filled: usize,
) -> io::Result<()> {
    let a = append(bench_grid(), r, &SIX, voxels, parts, filled);
    say(rt, tried, a, voxels, parts)
}

// Several rays into one pair of lists: A, then C, then one for which there is no room left.
fn several(rt: &impl Print) -> io::Result<()> {
    let mut voxels = [9u32; 8];
    let mut parts = [99u64; 8];
    behind(rt, "append A at 0", ray_a(), &mut voxels, &mut parts, 0)?;
    behind(rt, "append C at 3", ray_c(), &mut voxels, &mut parts, 3)?;
    behind(rt, "append A at 7", ray_a(), &mut voxels, &mut parts, 7)?;
    behind(rt, "append A at 9", ray_a(), &mut voxels, &mut parts, 9)
}

// A miss behind lists that are full, and with more places filled than there are.
fn missing_behind(rt: &impl Print) -> io::Result<()> {
    let mut voxels = [9u32; 2];
    let mut parts = [99u64; 2];
    behind(rt, "append G at 2", ray_g(), &mut voxels, &mut parts, 2)?;
    behind(rt, "append G at 3", ray_g(), &mut voxels, &mut parts, 3)
}

fn main(rt: HostRuntime) -> io::Result<()> {
    table(&rt)?;
    far_faces(&rt)?;
    corners(&rt)?;
    room(&rt)?;
    codes(&rt)?;
    several(&rt)?;
    missing_behind(&rt)
}
