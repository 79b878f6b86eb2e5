// The entries of a walk: how many they are, and the two lists filled with them while the weighted sum is made.
ghost use Rattle.std.specs.Prelude.{◌≡◌, ◌^◌, ◌≤◌, length};
ghost use Rattle.walk.specs.Model.{Forward, entries, Dense, tally_of, Filled};

use crate::steps::{Strides, Walk};

// What is told of the entries: how many, the planes crossed before the last of them, and the sum of part times density.
#[derive(Clone, Copy)]
pub struct Tally {
    pub entries: usize,
    pub crossed: u64,
    pub sum: u64,
}

// How many entries there are up to the tick `to`: no list is needed for that. The walk ends this loop and the next, and no list does.
pub fn count(begin: Walk, s: Strides, to: u64) -> usize
    requires { Forward s to begin }
    ensures { result ≡ length (entries s to begin) }
{
    let mut w = begin;
    let mut r: usize = 0;
    loop {
        let next = w.step(s);
        r += 1;
        if to <= next.t {
            return r;
        }
        w = next;
    }
}

// Puts the entries up to the tick `to` at the front of the two lists. A part is the difference of two neighbouring α of equation
// (10), times D. The sum of equation (14) is made on the way: while one density is fetched, the walk goes on to the next. It is compiled
// by itself, so that how fast a turn is does not hang on what stands around it.
#[inline(never)]
pub fn fill(
    begin: Walk,
    s: Strides,
    to: u64,
    densities: &[u16],
    voxels: &mut [u32],
    parts: &mut [u64],
) -> Tally
    requires forward { Forward s to begin × (to ≤ 2 ^ 48) }
    requires dense { Dense densities.now (entries s to begin) }
    requires voxels_room { length (entries s to begin) ≤ length voxels.old }
    requires parts_room { length (entries s to begin) ≤ length parts.old }
    ensures value { result ≡ tally_of densities.now (entries s to begin) }
    ensures filled { Filled (entries s to begin) voxels.new parts.new voxels.old parts.old }
{
    let mut w = begin;
    let mut r: usize = 0;
    let mut sum: u64 = 0;
    loop {
        let next = w.step(s);
        let voxel = w.v % 4294967296;
        let density = densities[voxel as usize] as u64;
        voxels[r] = voxel as u32;
        if to <= next.t {
            let part = to - w.t;
            parts[r] = part;
            let sum = sum + part * density;
            return Tally {
                entries: r + 1,
                crossed: w.v / 4294967296,
                sum,
            };
        }
        let part = next.t - w.t;
        parts[r] = part;
        sum += part * density;
        r += 1;
        w = next;
    }
}
