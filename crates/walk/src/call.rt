// The one call of the walk: it fills the lists, and answers all that a trace tells.
ghost use Rattle.std.specs.Prelude.{◌≡◌, ◌^◌, ◌≤◌, length};
ghost use Rattle.ray.specs.Length.{d_of, count};
ghost use Rattle.line.specs.Scene.{Able, volume_of, ray_of};
ghost use Rattle.walk.specs.Model.{Forward, entries, Dense};
ghost use Rattle.walk.specs.Walked.{walked_of, Fitted, Entered};

use crate::entries::{Tally, count, fill};
use crate::order::ordered;
use crate::plan::{Plan, frame_of, plan_of};
use line::scene::{Scene, squared_of};

// What a ray meets of the array. The entries are counted whether or not there is room for them; without room the planes crossed and
// the sum are 0.
#[derive(Clone, Copy)]
pub struct Walked {
    pub entries: usize,
    pub crossed: u64,
    pub span: u64,
    pub denominator: u64,
    pub squared: u64,
    pub sum: u64,
}

// Fills the lists where there is room for all entries. `most` places always suffice, so the entries are counted beforehand only where
// there is less room than that.
fn enter(
    p: Plan,
    to: u64,
    most: usize,
    room: usize,
    densities: &[u16],
    voxels: &mut [u32],
    parts: &mut [u64],
) -> Tally
    requires forward { Forward p.strides to p.walk × (to ≤ 2 ^ 48) }
    requires dense { Dense densities.now (entries p.strides to p.walk) }
    requires enough { length (entries p.strides to p.walk) ≤ most }
    requires room_in_bounds { (room ≤ length voxels.old) × (room ≤ length parts.old) }
    ensures { Entered densities.now (entries p.strides to p.walk) room result voxels.new parts.new voxels.old parts.old }
{
    if room < most {
        let n = count(p.walk, p.strides, to);
        if room < n {
            return Tally {
                entries: n,
                crossed: 0,
                sum: 0,
            };
        }
    }
    fill(p.walk, p.strides, to, densities, voxels, parts)
}

// Walks a scene: the entries go to the front of the two lists, where `room` places are enough for all of them.
pub fn walk(
    s: Scene,
    room: usize,
    densities: &[u16],
    voxels: &mut [u32],
    parts: &mut [u64],
) -> Walked
    requires able { Able s × (d_of (ray_of s) ≤ 2 ^ 48) }
    requires densities_len { length densities.now ≡ count (volume_of s) }
    requires room_in_bounds { (room ≤ length voxels.old) × (room ≤ length parts.old) }
    ensures value { result ≡ walked_of (volume_of s) (ray_of s) densities.now room }
    ensures fitted { Fitted (volume_of s) (ray_of s) room voxels.new parts.new voxels.old parts.old }
{
    let f = frame_of(s);
    let squared = squared_of(s);
    if f.hit {
        let p = ordered(plan_of(s, f));
        let most = (s.x.n + s.y.n + s.z.n - 2) as usize;
        let t = enter(p, f.to, most, room, densities, voxels, parts);
        return Walked {
            entries: t.entries,
            crossed: t.crossed,
            span: f.to - f.from,
            denominator: f.denominator,
            squared,
            sum: t.sum,
        };
    }
    Walked {
        entries: 0,
        crossed: 0,
        span: 0,
        denominator: f.denominator,
        squared,
        sum: 0,
    }
}
