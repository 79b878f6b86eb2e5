// What is worked out of a scene before the walk: D, the window of the array, the first voxel, the strides.
ghost use Rattle.std.specs.Prelude.{◌≡◌, true, ◌&&◌, nat_lt};
ghost use Rattle.axis.specs.Leg.{factor};
ghost use Rattle.ray.specs.declared.axes.Side.{Side};
ghost use Rattle.ray.specs.Side.{of_side};
ghost use Rattle.ray.specs.Length.{leg};
ghost use Rattle.line.specs.Scene.{Able, ray_of};
ghost use Rattle.walk.specs.Plan.{Framed, Strided, Facing, Begun, Planned};

use crate::steps::{Strides, Walk};
use line::reach::Reach;
use line::scene::Scene;
use ray::axes::Axes;

// D, what is left of it without each axis, the ticks at which the ray comes into the array and goes out, and whether it does. The ticks
// are what `Framed` says where it does not, too.
#[derive(Clone, Copy)]
pub struct Frame {
    pub rest: Axes<u64>,
    pub denominator: u64,
    pub from: u64,
    pub to: u64,
    pub hit: bool,
}

#[derive(Clone, Copy)]
pub struct Plan {
    pub walk: Walk,
    pub strides: Strides,
}

fn hits(x: Reach, y: Reach, z: Reach, from: u64, to: u64) -> bool
    ensures { result ≡ (nat_lt from to && (x.held && (y.held && z.held))) }
{
    from < to && x.held && y.held && z.held
}

// The axes' shares in D.
fn factors(s: Scene) -> Axes<u64>
    ensures { (o : Side) → of_side result o ≡ factor (leg (ray_of s) o) }
{
    s.map(|a| a.factor())
}

pub fn frame_of(s: Scene) -> Frame
    requires { Able s }
    ensures { Framed s result }
{
    let f = factors(s);
    let rest = Axes {
        x: f.y * f.z,
        y: f.x * f.z,
        z: f.x * f.y,
    };
    let denominator = f.x * rest.x;
    let x = s.x.reach(rest.x);
    let y = s.y.reach(rest.y);
    let z = s.z.reach(rest.z);
    // (5), times D: every α of (4) is a whole number over D. The paper's 0 is in them already, since `run` stops at 0, and its 1 is D.
    let from = x.from.max(y.from.max(z.from));
    let to = denominator.min(x.to.min(y.to.min(z.to)));
    let hit = hits(x, y, z, from, to);
    Frame {
        rest,
        denominator,
        from,
        to,
        hit,
    }
}

// Equation (7): from plane to plane α grows by d over the difference of the ends, which times D is d times what is left of D.
fn strides_of(s: Scene, f: Frame) -> Strides
    requires { Able s × Framed s f }
    ensures { Strided s f result }
{
    Strides {
        step: Axes {
            x: s.x.d * f.rest.x,
            y: s.y.d * f.rest.y,
            z: s.z.d * f.rest.z,
        },
        jump: Axes {
            x: s.x.jump(1),
            y: s.y.jump(s.x.n),
            z: s.z.jump(s.y.n * s.x.n),
        },
    }
}

// On each axis the first plane after αmin, by equation (6).
fn ahead_of(s: Scene, f: Frame) -> Axes<u64>
    requires { Able s × Framed s f × (f.hit ≡ true) }
    ensures { Facing s f result }
{
    Axes {
        x: s.x.ahead(f.rest.x, f.from),
        y: s.y.ahead(f.rest.y, f.from),
        z: s.z.ahead(f.rest.z, f.from),
    }
}

// Into the first voxel, by the middle of the first stretch, equations (13) and (12). It goes from αmin to the soonest plane after it,
// or to αmax where none lies between; in ticks, so both ends are whole numbers over D.
fn walk_of(s: Scene, f: Frame, first: Axes<u64>) -> Walk
    requires { Able s × Framed s f × (f.hit ≡ true) × Facing s f first }
    ensures { Begun s f result }
{
    let leave = Axes {
        x: s.x.leave_tick(f.rest.x, first.x),
        y: s.y.leave_tick(f.rest.y, first.y),
        z: s.z.leave_tick(f.rest.z, first.z),
    };
    let next = f.to.min(leave.x.min(leave.y.min(leave.z)));
    let i = s.x.index(f.rest.x, f.from, next, first.x);
    let j = s.y.index(f.rest.y, f.from, next, first.y);
    let k = s.z.index(f.rest.z, f.from, next, first.z);
    Walk {
        leave,
        v: (k * s.y.n + j) * s.x.n + i,
        t: f.from,
    }
}

// The walk of a ray that hits.
pub fn plan_of(s: Scene, f: Frame) -> Plan
    requires { Able s × Framed s f × (f.hit ≡ true) }
    ensures planned { Planned s f.to result }
    ensures begun { Begun s f result.walk × Strided s f result.strides }
{
    Plan {
        walk: walk_of(s, f, ahead_of(s, f)),
        strides: strides_of(s, f),
    }
}
