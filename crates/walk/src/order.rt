// The axes of a walk in the order of their strides. The entries are the same in any order; but the axis that is crossed most often is
// then always tested first, whatever the ray, so that the machine foresees more of the turns.
ghost use Rattle.std.specs.Prelude.{◌≡◌, cond};
ghost use Rattle.walk.specs.Order.{exchange_of, ordered_of};

use crate::plan::Plan;
use crate::steps::{Strides, Walk};
use ray::axes::Axes;
use std::hint::select_unpredictable;

// One axis of a walk: the tick at which the voxel is left, the ticks from plane to plane, and what a plane crossed adds to v.
#[derive(Clone, Copy)]
pub struct Track {
    pub leave: u64,
    pub step: u64,
    pub jump: u64,
}

// One of two tracks, chosen number by number: of a track as a whole the compiler makes a branch.
fn chosen(first: bool, a: Track, b: Track) -> Track
    ensures { result ≡ cond first a b }
{
    Track {
        leave: select_unpredictable(first, a.leave, b.leave),
        step: select_unpredictable(first, a.step, b.step),
        jump: select_unpredictable(first, a.jump, b.jump),
    }
}

// Which of two is the first is as hard to foresee as the turns, so it is not branched on.
fn exchange(a: Track, b: Track) -> (Track, Track)
    ensures { result ≡ exchange_of a b }
{
    let turned = b.step < a.step;
    (chosen(turned, b, a), chosen(turned, a, b))
}

pub fn ordered(p: Plan) -> Plan
    ensures { result ≡ ordered_of p }
{
    let Plan {
        walk: w,
        strides: s,
    } = p;
    let Axes { x, y, z } = w
        .leave
        .zip(s.step.zip(s.jump))
        .map(|(leave, (step, jump))| Track { leave, step, jump });
    let (x, y) = exchange(x, y);
    let (y, z) = exchange(y, z);
    let (x, y) = exchange(x, y);
    let tracks = Axes { x, y, z };
    Plan {
        walk: Walk {
            leave: tracks.map(|a| a.leave),
            ..w
        },
        strides: Strides {
            step: tracks.map(|a| a.step),
            jump: tracks.map(|a| a.jump),
        },
    }
}
