// The calls at the limits of any device that suits.
ghost use Rattle.std.specs.Prelude.{◌≡◌, cond};
ghost use Rattle.tracing.specs.Answer.{lists, Answers};
ghost use Rattle.tracing.specs.Inside.{Suited, trace_of, AnswersWhen};

use crate::Trace;
use crate::accept::front;
use axis::Limits;
use axis::refusal::Refusal;
use line::scene::scene_of;
use ray::{Grid, Lent, Ray};
use walk::call::walk;

fn room_of(ready: bool, places: usize) -> usize
    ensures { result ≡ cond ready places 0 }
{
    if ready { places } else { 0 }
}

// Traces one ray into the front of the two lent lists where `ready`, and else only finds what the trace would be refused for. It has one
// way down for both: so all of it but the filling is compiled into the call that uses it.
fn traced(
    m: Limits,
    g: Grid,
    r: Ray,
    densities: &[u16],
    voxels: &mut [u32],
    parts: &mut [u64],
    ready: bool,
) -> Result<Trace, Refusal>
    requires { Suited m }
    ensures { AnswersWhen ready m g r (lists densities.now voxels.old parts.old 0) (trace_of result) voxels.new parts.new }
{
    let lent = Lent {
        densities: densities.len(),
        voxels: voxels.len(),
        parts: parts.len(),
        filled: 0,
    };
    front(m, g, r, lent)?;
    let s = scene_of(m, g, r);
    let room = room_of(ready, lent.voxels);
    let w = walk(s, room, densities, voxels, parts);
    if lent.voxels < w.entries {
        return Err(Refusal::Room);
    }
    if ready {
        return Ok(Trace {
            entries: w.entries,
            crossed: w.crossed,
            span: w.span,
            denominator: w.denominator,
            squared: w.squared,
            sum: w.sum,
            code: 0,
        });
    }
    Ok(Trace::default())
}

// The same, a refusal told as a trace.
pub fn trace_when(
    m: Limits,
    g: Grid,
    r: Ray,
    densities: &[u16],
    voxels: &mut [u32],
    parts: &mut [u64],
    ready: bool,
) -> Trace
    requires { Suited m }
    ensures { AnswersWhen ready m g r (lists densities.now voxels.old parts.old 0) result voxels.new parts.new }
{
    traced(m, g, r, densities, voxels, parts, ready).unwrap_or_else(Trace::from)
}

// Traces one ray into the front of the two lent lists.
pub fn trace(
    m: Limits,
    g: Grid,
    r: Ray,
    densities: &[u16],
    voxels: &mut [u32],
    parts: &mut [u64],
) -> Trace
    requires { Suited m }
    ensures { Answers m g r (lists densities.now voxels.old parts.old 0) result voxels.new parts.new }
{
    trace_when(m, g, r, densities, voxels, parts, true)
}

// A trace behind the first `filled` places of the lists, of which it touches none.
pub fn append(
    m: Limits,
    g: Grid,
    r: Ray,
    densities: &[u16],
    voxels: &mut [u32],
    parts: &mut [u64],
    filled: usize,
) -> Trace
    requires { Suited m }
    ensures { Answers m g r (lists densities.now voxels.old parts.old filled) result voxels.new parts.new }
{
    if filled <= voxels.len() && filled <= parts.len() {
        return trace(
            m,
            g,
            r,
            densities,
            &mut voxels[filled..],
            &mut parts[filled..],
        );
    }
    let lent = Lent {
        densities: densities.len(),
        voxels: voxels.len(),
        parts: parts.len(),
        filled,
    };
    match front(m, g, r, lent) {
        // More places are said to be filled than there are: not even a miss has room.
        Ok(()) => Trace::from(Refusal::Room),
        Err(e) => Trace::from(e),
    }
}
