// The trace with its answer in a list of six.
ghost use Rattle.std.specs.Prelude.{◌≡◌};
ghost use Rattle.tracing.specs.Answer.{lists};
ghost use Rattle.tracing.specs.Inside.{Suited};
ghost use Rattle.ilvoresta.specs.Entry.{six_of, Traced};

use crate::fill::fill;
use axis::Limits;
use ray::{Grid, Ray};
use tracing::Trace;
use tracing::device::trace_when;

// The numbers of RULES 5 from entries on.
pub fn six_of(t: Trace) -> [u64; 6]
    ensures { result ≡ six_of t }
{
    [
        t.entries as u64,
        t.crossed,
        t.span,
        t.denominator,
        t.squared,
        t.sum,
    ]
}

// Where the answer list has another length nothing may be written: then the trace is only asked for its code.
pub fn trace_into(
    m: Limits,
    g: Grid,
    r: Ray,
    densities: &[u16],
    voxels: &mut [u32],
    parts: &mut [u64],
    answer: &mut [u64],
) -> u32
    requires { Suited m }
    ensures { Traced m g r (lists densities.now voxels.old parts.old 0) answer.old result voxels.new parts.new answer.new }
{
    let t = trace_when(m, g, r, densities, voxels, parts, answer.len() == 6);
    if t.code != 0 {
        return t.code;
    }
    fill(six_of(t), answer)
}
