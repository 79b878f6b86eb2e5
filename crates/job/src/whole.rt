// The whole job on an input that lies in memory: one promise, bytes in and bytes out.
ghost use Rattle.std.specs.Prelude.{◌≡◌, ◌+◌, ◌≤◌, length, take};
ghost use Rattle.axis.specs.Codes.{tenths};
ghost use Rattle.load.specs.Cut.{Begun};
ghost use Rattle.job.specs.Stand.{stand_of};
ghost use Rattle.job.specs.Job.{job_from, job_of};
ghost use Rattle.job.specs.Sound.{Buffers};
ghost use Rattle.job.specs.Move.{read};
ghost use Rattle.job.specs.InAll.{held, Turned};
ghost use Rattle.job.specs.Read.{written, Wrote};

use crate::feed::feed;
use crate::state::{Moved, State};
use crate::step::{Pumped, ROOM, finish};
use axis::Axis;
use text::put::put_bytes;

// The next part of the job's output, from the start of answer: what the input from `next` on is
// answered, or the end of the input.
fn turn(
    st: State,
    line: &mut [u8],
    input: &[u8],
    next: usize,
    densities: &mut [u16],
    answer: &mut [u8],
) -> Pumped
    requires lent { Begun st.have line.old × Buffers line.old densities.old answer.old }
    requires number { (next ≤ length input.now) × (read st + st.have ≤ next) }
    ensures { Turned input.now st next (held line.old densities.old answer.old) result (held line.new densities.new answer.new) }
{
    if next < input.len() {
        return feed(st, line, input, next, densities, answer);
    }
    let at = finish(st, answer, 0);
    Pumped {
        moved: Moved {
            state: st,
            at,
            going: false,
        },
        next,
    }
}

// Writes what the job prints from its first line on, and says how many bytes that is; None where
// the room does not suffice. The output goes through `answer`, so that it is known to fit before it
// is put behind the rest.
fn run(
    st: State,
    input: &[u8],
    line: &mut [u8],
    densities: &mut [u16],
    answer: &mut [u8],
    out: &mut [u8],
) -> Option<usize>
    requires unread { (read st ≡ 0) × (st.have ≡ 0) }
    requires buffers { Buffers line.old densities.old answer.old }
    ensures { Wrote (job_from (stand_of st densities.old) input.now) (length out.old) out.new result }
{
    let mut here = st;
    let mut next = 0;
    let mut to = 0;
    loop {
        let p = turn(here, line, input, next, densities, answer);
        let m = p.moved;
        if out.len() - to < m.at {
            return None;
        }
        to = put_bytes(out, to, &answer[..m.at]);
        if !m.going {
            return Some(to);
        }
        here = m.state;
        next = p.next;
    }
}

// Writes what the job prints on this input, in tenths of a millimetre, into out, and says how many
// bytes that is; None where out has no room for all of it.
pub fn job(input: &[u8], out: &mut [u8]) -> Option<usize>
    ensures value { result ≡ written (job_of tenths input.now) (length out.old) }
    ensures out_after { length (job_of tenths input.now) ≤ length out.old → take (length (job_of tenths input.now)) out.new ≡ job_of tenths input.now }
{
    let mut line: [u8; 4096] = [0; 4096];
    let mut densities: [u16; 4096] = [0; 4096];
    let mut answer: [u8; ROOM] = [0; ROOM];
    let st = State::new(Axis::TENTHS);
    run(st, input, &mut line, &mut densities, &mut answer, out)
}
