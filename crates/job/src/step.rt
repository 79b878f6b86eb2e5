// The job, a line at a time.
ghost use Rattle.std.specs.Prelude.{◌≡◌, List, ◌++◌, ℕ, ◌+◌, ◌^◌, ◌≤◌, ◌<◌, length, take};
ghost use Rattle.load.specs.Cut.{Begun};
ghost use Rattle.job.specs.Stand.{stand_of};
ghost use Rattle.job.specs.Line.{line_step};
ghost use Rattle.job.specs.Job.{job_from};
ghost use Rattle.job.specs.Sound.{Buffers, room};
ghost use Rattle.job.specs.Move.{Ready, Kept, came_to, after, read};
ghost use Rattle.job.specs.InAll.{held, Pumping};

use crate::rays::take_ray;
use crate::state::{Moved, State};
use load::bad::put_bad;
use load::cut::{Cut, cut_line};
use load::refusal::Bad;
use text::put::put_line;
use text::word::Kind;

// The most bytes that one line prints: whoever lends the output leaves so much room behind `at`.
pub const ROOM: usize = 53551;

// Answers a line of at most 4096 bytes, its LF left out. A RAY line has seven fields.
fn take_line(st: State, line: &[u8], densities: &mut [u16], out: &mut [u8], at: usize) -> Moved
    requires { Ready st at (length out.old) × (4096 ≤ length densities.old) × (length line.now ≤ 4096) }
    ensures kept { Kept st at result }
    ensures densities_after { came_to result out.new densities.new ≡ after (take at out.old) (line_step (stand_of st densities.old) line.now) }
{
    match load::line::take_line(st.load, line, b"RAY", 7, densities) {
        Ok(Some(load)) => Moved {
            state: State {
                load,
                rays: st.rays,
                have: st.have,
            },
            at,
            going: true,
        },
        Ok(None) => take_ray(st, line, densities, out, at),
        Err(bad) => st.refuse(u32::from(bad), out, at),
    }
}

// What a piece of the input moved the job to, and where in the piece it goes on.
#[derive(Clone, Copy)]
pub struct Pumped {
    pub moved: Moved,
    pub next: usize,
}

// Takes in the piece from `from` on, up to the end of one line, and answers that line behind `at`.
// Whatever comes later, the job prints what is printed here, and what it prints from where it then
// stands. How the input is cut into pieces does not matter.
pub fn pump(
    st: State,
    line: &mut [u8],
    piece: &[u8],
    from: usize,
    densities: &mut [u16],
    out: &mut [u8],
    at: usize,
) -> Pumped
    requires { Begun st.have line.old × Buffers line.old densities.old out.old × Ready st at (length out.old) × (from ≤ length piece.now) }
    ensures from_lt_next { from < length piece.now → from < result.next }
    ensures pumping { Pumping st at from piece.now (held line.old densities.old out.old) result (held line.new densities.new out.new) }
{
    let end = piece.len();
    let mut fresh = st;
    fresh.have = 0;
    match cut_line(line, st.have, piece, from) {
        Cut::Line { len, next } => {
            let moved = take_line(fresh, &line[..len], densities, out, at);
            Pumped { moved, next }
        },
        Cut::More { len } => {
            fresh.have = len;
            Pumped {
                moved: Moved {
                    state: fresh,
                    at,
                    going: true,
                },
                next: end,
            }
        },
        Cut::Long => {
            let moved = fresh.refuse(u32::from(Bad::Long), out, at);
            Pumped { moved, next: end }
        },
    }
}

// Answers the end of the input. A line that the input stops in has the code of one that is too long.
pub fn finish(st: State, out: &mut [u8], at: usize) -> usize
    requires { (at + room ≤ length out.old) × (read st + st.have < 2 ^ 64) }
    ensures upper_bound { result ≤ at + room }
    ensures printed { (line densities : List ℕ) → Begun st.have line → take result out.new ≡ take at out.old ++ job_from (stand_of st densities) (take st.have line) }
{
    let lines = st.load.lines + st.rays;
    if st.have != 0 {
        return put_bad(lines, u32::from(Bad::Long), out, at);
    }
    if st.load.due() != Kind::Own {
        return put_bad(lines, u32::from(Bad::Due), out, at);
    }
    put_line(out, at, b"END", &[st.rays])
}
