// The loop over lines: what the program and the whole job in memory both run.
ghost use Rattle.std.specs.Prelude.{◌≡◌, false, ◌+◌, ◌^◌, ◌≤◌, ◌<◌, length};
ghost use Rattle.load.specs.Cut.{Begun};
ghost use Rattle.job.specs.Sound.{Buffers};
ghost use Rattle.job.specs.Move.{read};
ghost use Rattle.job.specs.InAll.{held, Pumping, another};

use crate::state::{Moved, State};
use crate::step::{Pumped, ROOM, pump};

// Whether another line is answered: the job goes on, the piece has bytes left, and out has room.
fn another(p: Pumped, piece: usize, out: usize) -> bool
    requires { p.moved.at ≤ out }
    ensures { result ≡ another p piece out }
{
    let m = p.moved;
    m.going && p.next < piece && ROOM <= out - m.at
}

// Answers line after line from the start of out, until the piece is used up, the job stops, or out
// has no room for another answer. What then stands ahead of `at` is what the job prints next.
pub fn feed(
    st: State,
    line: &mut [u8],
    piece: &[u8],
    from: usize,
    densities: &mut [u16],
    out: &mut [u8],
) -> Pumped
    requires lent { Begun st.have line.old × Buffers line.old densities.old out.old }
    requires number { (from ≤ length piece.now) × (read st + length piece.now < 2 ^ 64 + from) }
    ensures from_lt_next { from < length piece.now → from < result.next }
    ensures out_value { another result (length piece.now) (length out.old) ≡ false }
    ensures pumping { Pumping st 0 from piece.now (held line.old densities.old out.old) result (held line.new densities.new out.new) }
{
    let mut p = Pumped {
        moved: Moved {
            state: st,
            at: 0,
            going: true,
        },
        next: from,
    };
    while another(p, piece.len(), out.len()) {
        let m = p.moved;
        p = pump(m.state, line, piece, p.next, densities, out, m.at);
    }
    p
}
