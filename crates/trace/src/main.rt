// The text job on standard input and standard output, in constant memory: a piece of the input at a
// time.
//
// What is promised ends where bytes leave memory: `feed` fixes every byte of out[..at], and `drain`
// that the job goes on right behind the piece. That out[..at] is what is written, each time and in
// this order, no contract can say; compare/jobs.py compares it.
#![tactic(auto)]

ghost use Rattle.std.specs.Prelude.{◌+◌, ◌^◌, ◌≤◌, ◌<◌, length, IfOk};
ghost use Rattle.load.specs.Cut.{Begun};
ghost use Rattle.job.specs.Sound.{Buffers};
ghost use Rattle.job.specs.Move.{read};
ghost use Rattle.trace.specs.Behind.{Behind};

use axis::Axis;
use job::feed::feed;
use job::state::State;
use job::step::finish;
use std::io::{self, ErrorKind, Read, Write};
use std::process::ExitCode;

// Lines have numbers of 64 bits, a piece of 65536 bytes has at most as many lines, and few lines stand
// ahead of the rays.
const RAYS_MAX: u64 = 18446744073709420544;

// The status of a program that SIGPIPE ended, as a shell has it: the number of the signal, and 128.
const SIGPIPE_STATUS: u8 = 141;

// Why no more of the input is answered.
#[derive(Clone, Copy)]
pub enum Stop {
    // The job is over.
    Over,
    // Whoever reads what is written has gone away.
    Deserted,
    // What went wrong, as it is told.
    Failed(&'static [u8]),
}

// Writes all of the bytes, and holds none of them back, unless a write fails or takes nothing. No
// write is tried again; the library's write_all would try one that was interrupted.
fn put<W: Write>(to: &mut W, bytes: &[u8]) -> io::Result<()> {
    let mut rest = bytes;
    while !rest.is_empty() {
        match to.write(rest)? {
            0 => return Err(ErrorKind::WriteZero.into()),
            n => rest = &rest[n..],
        }
    }
    to.flush()
}

fn unwritten(e: io::Error) -> Stop {
    if e.kind() == ErrorKind::BrokenPipe {
        Stop::Deserted
    } else {
        Stop::Failed(b"trace: cannot write to standard output\n")
    }
}

// Answers a piece of the input, and writes the answers.
fn drain<W: Write>(
    output: &mut W,
    st: State,
    line: &mut [u8],
    piece: &[u8],
    densities: &mut [u16],
    out: &mut [u8],
) -> Result<State, Stop>
    requires lent { Begun st.have line.old × Buffers line.old densities.old out.old }
    requires number { read st + length piece.now < 2 ^ 64 }
    ensures { IfOk result (λ now. Behind st line.old densities.old piece.now now line.new densities.new) }
{
    let mut here = st;
    let mut next = 0;
    while next < piece.len() {
        let p = feed(here, line, piece, next, densities, out);
        let m = p.moved;
        put(output, &out[..m.at]).map_err(unwritten)?;
        if !m.going {
            return Err(Stop::Over);
        }
        here = m.state;
        next = p.next;
    }
    Ok(here)
}

// Reads a piece of the input and answers it, or answers the end of the input.
fn turn<R: Read, W: Write>(
    input: &mut R,
    output: &mut W,
    st: State,
    piece: &mut [u8],
    line: &mut [u8],
    densities: &mut [u16],
    out: &mut [u8],
) -> Result<State, Stop>
    requires lent { Begun st.have line.old × Buffers line.old densities.old out.old }
    requires piece_len_bound { length piece.old ≤ 65536 }
    ensures { IfOk result (λ now. Begun now.have line.new) }
{
    if RAYS_MAX < st.rays {
        return Err(Stop::Failed(b"trace: more lines than can be numbered\n"));
    }
    let Ok(n) = input.read(piece) else {
        return Err(Stop::Failed(b"trace: cannot read standard input\n"));
    };
    if n == 0 {
        let end = finish(st, out, 0);
        put(output, &out[..end]).map_err(unwritten)?;
        return Err(Stop::Over);
    }
    drain(output, st, line, &piece[..n], densities, out)
}

// A proved loop has to end, and nothing says that the input does: the reads are counted up to a number
// that no run uses up.
fn serve<R: Read, W: Write>(
    input: &mut R,
    output: &mut W,
    piece: &mut [u8],
    line: &mut [u8],
    densities: &mut [u16],
    out: &mut [u8],
) -> Stop
    requires buffers { Buffers line.old densities.old out.old }
    requires piece_len_bound { length piece.old ≤ 65536 }
{
    let mut st = State::new(Axis::TENTHS);
    for _ in 0..u64::MAX {
        match turn(input, output, st, piece, line, densities, out) {
            Ok(now) => st = now,
            Err(stop) => return stop,
        }
    }
    Stop::Failed(b"trace: more input than can be counted\n")
}

// Every Rattle program ignores SIGPIPE, so that to write where nobody reads any more is an error. It
// ends this program as the signal would: without a word, and with its status.
fn main(rt: HostRuntime) -> ExitCode {
    let mut input = rt.stdin();
    let mut output = rt.stdout();
    let mut piece: [u8; 65536] = [0; 65536];
    let mut line: [u8; 4096] = [0; 4096];
    let mut densities: [u16; 4096] = [0; 4096];
    let mut out: [u8; 131072] = [0; 131072];
    let stop = serve(
        &mut input,
        &mut output,
        &mut piece,
        &mut line,
        &mut densities,
        &mut out,
    );
    let deserted = match stop {
        Stop::Over => false,
        Stop::Deserted => true,
        Stop::Failed(why) => {
            put(&mut rt.stderr(), why).is_err_and(|e| e.kind() == ErrorKind::BrokenPipe)
        },
    };
    if deserted {
        ExitCode::from(SIGPIPE_STATUS)
    } else {
        ExitCode::SUCCESS
    }
}
