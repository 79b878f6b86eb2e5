// Lines out of pieces of the input.
ghost use Rattle.std.specs.Prelude.{◌≤◌, length, take};
ghost use Rattle.load.specs.Cut.{Begun, CutInto};

use text::fields::len_until;

// What a piece did to the line that has begun.
#[derive(Clone, Copy)]
pub enum Cut {
    // It ended: len bytes, and next is behind its LF.
    Line { len: usize, next: usize },
    // The piece is used up, and the line has len bytes so far.
    More { len: usize },
    // It has more than 4096 bytes.
    Long,
}

// Moves the piece's bytes from `from` on behind the first `have` of the line, up to the next LF.
pub fn cut_line(line: &mut [u8], have: usize, piece: &[u8], from: usize) -> Cut
    requires { Begun have line.old × (4096 ≤ length line.old) × (from ≤ length piece.now) }
    ensures { CutInto result (take have line.old) piece.now from line.new }
{
    let rest = &piece[from..];
    // A byte more than a line takes tells that it is too long, however much follows.
    let n = len_until(&rest[..rest.len().min(4097 - have)], b'\n');
    if 4096 - have < n {
        return Cut::Long;
    }
    let len = have + n;
    line[have..len].copy_from_slice(&rest[..n]);
    if n < rest.len() {
        return Cut::Line {
            len,
            next: from + n + 1,
        };
    }
    Cut::More { len }
}
