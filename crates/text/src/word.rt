// The first word of a line.
ghost use Rattle.std.specs.Prelude.{◌≡◌, [], get_or};
ghost use Rattle.text.specs.Split.{split};
ghost use Rattle.text.specs.Word.{word_of};

use crate::fields::{Span, field};

// The kinds of line: the loader's two, and the program's own.
#[derive(Clone, Copy, PartialEq, Eq)]
pub enum Kind {
    Grid,
    Dens,
    Own,
}

// The kind of line that the first field is the word of, byte for byte.
pub fn first_word(line: &[u8], own: &[u8]) -> Option<Kind>
    ensures { result ≡ word_of own.now (get_or (split 9 line.now) 0 []) }
{
    let Span { start, end } = field(line, 0);
    let word = &line[start..end];
    if word == b"GRID".as_slice() {
        return Some(Kind::Grid);
    }
    if word == b"DENS".as_slice() {
        return Some(Kind::Dens);
    }
    if word == own {
        return Some(Kind::Own);
    }
    None
}
