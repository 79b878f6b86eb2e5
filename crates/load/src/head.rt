// What is wrong with a line before its numbers are read.
ghost use Rattle.std.specs.Prelude.{◌≡◌};
ghost use Rattle.axis.specs.Codes.{first};
ghost use Rattle.text.specs.Split.{split};
ghost use Rattle.load.specs.Loaded.{kind_number};
ghost use Rattle.load.specs.Line.{fields_of, head_rows};
ghost use Rattle.load.specs.Refusal.{bad_number_of};

use crate::refusal::Bad;
use text::fields::count;
use text::word::{Kind, first_word};

fn fields_of(kind: Kind, nx: u32, own: usize) -> usize
    ensures { result ≡ fields_of own nx (kind_number kind) }
{
    match kind {
        Kind::Grid => 10,
        Kind::Dens => nx as usize + 1,
        Kind::Own => own,
    }
}

// The word, and so the kind, and the number of fields of a line where one of this kind is due.
pub fn check_head(line: &[u8], due: Kind, nx: u32, word: &[u8], fields: usize) -> Result<(), Bad>
    ensures { bad_number_of result ≡ first (head_rows word.now fields (kind_number due) nx (split 9 line.now)) }
{
    let kind = first_word(line, word).ok_or(Bad::Word)?;
    if kind != due {
        return Err(Bad::Due);
    }
    if count(line) != fields_of(due, nx, fields) {
        return Err(Bad::Fields);
    }
    Ok(())
}
