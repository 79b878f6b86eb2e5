// A line, as the loader takes it.
ghost use Rattle.std.specs.Prelude.{◌≡◌, ◌≤◌, length, OnErr};
ghost use Rattle.load.specs.Loaded.{loaded_of};
ghost use Rattle.load.specs.Line.{line_read};
ghost use Rattle.load.specs.Read.{reading_of};
ghost use Rattle.load.specs.Sound.{Sound, Kept};

use crate::dens::take_dens;
use crate::grid::take_grid;
use crate::head::check_head;
use crate::refusal::Bad;
use crate::state::Load;
use text::word::Kind;

// Takes in a line of at most 4096 bytes, its LF left out. Lines of the program's own kind begin with
// `word` and have `fields` fields; where one is due and has them, it is left to the program, by None.
#[tactic(auto, unfolding(crate::specs::Line::line_read, crate::specs::Line::numbers_read))]
pub fn take_line(
    st: Load,
    line: &[u8],
    word: &[u8],
    fields: usize,
    densities: &mut [u16],
) -> Result<Option<Load>, Bad>
    requires { Sound st × (4096 ≤ length densities.old) × (length line.now ≤ 4096) }
    ensures kept { Kept st result }
    ensures reading { reading_of st result densities.new ≡ line_read word.now fields (loaded_of st densities.old) line.now }
    ensures refused { OnErr result (densities.new ≡ densities.old) }
{
    let due = st.due();
    check_head(line, due, st.grid.x.n, word, fields)?;
    match due {
        Kind::Grid => Ok(Some(take_grid(st, line)?)),
        Kind::Dens => Ok(Some(take_dens(st, line, densities)?)),
        Kind::Own => Ok(None),
    }
}
