// A DENS line.
ghost use Rattle.std.specs.Prelude.{◌≡◌, ◌≤◌, ◌<◌, length, IfOk, OnErr};
ghost use Rattle.text.specs.Split.{split};
ghost use Rattle.text.specs.Numbers.{natural_to};
ghost use Rattle.load.specs.Loaded.{loaded_of};
ghost use Rattle.load.specs.Numbers.{dens_in};
ghost use Rattle.load.specs.Line.{dens_read};
ghost use Rattle.load.specs.Read.{taking_of};
ghost use Rattle.load.specs.Sound.{Sound, Further};

use crate::refusal::Bad;
use crate::state::Load;
use text::number::natural_in;
use text::numbers::{Reader, numbers};

// A density fits 16 bits.
#[derive(Clone, Copy)]
struct Density;

impl Reader for Density {
    type Number = u16;

    ghost reads = { λ _. natural_to 65535 };

    fn read(&self, t: &[u8]) -> Option<u16> {
        u16::try_from(natural_in(t)?).ok()
    }
}

#[tactic(auto, using(crate::proofs::Loading::sound_dens))]
pub fn take_dens(st: Load, line: &[u8], densities: &mut [u16]) -> Result<Load, Bad>
    requires { Sound st × (0 < st.lines) × (0 < st.left) × (4096 ≤ length densities.old) }
    ensures kept { IfOk result (Further st) }
    ensures reading { taking_of result densities.new ≡ dens_read (loaded_of st densities.old) (dens_in st.grid.x.n (split 9 line.now)) }
    ensures refused { OnErr result (densities.new ≡ densities.old) }
{
    let nx = st.grid.x.n as usize;
    let filled = st.filled + nx;
    // The densities take a row that is read whole, so that one that is refused leaves them as they were.
    let mut places = [0u16; 512];
    let row = &mut places[..nx];
    numbers(Density, line, 0, row).ok_or(Bad::Number)?;
    densities[st.filled..filled].copy_from_slice(row);
    Ok(Load {
        lines: st.lines + 1,
        left: st.left - 1,
        filled,
        ..st
    })
}
