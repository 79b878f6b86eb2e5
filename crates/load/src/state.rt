// What is read of a grid and its densities.
ghost use Rattle.std.specs.Prelude.{◌≡◌, List, ℕ, ◌≤◌};
ghost use Rattle.load.specs.Loaded.{nothing, kind_number, due_at, loaded_of};
ghost use Rattle.load.specs.Sound.{Sound};

use axis::{Axis, Limits};
use ray::Grid;
use text::word::Kind;

// At the limits of a device `lines` GRID and DENS lines are taken in, and `left` DENS lines are still to come. The densities
// read are the first `filled` of the lent densities. That it is sound is no field, since `due` promises of any.
#[derive(Clone, Copy)]
pub struct Load {
    pub limits: Limits,
    pub grid: Grid,
    pub lines: u64,
    pub left: usize,
    pub filled: usize,
}

impl Load {
    // Nothing is read.
    pub fn new(m: Limits) -> Load
        requires { m.n ≤ 512 }
        ensures loaded { (ds : List ℕ) → loaded_of result ds ≡ nothing m }
        ensures sound { Sound result × (result.limits ≡ m) }
    {
        let none = Axis { n: 0, d: 0, b: 0 };
        Load {
            limits: m,
            grid: Grid {
                x: none,
                y: none,
                z: none,
            },
            lines: 0,
            left: 0,
            filled: 0,
        }
    }

    // Which line is due.
    pub fn due(self) -> Kind
        ensures { kind_number result ≡ due_at self.lines self.left }
    {
        if self.lines == 0 {
            return Kind::Grid;
        }
        if self.left == 0 {
            Kind::Own
        } else {
            Kind::Dens
        }
    }
}
