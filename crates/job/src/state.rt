// Where the job stands, and what a line moves it to.
ghost use Rattle.job.specs.Sound.{Sound};

use axis::Limits;
use load::bad::put_bad;
use load::state::Load;

// What is loaded, and the RAY lines answered. The bytes of the line that has begun are the first
// `have` of the lent line.
#[derive(Clone, Copy)]
pub struct State {
    pub load: Load,
    pub rays: u64,
    pub have: usize,
    pub ghost sound: { Sound load rays },
}

// The state behind a line, where the output now ends, and whether the job goes on. The state is there where it does not, too: `feed`
// promises what has been read of it (`Pumping`).
#[derive(Clone, Copy)]
pub struct Moved {
    pub state: State,
    pub at: usize,
    pub going: bool,
}

impl State {
    ghost use Rattle.std.specs.Prelude.{◌≡◌, false, List, ◌++◌, ℕ, length, take};
    ghost use Rattle.tracing.specs.Inside.{Suited};
    ghost use Rattle.load.specs.Line.{bad_line};
    ghost use Rattle.job.specs.Stand.{at_first, stand_of};
    ghost use Rattle.job.specs.Move.{Ready, Kept, read};

    // Nothing is read.
    pub fn new(m: Limits) -> State
        requires { Suited m }
        ensures stands { (ds : List ℕ) → stand_of result ds ≡ at_first m }
        ensures unbegun { result.have ≡ 0 }
    {
        State {
            load: Load::new(m),
            rays: 0,
            have: 0,
        }
    }

    // Refuses the next line: BAD, the number of that line, and the code.
    pub fn refuse(self, code: u32, out: &mut [u8], at: usize) -> Moved
        requires { Ready self at (length out.old) }
        ensures state_value { (result.state ≡ self) × (result.going ≡ false) × Kept self at result }
        ensures out_after { take result.at out.new ≡ take at out.old ++ bad_line (read self) code }
    {
        let to = put_bad(self.load.lines + self.rays, code, out, at);
        Moved {
            state: self,
            at: to,
            going: false,
        }
    }
}
