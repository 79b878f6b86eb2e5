// The numbers of a line, all of them or none.
ghost use Rattle.std.specs.Prelude.{◌≡◌, ◌+◌, ℕ, List, Option, length, drop};
ghost use Rattle.text.specs.Split.{split};
ghost use Rattle.text.specs.Number.{integer_of};
ghost use Rattle.text.specs.Numbers.{natural_to, every, told};

use crate::fields::Fields;
use crate::number::{integer_in, natural_in};

// What is read from a field.
pub trait Reader: Drop {
    type Number: Copy;

    ghost reads: { Self → List ℕ → Option Self.Number };

    fn read(&self, t: &[u8]) -> Option<Self::Number>
        ensures { result ≡ reads self.now t.now };
}

// A number from 0 to `most`.
#[derive(Clone, Copy)]
pub struct UpTo {
    pub most: u32,
}

impl Reader for UpTo {
    type Number = u32;

    ghost reads = { λ r. natural_to r.most };

    fn read(&self, t: &[u8]) -> Option<u32> {
        natural_in(t).filter(|v| *v <= self.most)
    }
}

// A number that may carry a minus.
#[derive(Clone, Copy)]
pub struct Signed;

impl Reader for Signed {
    type Number = i32;

    ghost reads = { λ _. integer_of };

    fn read(&self, t: &[u8]) -> Option<i32> {
        integer_in(t)
    }
}

// Whether each field behind field k is what `reader` reads, as many as out has places; if so, out holds them.
#[tactic(auto, using(crate::proofs::Every::reads))]
pub fn numbers<R: Reader>(reader: R, line: &[u8], k: usize, out: &mut [R::Number]) -> Option<()>
    ensures { told result out.new ≡ every (R.reads reader) (length out.old) (drop (k + 1) (split 9 line.now)) }
{
    let mut fields = Fields::behind(line, k);
    for slot in out {
        *slot = reader.read(fields.next()?)?;
    }
    Some(())
}
